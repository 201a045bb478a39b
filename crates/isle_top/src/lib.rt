//! The top call: words, a directory and two sinks, to a text, a line and a status.
#![tactic(auto)]

mod about;
mod answers;
mod asked;
mod built;
mod compiled;
mod job;
mod lines;
mod preluded;
mod ran;
mod refusal;
mod reply;
mod run;
mod sampled;
mod source;
mod status;

pub use isle_table_check::sample_tables;
pub use run::run_words;
pub use status::Exit;
