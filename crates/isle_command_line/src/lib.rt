//! The grammar of the program's command lines, and its exact reader.
#![tactic(auto)]

mod commands;
mod line;
mod options;
mod run;
mod state;
mod word;

pub use commands::{Command, Kind, LineFail, RunLine, Source};
pub use line::command;
