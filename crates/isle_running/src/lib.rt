//! Functions of target programs run under given answers.
#![tactic(auto)]

mod arms;
mod around;
mod called;
mod calls;
mod constants;
mod fields;
mod fit;
mod flow;
mod frame;
mod functions;
mod holding;
mod lets;
mod lists;
mod making;
mod named;
mod reading;
mod results;
mod run;
mod source;
mod sources;

pub use functions::run_function;
