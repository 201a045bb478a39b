//! A run of a compiled term: a checked source, values and answers, to the lines of what the run gives.
#![tactic(auto)]

mod checked;
mod left_out;
mod outcome;
mod program;
mod run_fail;
mod shown;
mod trials;

pub use outcome::{Compiled, outcome_under};
pub use program::args_given;
pub use run_fail::RunFail;
pub use trials::{TrialFail, trial};
