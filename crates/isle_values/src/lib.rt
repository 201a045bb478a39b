//! Lists of values, as they are written in one word of a command line.
#![tactic(auto)]

mod reading;
mod texts;
mod written;

pub use reading::{list, parts, simple, value};
pub use texts::values;
pub use written::Written;
