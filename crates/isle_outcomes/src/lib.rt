//! What runs give: values, ends and calls, copied, compared and shown as lines.
#![tactic(auto)]

mod lines;
mod shown;
mod value;

pub use lines::{end_line, push_call};
pub use value::{copied, same};
