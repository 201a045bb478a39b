//! Graphs, and walks in them.
#![tactic(auto)]

mod depth_first;
mod parts;

pub use depth_first::order;
pub use parts::closed_walks;
