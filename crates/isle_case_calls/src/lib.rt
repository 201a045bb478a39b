//! Calls of the library that no words of the program make, each told in lines.
#![tactic(auto)]

pub mod items;
pub mod judged;
pub mod literals;
pub mod numeric_rows;
pub mod signatures;
pub mod targets;
pub mod unit_paths;
pub mod weights;
