//! From rule sets to blocks.
#![tactic(auto)]

mod arrangement;
mod fields;
mod followers;
mod free;
mod gathering;
mod needed;
mod nest;
mod openings;
mod serialization;
mod steps;
mod tables;
mod tree;
mod turns;
mod ways;

pub use serialization::serialize;
