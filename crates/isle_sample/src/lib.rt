//! The text of a sample of rules, of as many terms as are asked for.
#![tactic(auto)]

mod sample;

pub use sample::sample_text;
