//! From rules to rule sets that stand for them.
#![tactic(auto)]

mod conditions;
mod firsts;
mod flat_rules;
mod grouping;
mod keys;
mod made;
mod numbering;
mod opening;
mod parts;
mod pattern_tests;
mod patterns;
mod right_side;

pub use flat_rules::rule_set;
pub use grouping::rule_sets;
