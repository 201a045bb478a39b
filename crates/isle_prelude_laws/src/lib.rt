//! What preludes mean: that each instruction is taken apart into the operands it was made of, and that the extractors of
//! a predicate are complements. Definitions and laws, and functions without effect whose clauses are the laws.
#![tactic(auto)]

mod laws;

pub use laws::predicates_complement;
