//! The laws as clauses.

ghost use Rattle.isle_prelude_laws.specs.PredicateFlags.{PredicatesComplement};

/// Says that the two extractors of a predicate match complementary values. In an environment that definitions give
/// which hold the numeric prelude, `T_when_B` matches each value whose flag `T_matches_B` answers with true, and
/// `T_when_not_B` each for which it answers false, and no others of these. It does nothing.
#[tactic(auto, using(crate::proofs::PredicateLaws::predicates_complement))]
pub fn predicates_complement()
    ensures { PredicatesComplement }
{}
