//! The row of the typing table that an extractor or a rule breaks.

ghost use Rattle.std.specs.Prelude.{◌≡◌};
ghost use Rattle.isle_sema.specs.Judging.{lowest, lowest_of_template};

use crate::known::Called;
use isle_terms::Judged;
use isle_types::Row;

/// Returns the lowest row that an extractor with a template breaks, by whether its term reaches itself, whether a
/// parameter does not stand in it, and what its parts are judged.
pub fn template_row(reaches_itself: bool, misses: bool, judged: &Judged) -> Option<Row>
    ensures { result ≡ lowest_of_template reaches_itself misses judged.now }
{
    if reaches_itself {
        Some(Row::ExtractorReachesItself)
    } else if judged.unbound || (misses || judged.met_otherwise) {
        Some(Row::TemplateMisfit)
    } else if judged.untaken {
        Some(Row::PatternTermMisfit)
    } else if judged.mistaken {
        Some(Row::PatternTypeMisfit)
    } else if judged.misplaced {
        Some(Row::LiteralMisfit)
    } else if judged.undeclared {
        Some(Row::ConstantUndeclared)
    } else {
        None
    }
}

/// Returns the lowest row before that of its nodes that a rule of a term breaks, on so many patterns, by what its
/// patterns with its conditions, and its right side, are judged.
pub fn lowest_row(own: &Called, count: usize, left: &Judged, right: &Judged) -> Option<Row>
    ensures { result ≡ lowest own.now count left.now right.now }
{
    if count != own.args.len() || (left.untaken || right.untaken) {
        Some(Row::PatternTermMisfit)
    } else if left.mistaken || right.mistaken {
        Some(Row::PatternTypeMisfit)
    } else if left.misplaced || right.misplaced {
        Some(Row::LiteralMisfit)
    } else if left.undeclared || right.undeclared {
        Some(Row::ConstantUndeclared)
    } else if left.met_otherwise || right.met_otherwise {
        Some(Row::VariableTypeMisfit)
    } else if !own.multi && left.multi_taken {
        Some(Row::MultiExtractor)
    } else if left.unknown || right.unknown {
        Some(Row::ExprNameMisfit)
    } else if left.mistyped || right.mistyped {
        Some(Row::ExprTypeMisfit)
    } else if left.impure {
        Some(Row::ImpureCondition)
    } else if !own.partial && right.partial {
        Some(Row::PartialCall)
    } else if own.pure && right.impure {
        Some(Row::ImpureCall)
    } else if !own.multi && (left.multi || right.multi) {
        Some(Row::MultiCall)
    } else {
        None
    }
}
