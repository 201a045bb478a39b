//! The first part that breaks the lowest row, for the words of a fault alone: no clause speaks of it.

use crate::flaw::{Culprit, Flaw};
use crate::judged::Judged;
use crate::part::{Counts, Part, Thing};
use isle_core::TypeId;
use isle_types::Row;

/// Where parts stand: in a template; or in a rule, among its patterns and conditions or on its right side, of a term
/// that is or isn't `multi`, `partial` and `pure`.
#[derive(Clone, Copy)]
pub enum Side {
    Template,
    Left {
        multi: bool,
    },
    Right {
        multi: bool,
        partial: bool,
        pure: bool,
    },
}

// The lowest row of patterns that is broken everywhere alike.
fn of_patterns(rows: &Judged) -> Option<(Row, Flaw)> {
    if rows.untaken {
        Some((Row::PatternTermMisfit, Flaw::Untaken))
    } else if rows.mistaken {
        Some((Row::PatternTypeMisfit, Flaw::Mistaken))
    } else if rows.misplaced {
        Some((Row::LiteralMisfit, Flaw::Misplaced))
    } else if rows.undeclared {
        Some((Row::ConstantUndeclared, Flaw::Undeclared))
    } else {
        None
    }
}

// The lowest row that is broken in a template.
fn of_template(rows: &Judged) -> Option<(Row, Flaw)> {
    if rows.unbound {
        Some((Row::TemplateMisfit, Flaw::NoParameter))
    } else if rows.met_otherwise {
        Some((Row::TemplateMisfit, Flaw::Mistaken))
    } else {
        of_patterns(rows)
    }
}

// The lowest row of variables and expressions that is broken in a rule of a term of this kind.
fn of_expressions(rows: &Judged, multi: bool) -> Option<(Row, Flaw)> {
    if rows.met_otherwise {
        Some((Row::VariableTypeMisfit, Flaw::MetOtherwise))
    } else if rows.multi_taken & !multi {
        Some((Row::MultiExtractor, Flaw::MultiTaken))
    } else if rows.unknown {
        Some((Row::ExprNameMisfit, Flaw::Unknown))
    } else if rows.mistyped {
        Some((Row::ExprTypeMisfit, Flaw::Mistyped))
    } else {
        None
    }
}

// The lowest row of calls that is broken: of those in conditions, or of those on the right side.
fn of_calls(rows: &Judged, side: Side) -> Option<(Row, Flaw)> {
    let (in_condition, partial, impure, multi) = match side {
        Side::Template => (false, false, false, false),
        Side::Left { multi } => (true, false, false, !multi),
        Side::Right {
            multi,
            partial,
            pure,
        } => (false, !partial, pure, !multi),
    };
    if in_condition & rows.impure {
        Some((Row::ImpureCondition, Flaw::InCondition))
    } else if partial & rows.partial {
        Some((Row::PartialCall, Flaw::Partial))
    } else if impure & rows.impure {
        Some((Row::ImpureCall, Flaw::Impure))
    } else if multi & rows.multi {
        Some((Row::MultiCall, Flaw::Multi))
    } else {
        None
    }
}

// The lowest row that is broken in a rule, on this side.
fn of_rule(rows: &Judged, side: Side, multi: bool) -> Option<(Row, Flaw)> {
    match of_patterns(rows) {
        None => match of_expressions(rows, multi) {
            None => of_calls(rows, side),
            found => found,
        },
        found => found,
    }
}

impl Side {
    // The lowest row that is broken here, and what is wrong then.
    fn lowest(self, rows: &Judged) -> Option<(Row, Flaw)> {
        match self {
            Side::Template => of_template(rows),
            Side::Left { multi } => of_rule(rows, self, multi),
            Side::Right { multi, .. } => of_rule(rows, self, multi),
        }
    }
}

/// Of the parts on a side the first one that breaks the lowest row which any of them breaks.
#[derive(Clone, Copy)]
pub struct FirstPart<'b, 'd> {
    side: Side,
    lowest: Option<(Row, Culprit<'b, 'd>)>,
}

impl<'b, 'd> FirstPart<'b, 'd> {
    /// Begins with no part.
    pub fn new(side: Side) -> FirstPart<'b, 'd> {
        FirstPart { side, lowest: None }
    }

    /// Keeps a part if, now that it is judged, a row is broken that is lower than before.
    pub fn note(
        &mut self,
        rows: &Judged,
        thing: Thing<'b, 'd>,
        expected: Option<TypeId>,
        found: Option<TypeId>,
        counts: Option<Counts>,
    ) {
        let Some((row, flaw)) = self.side.lowest(rows) else {
            return;
        };
        if self.is_noted(row, flaw) {
            return;
        }
        let part = Part {
            thing,
            expected,
            found,
            counts,
        };
        self.lowest = Some((row, Culprit { flaw, part }));
    }

    // Whether a part is noted for this row, with which this is wrong.
    fn is_noted(&self, row: Row, flaw: Flaw) -> bool {
        match &self.lowest {
            Some((noted, culprit)) => *noted == row && culprit.flaw == flaw,
            None => false,
        }
    }

    /// Returns the part that breaks this row, if it is the lowest one that is broken.
    pub fn of(&self, row: Row) -> Option<Culprit<'b, 'd>> {
        match self.lowest {
            Some((noted, culprit)) if noted == row => Some(culprit),
            _ => None,
        }
    }
}
