//! Which part breaks a row, for the words of a fault alone: no clause speaks of it.

use crate::first_part::FirstPart;
use crate::flaw::{Culprit, Flaw};
use crate::new_variables::misses_variable;
use crate::part::{Counts, Part, Thing};
use isle_ast::AstPattern;
use isle_core::Name;
use isle_types::Row;
use std::alloc::{AllocError, Global};

/// Returns the part of a template with these parameters that breaks a row. The only error is want of memory.
pub fn template_culprit<'b, 'd>(
    alloc: Global,
    row: Row,
    noted: &FirstPart<'b, 'd>,
    params: &'b [Name<'d>],
    template: &'b AstPattern<'d>,
) -> Result<Option<Culprit<'b, 'd>>, AllocError> {
    let found = noted.of(row);
    if found.is_some() || row != Row::TemplateMisfit {
        return Ok(found);
    }
    for place in 0..params.len() {
        if misses_variable(alloc, &params[place..place + 1], template)? {
            return Ok(Some(Culprit {
                flaw: Flaw::LeftOut,
                part: Part {
                    thing: Thing::Parameter(&params[place]),
                    expected: None,
                    found: None,
                    counts: None,
                },
            }));
        }
    }
    Ok(None)
}

/// Returns the part that breaks a row in a rule of a term of this name, on so many patterns, of which it wants so many:
/// the head, or the first one in the patterns and the conditions, or else on the right side.
pub fn rule_culprit<'b, 'd>(
    row: Row,
    wanted: usize,
    term: &'b Name<'d>,
    count: usize,
    left: &FirstPart<'b, 'd>,
    right: &FirstPart<'b, 'd>,
) -> Option<Culprit<'b, 'd>> {
    if count != wanted {
        let counts = Counts {
            given: count,
            wanted,
        };
        return Some(Culprit {
            flaw: Flaw::Head,
            part: Part {
                thing: Thing::Term(term),
                expected: None,
                found: None,
                counts: Some(counts),
            },
        });
    }
    left.of(row).or(right.of(row))
}
