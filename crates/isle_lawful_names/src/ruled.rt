//! Which terms have rules.

ghost use Rattle.std.specs.Prelude.{◌≡◌, false, true, length, map, set, slice_index_or, IfOk};
ghost use Rattle.isle_core.specs.RuleViews.{rule as seen};
ghost use Rattle.isle_lawful_names.specs.Claims.{is_ruled};
ghost use Rattle.isle_lawful_names.specs.Judges.{AreRuled};

use isle_core::TermEnv;
use std::alloc::{AllocError, Global};

/// Tells whether there is a rule.
pub fn is_ruled(termenv: &TermEnv) -> bool
    ensures { result ≡ is_ruled (map seen termenv.now.rules) }
{
    match termenv.rules.as_slice() {
        [] => false,
        [_, ..] => true,
    }
}

// Notes that the term of this number has a rule; one that is not there has no place in the table.
fn note(table: &mut Vec<bool>, number: usize)
    ensures { table.new.items ≡ set table.old.items number true }
{
    if number < table.len() {
        table[number] = true;
    }
}

/// Tells of each term whether it has rules, in one pass over the rules. The only error is want of memory.
pub fn ruled_terms(alloc: Global, termenv: &TermEnv) -> Result<Vec<bool>, AllocError>
    ensures { IfOk result (λ table.
        AreRuled (length termenv.now.terms) (map seen termenv.now.rules) table.items) }
{
    let mut table: Vec<bool> = vec![in alloc; false; termenv.terms.as_slice().len()]?;
    for rule in termenv.rules.as_slice() {
        note(&mut table, rule.root_term.index());
    }
    Ok(table)
}

/// Returns what the table says at a number.
pub fn told_at(table: &[bool], number: usize) -> bool
    ensures { result ≡ slice_index_or table.now number false }
{
    match table.get(number) {
        Some(ruled) => *ruled,
        None => false,
    }
}
