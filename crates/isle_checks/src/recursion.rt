//! The check of terms that use themselves.

ghost use Rattle.std.specs.Prelude.{◌≡◌, ◌<◌, ℕ, List as ListOf, [], length, eqb, Err, IfOk};
ghost use Rattle.std.specs.List.{AllByRecursion, IsDistinct};
ghost use Rattle.isle_core.specs.declared.errors.Error.{Error as TheError};
ghost use Rattle.isle_checks.specs.declared.overlap.CheckError.TheVariants.{Rules};
ghost use Rattle.isle_checks.specs.Graph.{ids_of};
ghost use Rattle.isle_checks.specs.Recursions.{recursion_error, IsRecursionList};

use crate::overlap::CheckError;
use crate::uses::graph;
use isle_core::{Error, List, Pos, RuleSet, Span, Term, TermEnv, TermId, Text};
use isle_walks::closed_walks;
use std::alloc::{AllocError, Global};

/// What is said of a term that uses itself and is not marked so.
const UNMARKED: &str = "Term is recursive but does not have the `rec` attribute";

// The error of a term that is declared there.
fn recursion_error(alloc: Global, pos: Pos) -> Result<Error, AllocError>
    ensures { IfOk result (λ error. error ≡ recursion_error pos) }
{
    let msg = Text::copied(alloc, UNMARKED)?;
    Ok(Error::RecursionError {
        msg,
        span: Span::new_single(pos),
    })
}

// The errors of those terms that are on a closed walk and not marked, in order.
fn errors_of(
    alloc: Global,
    terms: &[Term],
    sets: &[(TermId, RuleSet)],
) -> Result<Vec<Error>, AllocError>
    requires there { AllByRecursion (λ (id : ℕ). id < length terms.now) (ids_of sets.now) }
    requires once { IsDistinct eqb (ids_of sets.now) }
    ensures { IfOk result (λ errors. IsRecursionList terms.now sets.now errors.items) }
{
    let graph = graph(alloc, terms, sets)?;
    let closed = closed_walks(alloc, graph.as_slice())?;
    let mut errors = Vec::new(alloc);
    for (place, (id, _)) in sets.iter().enumerate() {
        let term = &terms[id.index()];
        let told = closed[place] & !term.is_recursive();
        if told {
            errors.push(recursion_error(alloc, term.decl_pos)?)?;
        }
    }
    Ok(errors)
}

/// Looks for terms that use themselves, by themselves or through others, and are not marked with `rec`: `Rules` comes
/// exactly if there is one, and has an error at the declaration of each, in order (`specs/Recursions.antt`). Each
/// term is one of the environment, and listed once.
pub fn check(
    alloc: Global,
    terms: &[(TermId, RuleSet)],
    termenv: &TermEnv,
) -> Result<(), CheckError>
    requires there { AllByRecursion (λ (id : ℕ). id < length termenv.now.terms) (ids_of terms.now) }
    requires once { IsDistinct eqb (ids_of terms.now) }
    ensures ok { IfOk result (λ done. IsRecursionList termenv.now.terms terms.now []) }
    ensures some { (errors : ListOf TheError) → result ≡ Err (Rules errors) → errors ≡ [] → ⊥ }
    ensures err { (errors : ListOf TheError) → result ≡ Err (Rules errors)
        → IsRecursionList termenv.now.terms terms.now errors }
{
    let errors = errors_of(alloc, termenv.terms.as_slice(), terms)?;
    if errors.is_empty() {
        return Ok(());
    }
    Err(CheckError::Rules(List::new(errors)))
}
