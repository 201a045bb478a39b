ghost use Rattle.std.specs.Prelude.{◌≡◌, Some, IfOk, OnOk, IsSomeAnd, slice_get};
ghost use Rattle.isle_core.specs.declared.types.Term.{Term as CodeTerm};
ghost use Rattle.isle_core.specs.Path.{Path, paths_of};
ghost use Rattle.isle_core.specs.Rule.{Environment};
ghost use Rattle.isle_core.specs.Making.{MakesNothing, making_in};
ghost use Rattle.isle_core.specs.BuiltRule.{IsExtractorKind, IsOpening};
ghost use Rattle.isle_rulesets.specs.Keys.{IsThere};
ghost use Rattle.isle_rulesets.specs.Numbering.{Numbers};
ghost use Rattle.isle_rulesets.specs.Opened.{extracts_by, Asks, opened_part, IsOpenedThere, Answers, Opens};

use crate::keys::Key;
use crate::made::{Made, made_by};
use crate::numbering::Numbering;
use crate::pattern_tests::{PatternTests, constrain};
use isle_core::{
    BindingId, Constraint, ExtractorKind, ReturnKind, Term, TermId, TermKind, TupleIndex,
    extractor_kind,
};
use std::alloc::{AllocError, Global};

/// What a value was taken apart into: the fields of what is made, or an extractor's result or results.
#[derive(Clone, Copy)]
pub enum Opened {
    Made { made: Made, source: BindingId },
    Result(BindingId),
    Results(BindingId),
}

// How often the extractor of the term answers.
fn how_often(kind: &TermKind) -> ReturnKind
    ensures { result ≡ extracts_by kind.now }
{
    match kind {
        TermKind::Variant { .. } | TermKind::Struct { .. } => ReturnKind::Plain,
        TermKind::Decl {
            multi,
            extractor,
            ..
        } => match extractor {
            ExtractorKind::Absent | ExtractorKind::Internal => ReturnKind::Plain,
            ExtractorKind::External { infallible, .. } => extractor_kind(*multi, *infallible),
        },
    }
}

// Tests that an answer is something, if it may be nothing; that a list has an item is seen to by the loop over it.
fn test_answer(
    tests: &mut PatternTests,
    call: BindingId,
    kind: ReturnKind,
) -> Result<(), AllocError>
    ensures { OnOk result (Asks tests.old tests.new kind call) }
{
    match kind {
        ReturnKind::Plain | ReturnKind::Iterator => Ok(()),
        ReturnKind::Option => constrain(tests, call, Constraint::Some),
    }
}

// The number of the value of an extractor's answer, which is tested.
fn answer(
    alloc: Global,
    numbering: &mut Numbering,
    tests: &mut PatternTests,
    call: BindingId,
    kind: ReturnKind,
) -> Result<BindingId, AllocError>
    requires { IsThere (paths_of numbering.old.bindings) call }
    ensures { IfOk result (λ b.
        (p : Path) → slice_get (paths_of numbering.old.bindings) call.0 ≡ Some p
        → Answers numbering.old numbering.new tests.old tests.new kind p b) }
{
    test_answer(tests, call, kind)?;
    numbering.answered(alloc, call, kind)
}

// What an extractor gives on the path of a number.
fn extract(
    alloc: Global,
    terms: &[Term],
    numbering: &mut Numbering,
    tests: &mut PatternTests,
    term: TermId,
    source: BindingId,
) -> Result<Opened, AllocError>
    requires kind { IsSomeAnd (slice_get terms.now term.0)
        (λ (t : CodeTerm). IsExtractorKind t.kind) }
    requires makes { making_in terms.now term ≡ MakesNothing }
    requires there { IsThere (paths_of numbering.old.bindings) source }
    ensures there { IfOk result (IsOpenedThere (paths_of numbering.new.bindings)) }
    ensures opens { IfOk result (λ o.
        (env : Environment) → env.terms ≡ terms.now
        → Opens env numbering.old numbering.new tests.old tests.new term source o) }
{
    let found = &terms[term.index()];
    let parameter = source;
    let call = numbering.intern(alloc, Key::Extractor { term, parameter })?;
    let answer = answer(alloc, numbering, tests, call, how_often(&found.kind))?;
    Ok(if found.arg_tys.as_slice().len() == 1 {
        Opened::Result(answer)
    } else {
        Opened::Results(answer)
    })
}

/// Takes the path of a number apart by a term's pattern: tests what it must be, and numbers what the term's extractor
/// gives. The only error is want of memory.
pub fn open(
    alloc: Global,
    terms: &[Term],
    numbering: &mut Numbering,
    tests: &mut PatternTests,
    term: TermId,
    source: BindingId,
) -> Result<Opened, AllocError>
    requires opens { IsOpening (making_in terms.now term) (slice_get terms.now term.0) }
    requires there { IsThere (paths_of numbering.old.bindings) source }
    ensures there { IfOk result (IsOpenedThere (paths_of numbering.new.bindings)) }
    ensures opens { IfOk result (λ o.
        (env : Environment) → env.terms ≡ terms.now
        → Opens env numbering.old numbering.new tests.old tests.new term source o) }
{
    match made_by(terms, term) {
        Some(made) => {
            constrain(tests, source, made.constraint())?;
            Ok(Opened::Made { made, source })
        }
        None => extract(alloc, terms, numbering, tests, term, source),
    }
}

/// Numbers a part of what was taken apart. The only error is want of memory.
pub fn number_part(
    alloc: Global,
    numbering: &mut Numbering,
    opened: Opened,
    field: TupleIndex,
) -> Result<BindingId, AllocError>
    requires { IsOpenedThere (paths_of numbering.old.bindings) opened }
    ensures { IfOk result (λ b.
        Numbers numbering.old numbering.new
        (opened_part (paths_of numbering.old.bindings) opened field.0) b) }
{
    match opened {
        Opened::Made { made, source } => numbering.intern(alloc, made.field(source, field)),
        Opened::Result(answer) => Ok(answer),
        Opened::Results(source) => numbering.intern(alloc, Key::MatchTuple { source, field }),
    }
}
