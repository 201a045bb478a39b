//! The extractors of a predicate.

ghost use Rattle.std.specs.Prelude.{◌≡◌, ◌++◌, [], ◌∷◌, Bool, OnOk, IfOk, codes, string_bytes};
ghost use Rattle.std.specs.Prelude.{false};
ghost use Rattle.isle_ast.specs.Tree.{ExternExtractor};
ghost use Rattle.isle_ast.specs.Views.{pattern};
ghost use Rattle.isle_writing.specs.Text.{def_texts};
ghost use Rattle.isle_numerics.specs.Definitions.{declared, extracted, extractors, flagged};
ghost use Rattle.isle_numerics.specs.Definitions.{no_place, standing};

use crate::definition::{prefixed_twice, push_answered, push_declared, push_template};
use isle_ast::AstPattern;
use isle_core::{List, Name};
use std::alloc::{AllocError, Global};

/// Returns one name.
pub fn one_name<'t>(alloc: Global, name: &'t str) -> Result<List<Name<'t>>, AllocError>
    ensures { IfOk result (λ names. names ≡ name.now ∷ []) }
{
    let mut names = Vec::new(alloc);
    names.push(Name::new(name))?;
    Ok(List::new(names))
}

// The pattern of the values whose flag is the one given.
#[tactic(auto, using(isle_ast::proofs::Sees::pattern_sees))]
fn flagged<'t>(alloc: Global, matcher: &'t str, flag: bool) -> Result<AstPattern<'t>, AllocError>
    ensures { IfOk result (λ p. pattern p ≡ flagged matcher.now flag) }
{
    let mut parts = Vec::new(alloc);
    parts.push(AstPattern::Bool(flag))?;
    Ok(AstPattern::Term(Name::new(matcher), List::new(parts)))
}

// The pattern of the values that a predicate holds of, each bound to x.
#[tactic(auto, using(isle_ast::proofs::Sees::pattern_sees))]
fn extracted<'t>(alloc: Global, matcher: &'t str) -> Result<AstPattern<'t>, AllocError>
    ensures { IfOk result (λ p. pattern p ≡ extracted matcher.now) }
{
    let mut parts = Vec::new(alloc);
    parts.push(flagged(alloc, matcher, true)?)?;
    parts.push(AstPattern::Var(Name::new("x")))?;
    Ok(AstPattern::And(List::new(parts)))
}

// Appends a declared extractor with these parameters, and the pattern that it stands for.
fn push_standing<'t>(
    text: &mut String,
    ty: &'t str,
    term: &'t str,
    args: List<Name<'t>>,
    params: List<Name<'t>>,
    template: AstPattern<'t>,
) -> Result<(), AllocError>
    ensures { OnOk result
        (string_bytes text.new
        ≡ string_bytes text.old
        ++ def_texts (standing ty.now term.now args.entry params.entry (pattern template.entry))) }
{
    push_declared(text, term, false, args, ty)?;
    push_template(text, term, params, template)
}

// Appends the extractor of a predicate's flag.
fn push_matching(alloc: Global, text: &mut String, ty: &str, term: &str) -> Result<(), AllocError>
    ensures { OnOk result
        (string_bytes text.new
        ≡ string_bytes text.old
        ++ def_texts (declared term.now false (codes "bool" ∷ []) ty.now
        ∷ ExternExtractor term.now term.now false no_place ∷ [])) }
{
    push_declared(text, term, false, one_name(alloc, "bool")?, ty)?;
    push_answered(text, term, term)
}

// Appends the extractor of the value where a predicate holds.
fn push_extract<'t>(
    alloc: Global,
    text: &mut String,
    ty: &'t str,
    matcher: &'t str,
    term: &'t str,
) -> Result<(), AllocError>
    ensures { OnOk result
        (string_bytes text.new
        ≡ string_bytes text.old
        ++ def_texts (standing ty.now term.now (ty.now ∷ []) (codes "x" ∷ []) (extracted matcher.now))) }
{
    let args = one_name(alloc, ty)?;
    let params = one_name(alloc, "x")?;
    push_standing(text, ty, term, args, params, extracted(alloc, matcher)?)
}

// Appends the extractor of whether a predicate's flag is the one given.
fn push_when<'t>(
    alloc: Global,
    text: &mut String,
    ty: &'t str,
    matcher: &'t str,
    term: &'t str,
    flag: bool,
) -> Result<(), AllocError>
    ensures { OnOk result
        (string_bytes text.new
        ≡ string_bytes text.old
        ++ def_texts (standing ty.now term.now [] [] (flagged matcher.now flag))) }
{
    let args = List::new(Vec::new(alloc));
    let params = List::new(Vec::new(alloc));
    push_standing(text, ty, term, args, params, flagged(alloc, matcher, flag)?)
}

/// Appends the extractors of a predicate.
pub fn push_extractors(
    alloc: Global,
    text: &mut String,
    ty: &str,
    base: &str,
) -> Result<(), AllocError>
    ensures { OnOk result
        (string_bytes text.new ≡ string_bytes text.old ++ def_texts (extractors ty.now base.now)) }
{
    let matcher = prefixed_twice(alloc, ty, "matches_", base)?;
    push_matching(alloc, text, ty, matcher.as_str())?;
    let extract = prefixed_twice(alloc, ty, "extract_", base)?;
    push_extract(alloc, text, ty, matcher.as_str(), extract.as_str())?;
    let when = prefixed_twice(alloc, ty, "when_", base)?;
    push_when(alloc, text, ty, matcher.as_str(), when.as_str(), true)?;
    let when_not = prefixed_twice(alloc, ty, "when_not_", base)?;
    push_when(alloc, text, ty, matcher.as_str(), when_not.as_str(), false)
}
