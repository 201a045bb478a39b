//! Patterns with types in them, their variables and terms as numbers.

ghost use Rattle.std.specs.Prelude.{◌≡◌, Option, Some, IfOk, map, option_map};
ghost use Rattle.isle_ast.specs.Tree as tree;
ghost use Rattle.isle_ast.specs.Views.{pattern, patterns_of};
ghost use Rattle.isle_core.specs.RuleViews.{pattern as elaborated};
ghost use Rattle.isle_declarations.specs.Signatures.{Signature};
ghost use Rattle.isle_terms.specs.Whole.{Whole, ret_type, number_of, constant_type};
ghost use Rattle.isle_terms.specs.Whole.{whole};
ghost use Rattle.isle_sema.specs.Known.{MayBeCalled};
ghost use Rattle.isle_sema.specs.PatternPass.{integer_tree, variable_tree, constant_tree, term_tree};
ghost use Rattle.isle_sema.specs.PatternPass.{pattern_within, and_tree, bound_tree};
ghost use Rattle.isle_sema.specs.ElaboratedAt.{pattern_trees, copies, IsPatternAt, ArePatternsAt};

use crate::judging::Judging;
use crate::known::{Called, Known, argument_types, result_type, within};
use isle_ast::AstPattern;
use isle_core::{Boxed, List, Name, Pattern, TypeEnv, TypeId, VarId};
use isle_terms::{Thing, Variables, is_blank, typed_integer};
use std::alloc::{AllocError, Global};

// An integer where this type is expected.
#[tactic(auto, using(isle_core::proofs::SeesRules::sees))]
fn integer_at(types: &TypeEnv, expected: Option<TypeId>, n: i128) -> Option<Pattern>
    ensures { option_map elaborated result ≡ integer_tree types.now expected n }
{
    let (ty, reduced) = typed_integer(types, expected, n)?;
    Some(Pattern::ConstInt(ty, reduced))
}

// A variable, if it is bound at a type that is known.
#[tactic(auto, using(isle_core::proofs::SeesRules::sees))]
fn variable_at(vars: &Variables, name: &Name) -> Option<Pattern>
    ensures { option_map elaborated result ≡ variable_tree vars.now name.now }
{
    let (ty, var) = vars.typed(name)?;
    Some(Pattern::Var(ty, var))
}

// A variable at a pattern, if both are there.
#[tactic(auto, using(isle_core::proofs::SeesRules::sees))]
fn bound_to(
    alloc: Global,
    var: Option<(TypeId, VarId)>,
    inner: Option<Pattern>,
) -> Result<Option<Pattern>, AllocError>
    ensures { IfOk result (λ found.
        option_map elaborated found ≡ bound_tree var (option_map elaborated inner)) }
{
    let Some(inner) = inner else {
        return Ok(None);
    };
    let Some((ty, var)) = var else {
        return Ok(None);
    };
    Ok(Some(Pattern::BindPattern(ty, var, Boxed::new(alloc, inner)?)))
}

// Patterns that all match one value of the type that is expected, if all are there.
#[tactic(auto, using(isle_core::proofs::SeesRules::sees))]
fn all_of(expected: Option<TypeId>, parts: Option<Vec<Pattern>>) -> Option<Pattern>
    ensures { option_map elaborated result ≡ and_tree expected (pattern_trees parts) }
{
    let parts = parts?;
    Some(Pattern::And(expected?, List::new(parts)))
}

// The type that is expected, so many times.
fn copies(alloc: Global, expected: Option<TypeId>, count: usize) -> Result<Vec<TypeId>, AllocError>
    ensures { IfOk result (λ types. types.items ≡ copies expected count) }
{
    let mut types = Vec::new(alloc);
    if let Some(ty) = expected {
        for _ in 0..count {
            types.push(ty)?;
        }
    }
    Ok(types)
}

// A constant of this type, if it is declared.
#[tactic(auto, using(isle_core::proofs::SeesRules::sees))]
fn constant_at(known: &Known, found: Option<TypeId>, name: &Name) -> Option<Pattern>
    ensures { option_map elaborated result ≡ constant_tree (whole known.now).types found name.now }
{
    let ty = found?;
    Some(Pattern::ConstPrim(ty, known.sym(name)))
}

// A term on these patterns, if all are there.
#[tactic(auto, using(isle_core::proofs::SeesRules::sees))]
fn made_of(callee: &Option<Called>, parts: Option<Vec<Pattern>>) -> Option<Pattern>
    ensures { (w : Whole) (s : Option Signature) → MayBeCalled w s callee.now
        → option_map elaborated result
        ≡ term_tree (ret_type w s) (number_of w s) (pattern_trees parts) }
{
    let parts = parts?;
    match callee {
        Some(callee) => Some(Pattern::Term(callee.ret, callee.term, List::new(parts))),
        None => None,
    }
}

// A pattern within a converter, if there is one.
fn converted(
    alloc: Global,
    converter: &Option<Called>,
    found: Option<Pattern>,
) -> Result<Option<Pattern>, AllocError>
    ensures { (w : Whole) (s : Option Signature) → MayBeCalled w s converter.now
        → IfOk result
        (λ p. option_map elaborated p ≡ pattern_within w s (option_map elaborated found)) }
{
    if converter.is_none() {
        return Ok(found);
    }
    let Some(inner) = found else {
        return Ok(None);
    };
    let mut parts = Vec::new(alloc);
    parts.push(inner)?;
    Ok(made_of(converter, Some(parts)))
}

/// A pattern where this type is expected: its tree, if its types are known.
#[cycle(patterns)]
#[tactic(auto, using(isle_ast::proofs::Sees::pattern_sees, isle_core::proofs::SeesRules::sees))]
pub fn pattern_at<'b, 'd>(
    alloc: Global,
    known: &Known,
    vars: &mut Variables<'b>,
    judged: &mut Judging<'_, 'b, 'd>,
    expected: Option<TypeId>,
    p: &'b AstPattern<'d>,
) -> Result<Option<Pattern>, AllocError>
    ensures { IfOk result (λ found.
        IsPatternAt (whole known.now) expected (pattern p.now) vars.old vars.new judged.old.rows
        judged.new.rows found) }
{
    match p {
        AstPattern::Int(n) => {
            judged.integer(known.types(), expected, n);
            Ok(integer_at(known.types(), expected, *n))
        }
        AstPattern::Bool(b) => {
            judged.truth(known.types(), expected, *b);
            Ok(Some(Pattern::ConstBool(*b)))
        }
        AstPattern::Var(name) => {
            let bound = vars.meet(name, expected)?;
            judged.met(expected, bound, name);
            Ok(variable_at(vars, name))
        }
        AstPattern::Wildcard => {
            match expected {
                Some(ty) => Ok(Some(Pattern::Wildcard(ty))),
                None => Ok(None),
            }
        }
        AstPattern::Const(name) => {
            let found = known.constant(name);
            judged.constant(true, expected, found, name);
            Ok(constant_at(known, found, name))
        }
        AstPattern::Term(name, parts) => {
            term_at(alloc, known, vars, judged, expected, name, parts.as_slice())
        }
        AstPattern::Bind(name, inner) => {
            bind_at(alloc, known, vars, judged, expected, name, inner.get())
        }
        AstPattern::And(parts) => { and_at(alloc, known, vars, judged, expected, parts.as_slice()) }
    }
}

// `@` where this type is expected: the variable is met before the pattern is.
#[cycle(patterns)]
fn bind_at<'b, 'd>(
    alloc: Global,
    known: &Known,
    vars: &mut Variables<'b>,
    judged: &mut Judging<'_, 'b, 'd>,
    expected: Option<TypeId>,
    name: &'b Name<'d>,
    inner: &'b AstPattern<'d>,
) -> Result<Option<Pattern>, AllocError>
    ensures { IfOk result (λ found.
        IsPatternAt (whole known.now) expected (tree.Bind name.now (pattern inner.now)) vars.old
        vars.new judged.old.rows judged.new.rows found) }
{
    if is_blank(name) {
        return pattern_at(alloc, known, vars, judged, expected, inner);
    }
    let bound = vars.meet(name, expected)?;
    judged.met(expected, bound, name);
    let var = vars.typed(name);
    let found = pattern_at(alloc, known, vars, judged, expected, inner)?;
    bound_to(alloc, var, found)
}

// Patterns that all match one value, where this type is expected.
#[cycle(patterns)]
fn and_at<'b, 'd>(
    alloc: Global,
    known: &Known,
    vars: &mut Variables<'b>,
    judged: &mut Judging<'_, 'b, 'd>,
    expected: Option<TypeId>,
    parts: &'b [AstPattern<'d>],
) -> Result<Option<Pattern>, AllocError>
    ensures { IfOk result (λ found.
        IsPatternAt (whole known.now) expected (tree.And (patterns_of (map pattern parts.now)))
        vars.old vars.new judged.old.rows judged.new.rows found) }
{
    let types = copies(alloc, expected, parts.len())?;
    let typed = patterns_at(alloc, known, vars, judged, types.as_slice(), parts)?;
    Ok(all_of(expected, typed))
}

// A term on patterns where this type is expected.
#[cycle(patterns)]
fn term_at<'b, 'd>(
    alloc: Global,
    known: &Known,
    vars: &mut Variables<'b>,
    judged: &mut Judging<'_, 'b, 'd>,
    expected: Option<TypeId>,
    name: &'b Name<'d>,
    parts: &'b [AstPattern<'d>],
) -> Result<Option<Pattern>, AllocError>
    ensures { IfOk result (λ found.
        IsPatternAt (whole known.now) expected
        (tree.Term name.now (patterns_of (map pattern parts.now))) vars.old vars.new judged.old.rows
        judged.new.rows found) }
{
    let callee = known.called(name);
    let of = result_type(&callee);
    let converter = known.conversion(of, expected);
    judged.taken_by(expected, &converter, of);
    judged.taken(
        within(&converter, of, expected),
        &callee,
        parts.len(),
        Thing::Term(name),
    );
    let typed = patterns_at(alloc, known, vars, judged, argument_types(&callee), parts)?;
    converted(alloc, &converter, made_of(&callee, typed))
}

/// Patterns where these types are expected, beyond them none: their trees, if all have one.
#[cycle(patterns)]
pub fn patterns_at<'b, 'd>(
    alloc: Global,
    known: &Known,
    vars: &mut Variables<'b>,
    judged: &mut Judging<'_, 'b, 'd>,
    types: &[TypeId],
    patterns: &'b [AstPattern<'d>],
) -> Result<Option<Vec<Pattern>>, AllocError>
    ensures { IfOk result (λ found.
        ArePatternsAt (whole known.now) types.now (patterns_of (map pattern patterns.now)) vars.old
        vars.new judged.old.rows judged.new.rows found) }
{
    let mut typed = Vec::with_capacity(alloc, patterns.len())?;
    let mut complete = true;
    for (index, p) in patterns.iter().enumerate() {
        match pattern_at(alloc, known, vars, judged, types.get(index).copied(), p)? {
            Some(found) => typed.push(found)?,
            None => complete = false,
        }
    }
    Ok(if complete { Some(typed) } else { None })
}
