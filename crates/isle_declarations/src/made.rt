//! The terms that types make.

ghost use Rattle.std.specs.Prelude.{◌≡◌, ◌++◌, List, ℕ, IfOk, map};
ghost use Rattle.isle_ast.specs.Tree.{Def as PureDef};
ghost use Rattle.isle_ast.specs.Views.{def, defs as seen};
ghost use Rattle.isle_declarations.specs.DeclaredTypes.{variant_term, made_by, made_of};
ghost use Rattle.isle_ast.specs.declared.tree.AstVariant.{AstVariant as Variant};

use crate::declared_types::type_of;
use isle_ast::{AstBody, AstVariant, Def};
use isle_core::{List, Name, Text};
use std::alloc::{AllocError, Global};

// The name of the term that makes a variant.
fn variant_term(alloc: Global, name: &Name, variant: &Name) -> Result<Text, AllocError>
    ensures { IfOk result (λ term. term ≡ variant_term name.now variant.now) }
{
    let mut term = String::from_str(alloc, name.as_str())?;
    term.push_str(".")?;
    term.push_str(variant.as_str())?;
    Ok(Text::new(term))
}

// The terms that make the variants of an enum.
fn variant_terms(
    alloc: Global,
    name: &Name,
    variants: &[AstVariant],
) -> Result<Vec<Text>, AllocError>
    ensures { IfOk result (λ terms.
        terms.items ≡ map (λ (v : Variant). variant_term name.now v.name) variants.now) }
{
    let mut terms = Vec::with_capacity(alloc, variants.len())?;
    for variant in variants {
        terms.push(variant_term(alloc, name, &variant.name)?)?;
    }
    Ok(terms)
}

// The terms that a type makes.
fn made_by(alloc: Global, name: &Name, body: &AstBody) -> Result<Vec<Text>, AllocError>
    ensures { IfOk result (λ terms. terms.items ≡ made_by name.now body.now) }
{
    match body {
        AstBody::Primitive(_) => Ok(Vec::new(alloc)),
        AstBody::Enum(variants) => variant_terms(alloc, name, variants.as_slice()),
        AstBody::Struct(_) => Ok(vec![in alloc; Text::copied(alloc, name.as_str())?]?),
    }
}

// The terms that the type of a definition makes.
fn made_of<'b, 'd>(alloc: Global, given: &'b Def<'d>) -> Result<Vec<Text>, AllocError>
    ensures { IfOk result (λ terms. terms.items ≡ made_of (def given.now)) }
{
    match type_of(given) {
        Some((name, body)) => made_by(alloc, name, body),
        None => Ok(Vec::new(alloc)),
    }
}

/// Returns the terms that the types make, those of each definition apart.
pub fn made_each<'b, 'd>(alloc: Global, defs: &'b [Def<'d>]) -> Result<Vec<List<Text>>, AllocError>
    ensures { IfOk result (λ made. made.items ≡ map made_of (seen defs.now)) }
{
    let mut made = Vec::with_capacity(alloc, defs.len())?;
    for given in defs {
        made.push(List::new(made_of(alloc, given)?))?;
    }
    Ok(made)
}
