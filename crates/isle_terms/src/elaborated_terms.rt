//! Terms with types in them, their names as symbols.

ghost use Rattle.std.specs.Prelude.{◌≡◌, ℕ, List, Some, true, is_some, IfOk, option_map};
ghost use Rattle.isle_ast.specs.Views.{defs};
ghost use Rattle.isle_declarations.specs.TermViews.{term_def as seen, AreTerms};
ghost use Rattle.isle_declarations.specs.Symbols.{index_of, symbols};
ghost use Rattle.isle_declarations.specs.Terms.{terms as all_terms};
ghost use Rattle.isle_types.specs.Gathered.{IsBefore};
ghost use Rattle.isle_terms.specs.TermPass.{constructor_named, extracting_named, kind_from, term_pass, terms_pass};
ghost use Rattle.isle_terms.specs.Whole.{whole};

use crate::named_types::{type_named, types_of};
use isle_core::{ConstructorKind, ExtractorKind, List, Sym, Term, TermKind, TypeId, VariantId};
use isle_declarations::{Declarations, KnownExtractor, Origin, TermDef, Terms};
use isle_types::Before;
use std::alloc::{AllocError, Global};

// A term comes from its external constructor, or else from its rules, if it has some.
fn constructor_of(declarations: &Declarations, number: usize) -> ConstructorKind
    ensures { (name : List ℕ) → index_of (symbols (defs declarations.now)) name ≡ Some number
        → result ≡ constructor_named (whole declarations.now) name }
{
    match declarations.func(number) {
        Some(func) => ConstructorKind::External { func: Sym(func) },
        None => {
            if declarations.rule(number).is_some() {
                ConstructorKind::Internal
            } else {
                ConstructorKind::Absent
            }
        }
    }
}

// A term is taken apart by its extractor, if it has one.
fn extractor_of(declarations: &Declarations, number: usize) -> ExtractorKind
    ensures { (name : List ℕ) → index_of (symbols (defs declarations.now)) name ≡ Some number
        → result ≡ extracting_named (whole declarations.now) name }
{
    match declarations.extractor(number) {
        Some(KnownExtractor::Function { number, infallible }) => ExtractorKind::External {
            func: Sym(number),
            infallible,
        },
        Some(KnownExtractor::Template) => ExtractorKind::Internal,
        None => ExtractorKind::Absent,
    }
}

// What a term is that gives this type, if its name has this number.
fn kind_of(declarations: &Declarations, number: usize, given: &TermDef, ret: TypeId) -> TermKind
    requires { index_of (symbols (defs declarations.now)) given.now.term.now ≡ Some number }
    ensures { result ≡ kind_from (whole declarations.now) (seen given.now) ret given.now.origin }
{
    match given.origin {
        Origin::Declared => TermKind::Decl {
            pure: given.pure,
            multi: given.multi,
            partial: given.partial,
            recursive: given.recursive,
            constructor: constructor_of(declarations, number),
            extractor: extractor_of(declarations, number),
        },
        Origin::Variant(variant) => TermKind::Variant {
            ty: ret,
            variant: VariantId(variant),
        },
        Origin::Struct => TermKind::Struct { ty: ret },
    }
}

// The term, if its types are declared.
fn term_of(
    alloc: Global,
    declarations: &Declarations,
    before: &Before,
    given: &TermDef,
) -> Result<Option<Term>, AllocError>
    requires before { IsBefore (defs declarations.now) before.now }
    requires named { is_some (index_of (symbols (defs declarations.now)) given.now.term.now)
        ≡ true }
    ensures { IfOk result (λ term. term ≡ term_pass (whole declarations.now) (seen given.now)) }
{
    let Some(number) = declarations.number(given.term) else {
        return Ok(None);
    };
    let Some(args) = types_of(alloc, before, given.args)? else {
        return Ok(None);
    };
    let Some(ret) = type_named(before, given.ret) else {
        return Ok(None);
    };
    Ok(Some(Term {
        name: Sym(number),
        decl_pos: given.pos,
        arg_tys: List::new(args),
        ret_ty: ret,
        kind: kind_of(declarations, number, given, ret),
    }))
}

/// Returns the terms, in order, where their types are declared.
pub fn terms_of(
    alloc: Global,
    declarations: &Declarations,
    before: &Before,
    terms: &Terms,
) -> Result<Option<Vec<Term>>, AllocError>
    requires before { IsBefore (defs declarations.now) before.now }
    requires terms { AreTerms (defs declarations.now) terms.now }
    ensures { IfOk result (λ found.
        option_map (λ ts. ts.items) found
        ≡ terms_pass (whole declarations.now) (all_terms (defs declarations.now))) }
{
    let mut found = Vec::with_capacity(alloc, terms.terms.len())?;
    for given in terms.terms.as_slice() {
        match term_of(alloc, declarations, before, given)? {
            Some(term) => found.push(term)?,
            None => return Ok(None),
        }
    }
    Ok(Some(found))
}
