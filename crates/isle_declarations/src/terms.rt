//! The terms of definitions: those that are declared, and those that types make.

ghost use Rattle.std.specs.Prelude.{◌≡◌, ◌++◌, [], List, IfOk, OnOk, map};
ghost use Rattle.isle_ast.specs.Tree.{Def as PureDef};
ghost use Rattle.isle_ast.specs.Views.{def, defs as seen};
ghost use Rattle.isle_declarations.specs.DeclaredTypes.{variant_term, made_by, made_of, field_types};
ghost use Rattle.isle_declarations.specs.Symbols.{index_of, number_or, symbols};
ghost use Rattle.isle_declarations.specs.Heads.{terms_of};
ghost use Rattle.isle_declarations.specs.Tables.{HasFirsts, IsFirstPlace};
ghost use Rattle.isle_declarations.specs.Terms.{made_signature, variant_signatures, body_signatures};
ghost use Rattle.isle_declarations.specs.Terms.{terms_by, terms as all_terms};
ghost use Rattle.isle_declarations.specs.TermViews.{arg_types, term_def, AreTerms};
ghost use Rattle.isle_ast.specs.declared.tree.AstVariant.{AstVariant as Variant};

use crate::declarations::Declarations;
use crate::first_places::{FirstPlaces, first_places, place_in};
use isle_ast::{AstBody, AstFields, AstVariant, Def};
use isle_core::{List, Name, Pos, Text};
use std::alloc::{AllocError, Global};

/// What gives a term: a declaration, the variant of that number, or a struct.
#[derive(Clone, Copy)]
pub enum Origin {
    Declared,
    Variant(usize),
    Struct,
}

/// The names of the types of a term's arguments: by themselves, or each after the name of a field.
#[derive(Clone, Copy)]
pub enum ArgTypes<'b, 'd> {
    Plain(&'b [Name<'d>]),
    Named(&'b [(Name<'d>, Name<'d>)]),
}

/// A term, and what gives it.
#[derive(Clone, Copy)]
pub struct TermDef<'b, 'd> {
    pub term: &'b str,
    pub pure: bool,
    pub multi: bool,
    pub partial: bool,
    pub recursive: bool,
    pub args: ArgTypes<'b, 'd>,
    pub ret: &'b Name<'d>,
    pub pos: Pos,
    pub origin: Origin,
}

/// Terms in order, and the first place of each name, by its number.
#[derive(Drop)]
pub struct Terms<'b, 'd> {
    pub terms: Vec<TermDef<'b, 'd>>,
    pub places: FirstPlaces,
}

// No names.
fn no_names<'b, 'd>() -> &'b [Name<'d>]
    ensures { result.now ≡ [] }
{
    &[]
}

// The types of fields.
fn field_types<'b, 'd>(fields: &'b AstFields<'d>) -> ArgTypes<'b, 'd>
    ensures { arg_types result ≡ field_types fields.now }
{
    match fields {
        AstFields::Unit => ArgTypes::Plain(no_names()),
        AstFields::Named(fields) => ArgTypes::Named(fields.as_slice()),
        AstFields::Tuple(types) => ArgTypes::Plain(types.as_slice()),
    }
}

// The term of this name that a variant or a struct makes.
fn made_term<'b, 'd>(
    term: &'b str,
    ty: &'b Name<'d>,
    fields: &'b AstFields<'d>,
    origin: Origin,
    pos: Pos,
) -> TermDef<'b, 'd>
    ensures { term_def result ≡ made_signature term.now ty.now fields.now origin pos }
{
    TermDef {
        term,
        pure: true,
        multi: false,
        partial: false,
        recursive: false,
        args: field_types(fields),
        ret: ty,
        pos,
        origin,
    }
}

// The terms that variants make, whose names are given.
fn push_variants<'b, 'd>(
    terms: &mut Vec<TermDef<'b, 'd>>,
    ty: &'b Name<'d>,
    pos: Pos,
    variants: &'b [AstVariant<'d>],
    names: &'b [Text],
) -> Result<(), AllocError>
    requires { names.now ≡ map (λ (v : Variant). variant_term ty.now v.name) variants.now }
    ensures { OnOk result
        (map term_def terms.new.items
        ≡ map term_def terms.old.items ++ variant_signatures ty.now pos 0 variants.now) }
{
    for (index, variant) in variants.iter().enumerate() {
        let term = names[index].as_str();
        terms.push(made_term(term, ty, &variant.fields, Origin::Variant(index), pos))?;
    }
    Ok(())
}

// The terms that a type makes, whose names are given.
fn push_made<'b, 'd>(
    terms: &mut Vec<TermDef<'b, 'd>>,
    ty: &'b Name<'d>,
    body: &'b AstBody<'d>,
    pos: Pos,
    names: &'b [Text],
) -> Result<(), AllocError>
    requires { names.now ≡ made_by ty.now body.now }
    ensures { OnOk result
        (map term_def terms.new.items
        ≡ map term_def terms.old.items ++ body_signatures ty.now body.now pos) }
{
    match body {
        AstBody::Primitive(_) => Ok(()),
        AstBody::Enum(variants) => push_variants(terms, ty, pos, variants.as_slice(), names),
        AstBody::Struct(fields) => {
            terms.push(made_term(ty.as_str(), ty, fields, Origin::Struct, pos))?;
            Ok(())
        }
    }
}

// The terms that a definition gives, if the names of those that its type makes are given.
fn push_terms<'b, 'd>(
    terms: &mut Vec<TermDef<'b, 'd>>,
    given: &'b Def<'d>,
    names: &'b [Text],
) -> Result<(), AllocError>
    requires { names.now ≡ made_of (def given.now) }
    ensures { OnOk result
        (map term_def terms.new.items ≡ map term_def terms.old.items ++ terms_by (def given.now)) }
{
    match given {
        Def::TypeDecl {
            name,
            body,
            pos,
            ..
        } => push_made(terms, name, body, *pos, names),
        Def::Decl {
            term,
            pure,
            multi,
            partial,
            recursive,
            args,
            ret,
            pos,
        } => {
            terms.push(TermDef {
                term: term.as_str(),
                pure: *pure,
                multi: *multi,
                partial: *partial,
                recursive: *recursive,
                args: ArgTypes::Plain(args.as_slice()),
                ret,
                pos: *pos,
                origin: Origin::Declared,
            })?;
            Ok(())
        }
        Def::ExternConstructor { .. } => Ok(()),
        Def::ExternExtractor { .. } => Ok(()),
        Def::ExternConst { .. } => Ok(()),
        Def::Extractor { .. } => Ok(()),
        Def::Converter { .. } => Ok(()),
        Def::Rule { .. } => Ok(()),
        Def::Passed { .. } => Ok(()),
    }
}

// The terms of definitions, if the names of those that types make are given.
fn gathered<'b, 'd>(
    alloc: Global,
    defs: &'b [Def<'d>],
    made: &'b [List<Text>],
) -> Result<Vec<TermDef<'b, 'd>>, AllocError>
    requires { made.now ≡ map made_of (seen defs.now) }
    ensures { IfOk result (λ found. map term_def found.items ≡ all_terms (seen defs.now)) }
{
    let mut found = Vec::new(alloc);
    for (index, given) in defs.iter().enumerate() {
        push_terms(&mut found, given, made[index].as_slice())?;
    }
    Ok(found)
}

// The numbers of the names of terms.
fn numbers_of(
    alloc: Global,
    declarations: &Declarations,
    terms: &[TermDef],
) -> Result<Vec<usize>, AllocError>
    ensures { IfOk result (λ numbers.
        numbers.items
        ≡ map (λ t. number_or (index_of (symbols (seen declarations.now)) t.term.now)) terms.now) }
{
    let mut numbers = Vec::with_capacity(alloc, terms.len())?;
    for term in terms {
        numbers.push(declarations.sym(term.term).index())?;
    }
    Ok(numbers)
}

// The first places of names, by their numbers.
fn places_of(
    alloc: Global,
    declarations: &Declarations,
    terms: &[TermDef],
) -> Result<FirstPlaces, AllocError>
    requires { map term_def terms.now ≡ all_terms (seen declarations.now) }
    ensures { IfOk result (λ found.
        HasFirsts (symbols (seen declarations.now)) (terms_of (all_terms (seen declarations.now)))
        found) }
{
    let numbers = numbers_of(alloc, declarations, terms)?;
    first_places(alloc, declarations.count(), numbers.as_slice())
}

/// Gathers the terms of definitions, whose types make these. The only error is want of memory.
pub fn terms_of<'b, 'd>(
    alloc: Global,
    declarations: &Declarations<'b, 'd>,
    made: &'b [List<Text>],
) -> Result<Terms<'b, 'd>, AllocError>
    requires { made.now ≡ map made_of (seen declarations.now) }
    ensures { IfOk result (λ found. AreTerms (seen declarations.now) found) }
{
    let terms = gathered(alloc, declarations.defs(), made)?;
    let places = places_of(alloc, declarations, terms.as_slice())?;
    Ok(Terms { terms, places })
}

impl<'b, 'd> Terms<'b, 'd> {
    /// Returns the place of the first term of the name of this number.
    pub fn place(&self, number: usize) -> Option<usize>
        ensures { (defs : List PureDef) → AreTerms defs self.now
            → IsFirstPlace defs number (terms_of (all_terms defs)) result }
    {
        place_in(self.places.table.as_slice(), number)
    }
}
