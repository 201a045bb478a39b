//! The terms that names call.

ghost use Rattle.std.specs.Prelude.{◌≡◌, ℕ, List, Option, Some, map};
ghost use Rattle.isle_declarations.specs.Signatures.{Signature};
ghost use Rattle.isle_ast.specs.Views.{defs as seen};
ghost use Rattle.isle_declarations.specs.Symbols.{index_of, symbols, sym_of};
ghost use Rattle.isle_terms.specs.Whole.{Whole, termed, arg_types, ret_type, constant_type};
ghost use Rattle.isle_terms.specs.Converters.{conversion, within};
ghost use Rattle.isle_terms.specs.Whole.{whole};
ghost use Rattle.isle_sema.specs.Known.{MayBeCalled};

use isle_core::{Name, Sym, Term, TermId, TypeEnv, TypeId};
use isle_declarations::{Declarations, KnownExtractor, Origin, Terms};
use isle_terms::Converters;
use isle_types::Before;
use std::marker::Model;

/// A term: its number, the types of its arguments and of its result, its flags, whether a type makes it, and whether it
/// has an external constructor, an extractor, a template and a rule.
#[derive(Clone, Copy)]
pub struct Called<'s> {
    pub term: TermId,
    pub args: &'s [TypeId],
    pub ret: TypeId,
    pub pure: bool,
    pub multi: bool,
    pub partial: bool,
    pub made: bool,
    pub external: bool,
    pub extracting: bool,
    pub templated: bool,
    pub ruled: bool,
}

/// Definitions whose types, constants and terms have no fault, with what they declare. Contracts see the definitions.
#[derive(Drop)]
pub struct Known<'s, 'b, 'd> {
    pub declarations: &'s Declarations<'b, 'd>,
    pub before: &'s Before<'b>,
    pub types: &'s TypeEnv,
    pub terms: &'s Terms<'b, 'd>,
    pub typed: &'s [Term],
    pub converters: &'s Converters,
}

impl<'s, 'b, 'd> Model for Known<'s, 'b, 'd> {
    ghost use Rattle.std.specs.Prelude.{List};
    ghost use Rattle.std.specs.Coded.{codes};
    ghost use denote.Signature.{static_lft};
    ghost use Rattle.isle_ast.specs.contracts.tree.Def as d;
    ghost use Rattle.isle_ast.specs.declared.tree.Def.{Def};
    ghost use Rattle.isle_sema.specs.KnownOf.{AreKnown};

    ghost Value = { List Def };

    ghost coded = { Prim.hlevel (codes, (d.the_row static_lft).coded) };

    ghost view = { λ k. k.declarations.now };

    ghost invariant = { λ k. AreKnown k.declarations.now k.before.now
        k.types.now k.terms.now k.typed.now k.converters.now };
}

/// Returns the types of a term's arguments: of a term that is not there, none.
pub fn argument_types<'s>(callee: &Option<Called<'s>>) -> &'s [TypeId]
    ensures { (w : Whole) (s : Option Signature) → MayBeCalled w s callee.now
        → arg_types w s ≡ map Some result.now }
{
    match callee {
        Some(callee) => callee.args,
        None => &[],
    }
}

impl<'s, 'b, 'd> Known<'s, 'b, 'd> {
    /// Returns the types and constants.
    pub fn types(&self) -> &'s TypeEnv
        ensures { result.now ≡ (whole self.now).types }
    {
        self.types
    }

    /// Returns the type of a constant, if it is declared.
    pub fn constant(&self, name: &Name) -> Option<TypeId>
        ensures { result ≡ constant_type (whole self.now) name.now }
    {
        let place = self.before.constants.find(name.as_str())?;
        let constant = self.types.consts.as_slice().get(place)?;
        Some(constant.1)
    }

    /// Returns the symbol of a name.
    pub fn sym(&self, name: &Name) -> Sym
        ensures { result ≡ sym_of (whole self.now).types.syms name.now }
    {
        self.declarations.sym(name.as_str())
    }

    /// Returns the term of the name of this number.
    pub fn at(&self, number: usize) -> Option<Called<'s>>
        ensures { (name : List ℕ) → index_of (symbols (seen self.now)) name ≡ Some number
            → MayBeCalled (whole self.now) (termed (whole self.now) name) result }
    {
        let place = self.terms.place(number)?;
        let term = self.typed.get(place)?;
        let given = self.terms.terms.as_slice().get(place)?;
        let made = match given.origin {
            Origin::Declared => false,
            Origin::Variant(_) | Origin::Struct => true,
        };
        let templated = match self.declarations.extractor(number) {
            Some(KnownExtractor::Template) => true,
            Some(KnownExtractor::Function { .. }) | None => false,
        };
        Some(Called {
            term: TermId(place),
            args: term.arg_tys.as_slice(),
            ret: term.ret_ty,
            pure: given.pure,
            multi: given.multi,
            partial: given.partial,
            made,
            external: self.declarations.external(number).is_some(),
            extracting: self.declarations.extracting(number).is_some(),
            templated,
            ruled: self.declarations.rule(number).is_some(),
        })
    }

    /// Returns the term of a name.
    pub fn called(&self, name: &Name) -> Option<Called<'s>>
        ensures { MayBeCalled (whole self.now) (termed (whole self.now) name.now) result }
    {
        match self.declarations.number(name.as_str()) {
            Some(number) => self.at(number),
            None => None,
        }
    }

    /// Returns the term of the converter that makes what is expected of another type, if there is one.
    pub fn conversion(&self, of: Option<TypeId>, expected: Option<TypeId>) -> Option<Called<'s>>
        ensures { MayBeCalled (whole self.now) (conversion (whole self.now) of expected) result }
    {
        let of = of?;
        let expected = expected?;
        if of.index() == expected.index() {
            return None;
        }
        let number = self.converters.between(of, expected)?;
        self.at(number)
    }
}

/// Returns the type that a term gives: of a term that is not there, none.
pub fn result_type(callee: &Option<Called>) -> Option<TypeId>
    ensures { (w : Whole) (s : Option Signature) → MayBeCalled w s callee.now
        → result ≡ ret_type w s }
{
    match callee {
        Some(callee) => Some(callee.ret),
        None => None,
    }
}

/// Returns what is expected within a converter, if there is one: the other type.
pub fn within(
    converter: &Option<Called>,
    of: Option<TypeId>,
    expected: Option<TypeId>,
) -> Option<TypeId>
    ensures { (w : Whole) (s : Option Signature) → MayBeCalled w s converter.now
        → result ≡ within s of expected }
{
    match converter {
        Some(_) => of,
        None => expected,
    }
}
