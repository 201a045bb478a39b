//! Declarations, external constructors, extractors, and rules, looked up by the numbers of their names.

ghost use Rattle.std.specs.Prelude.{◌≡◌, IfOk, length, map};
ghost use Rattle.isle_ast.specs.Views.{defs as seen};
ghost use Rattle.isle_declarations.specs.Symbols.{index_of, symbols, sym_of};
ghost use Rattle.isle_declarations.specs.DeclaredTypes.{made_of};
ghost use Rattle.isle_declarations.specs.Signatures.{signatures, externs, extractors, rule_defs};
ghost use Rattle.isle_declarations.specs.Heads.{terms_of, extern_terms, extractor_terms, heads_of};
ghost use Rattle.isle_declarations.specs.Collected.{known_by, AreSignatures, AreExterns, AreExtractors, AreRules};
ghost use Rattle.isle_declarations.specs.Tables.{IsFirstPlace, IsFuncNumber, IsExtractorKnown};

use crate::collected::{
    Definitions, Extern, Extracting, ExtractorDef, KnownExtractor, RuleDef, Signature,
};
use crate::first_places::{FirstPlaces, place_in};
use crate::interning::definitions;
use crate::tables::{declared_places, external_places, extracting_places, ruled_places};
use isle_ast::Def;
use isle_core::{List, Sym, Text};
use std::alloc::{AllocError, Global};
use std::marker::Model;

/// The declarations, external constructors, extractors, and rules of definitions, with the numbers of their names.
/// Contracts see the definitions.
#[derive(Drop)]
pub struct Declarations<'b, 'd> {
    defs: &'b [Def<'d>],
    given: Definitions<'b, 'd>,
    declared: FirstPlaces,
    external: FirstPlaces,
    extracting: FirstPlaces,
    ruled: FirstPlaces,
}

impl<'b, 'd> Model for Declarations<'b, 'd> {
    ghost use Rattle.std.specs.Prelude.{List};
    ghost use Rattle.std.specs.Coded.{codes};
    ghost use denote.Signature.{static_lft};
    ghost use Rattle.isle_ast.specs.contracts.tree.Def as d;
    ghost use Rattle.isle_ast.specs.declared.tree.Def.{Def};
    ghost use Rattle.isle_ast.specs.Views.{defs as seen};
    ghost use Rattle.isle_declarations.specs.Tables.{AreTables};

    ghost Value = { List Def };

    ghost coded = { Prim.hlevel (codes, (d.the_row static_lft).coded) };

    ghost view = { λ k. k.defs.now };

    ghost invariant = { λ k.
        AreTables (seen k.defs.now) k.given k.declared k.external k.extracting k.ruled };
}

// What is known of how an extractor takes values apart.
fn known_by(by: Extracting) -> KnownExtractor
    ensures { result ≡ known_by by.entry }
{
    match by {
        Extracting::Function {
            func_number,
            infallible,
            ..
        } => KnownExtractor::Function {
            number: func_number,
            infallible,
        },
        Extracting::Template { .. } => KnownExtractor::Template,
    }
}

impl<'b, 'd> Declarations<'b, 'd> {
    /// Gathers what is declared in definitions, whose types make these terms. The only error is want of memory.
    pub fn gather(
        alloc: Global,
        defs: &'b [Def<'d>],
        made: &'b [List<Text>],
    ) -> Result<Declarations<'b, 'd>, AllocError>
        requires { made.now ≡ map made_of (seen defs.now) }
        ensures { IfOk result (λ found. found ≡ defs.now) }
    {
        let given = definitions(alloc, defs, made)?;
        let declared = declared_places(alloc, &given)?;
        let external = external_places(alloc, &given)?;
        let extracting = extracting_places(alloc, &given)?;
        let ruled = ruled_places(alloc, &given)?;
        Ok(Declarations {
            defs,
            given,
            declared,
            external,
            extracting,
            ruled,
        })
    }

    /// Returns the definitions.
    pub fn defs(&self) -> &'b [Def<'d>]
        ensures { result.now ≡ self.now }
    {
        self.defs
    }

    /// Copies the symbols, in order.
    pub fn symbols(&self, alloc: Global) -> Result<Vec<Text>, AllocError>
        ensures { IfOk result (λ texts. texts.items ≡ symbols (seen self.now)) }
    {
        self.given.symbols.texts(alloc)
    }

    /// Returns how many symbols there are.
    pub fn count(&self) -> usize
        ensures { result ≡ length (symbols (seen self.now)) }
    {
        self.given.symbols.len()
    }

    /// Returns the number of a name, if it is a symbol.
    pub fn number(&self, name: &str) -> Option<usize>
        ensures { result ≡ index_of (symbols (seen self.now)) name.now }
    {
        self.given.symbols.find(name)
    }

    /// Returns the symbol of a name; of one that is none, the first.
    pub fn sym(&self, name: &str) -> Sym
        ensures { result ≡ sym_of (symbols (seen self.now)) name.now }
    {
        match self.number(name) {
            Some(number) => Sym(number),
            None => Sym(0),
        }
    }

    /// Returns the declarations, in order.
    pub fn signatures(&self) -> &[Signature<'b, 'd>]
        ensures { AreSignatures (seen self.now) result.now }
    {
        self.given.signatures.as_slice()
    }

    /// Returns the external constructors, in order.
    pub fn externs(&self) -> &[Extern<'b, 'd>]
        ensures { AreExterns (seen self.now) result.now }
    {
        self.given.externs.as_slice()
    }

    /// Returns the extractors, in order.
    pub fn extractors(&self) -> &[ExtractorDef<'b, 'd>]
        ensures { AreExtractors (seen self.now) result.now }
    {
        self.given.extractors.as_slice()
    }

    /// Returns the rules, in order.
    pub fn rules(&self) -> &[RuleDef<'b, 'd>]
        ensures { AreRules (seen self.now) result.now }
    {
        self.given.rules.as_slice()
    }

    /// Returns the place of the first declaration of the name of this number.
    pub fn declaration(&self, number: usize) -> Option<usize>
        ensures { IsFirstPlace (seen self.now) number (terms_of (signatures (seen self.now)))
            result }
    {
        place_in(self.declared.table.as_slice(), number)
    }

    /// Returns the place of the first external constructor of the term whose name has this number.
    pub fn external(&self, number: usize) -> Option<usize>
        ensures { IsFirstPlace (seen self.now) number (extern_terms (externs (seen self.now)))
            result }
    {
        place_in(self.external.table.as_slice(), number)
    }

    /// Returns the place of the first extractor of the term whose name has this number.
    pub fn extracting(&self, number: usize) -> Option<usize>
        ensures { IsFirstPlace (seen self.now) number (extractor_terms (extractors (seen self.now)))
            result }
    {
        place_in(self.extracting.table.as_slice(), number)
    }

    /// Returns the place of the first rule of the term whose name has this number.
    pub fn rule(&self, number: usize) -> Option<usize>
        ensures { IsFirstPlace (seen self.now) number (heads_of (rule_defs (seen self.now)))
            result }
    {
        place_in(self.ruled.table.as_slice(), number)
    }

    /// Returns the number of the function of the external constructor of the term whose name has this number.
    pub fn func(&self, number: usize) -> Option<usize>
        ensures { IsFuncNumber (seen self.now) number result }
    {
        let place = self.external(number)?;
        let found = self.given.externs.get(place)?;
        Some(found.func_number)
    }

    /// Returns what is known of the extractor of the term whose name has this number.
    pub fn extractor(&self, number: usize) -> Option<KnownExtractor>
        ensures { IsExtractorKnown (seen self.now) number result }
    {
        let place = self.extracting(number)?;
        let found = self.given.extractors.get(place)?;
        Some(known_by(found.by))
    }
}
