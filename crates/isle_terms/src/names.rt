//! What names mean in definitions, and whether an earlier definition is of the same term.

ghost use Rattle.std.specs.Prelude.{◌≡◌, ℕ, List, Some, is_some, take};
ghost use Rattle.isle_ast.specs.Views.{defs as seen};
ghost use Rattle.isle_declarations.specs.Heads.{terms_of, extern_terms, extractor_terms};
ghost use Rattle.isle_declarations.specs.Signatures.{signatures, externs, extractors};
ghost use Rattle.isle_declarations.specs.Symbols.{index_of, symbols};
ghost use Rattle.isle_terms.specs.Misfits.{IsDeclared};

use isle_core::Name;
use isle_declarations::{Declarations, Signature, Terms};
use isle_types::Before;

/// What the definitions declare, with their types and terms.
#[derive(Clone, Copy)]
pub struct Names<'k, 'b, 'd> {
    pub declarations: &'k Declarations<'b, 'd>,
    pub before: &'k Before<'b>,
    pub terms: &'k Terms<'b, 'd>,
}

// Whether the place is one of the first of so many.
fn is_before(place: Option<usize>, count: usize) -> bool
    ensures { (names : List (List ℕ)) (name : List ℕ) → place ≡ index_of names name
        → result ≡ is_some (index_of (take count names) name) }
{
    match place {
        Some(place) => place < count,
        None => false,
    }
}

impl<'k, 'b, 'd> Names<'k, 'b, 'd> {
    /// Returns the declaration of a term, if it is declared.
    pub fn declared(&self, term: &Name) -> Option<&'k Signature<'b, 'd>>
        ensures { IsDeclared (seen self.now.declarations.now) term.now result }
    {
        let number = self.declarations.number(term.as_str())?;
        let place = self.declarations.declaration(number)?;
        self.declarations.signatures().get(place)
    }

    /// Tells whether one of the first so many declarations is of the term.
    pub fn is_declared_before(&self, term: &Name, count: usize) -> bool
        ensures { result
            ≡ is_some (index_of
            (take count (terms_of (signatures (seen self.now.declarations.now)))) term.now) }
    {
        match self.declarations.number(term.as_str()) {
            Some(number) => is_before(self.declarations.declaration(number), count),
            None => false,
        }
    }

    /// Tells whether one of the first so many external constructors is of the term whose name has this number.
    pub fn is_external_before(&self, number: usize, count: usize) -> bool
        ensures { (name : List ℕ)
            → index_of (symbols (seen self.now.declarations.now)) name ≡ Some number
            → result ≡ is_some
            (index_of (take count (extern_terms (externs (seen self.now.declarations.now)))) name) }
    {
        is_before(self.declarations.external(number), count)
    }

    /// Tells whether one of the first so many extractors is of the term whose name has this number.
    pub fn is_extracted_before(&self, number: usize, count: usize) -> bool
        ensures { (name : List ℕ)
            → index_of (symbols (seen self.now.declarations.now)) name ≡ Some number
            → result ≡ is_some
            (index_of (take count (extractor_terms (extractors (seen self.now.declarations.now))))
            name) }
    {
        is_before(self.declarations.extracting(number), count)
    }
}
