//! Converters, found by the types that they stand between.

ghost use Rattle.std.specs.Prelude.{◌≡◌, List, [], OnOk};
ghost use Rattle.isle_ast.specs.Tree.{Def as PureDef};
ghost use Rattle.isle_ast.specs.Views.{defs as seen_defs};
ghost use Rattle.isle_declarations.specs.Collected.{signature as seen_signature};
ghost use Rattle.isle_declarations.specs.TermViews.{AreTerms};
ghost use Rattle.isle_types.specs.Gathered.{IsBefore};
ghost use Rattle.isle_terms.specs.Converters.{Conversion as PureConversion, converter_between, fits, types_of};
ghost use Rattle.isle_terms.specs.ConverterViews.{seen, AreFound, IsNumberOf, IsJoined, IsKnown};

use crate::named_types::type_named;
use isle_core::{Name, TermId, TypeId};
use isle_declarations::{Declarations, Signature, Terms};
use isle_types::Before;
use std::alloc::{AllocError, Global};
use std::collections::BTreeMap;

// A converter: the names of the types that it stands between, and of its term.
#[derive(Clone, Copy)]
pub struct Conversion<'b, 'd> {
    pub from: &'b Name<'d>,
    pub to: &'b Name<'d>,
    pub term: &'b Name<'d>,
}

// What is known of a converter: its types, and its term by the number of its name and by its own.
#[derive(Clone, Copy)]
pub struct Converter {
    pub from: TypeId,
    pub to: TypeId,
    pub number: usize,
    pub term: TermId,
}

/// Converters in order, each with its types and its term; by its types the number of its term's name is found.
#[derive(Drop)]
pub struct Converters {
    pub listed: Vec<(TypeId, TypeId, TermId)>,
    pub numbers: BTreeMap<(usize, usize), usize>,
}

// Whether a term takes exactly the one type, and gives the other.
fn fits(given: Conversion, signature: &Signature) -> bool
    ensures { result ≡ fits (seen given.entry) (seen_signature signature.now) }
{
    match signature.args {
        [only] => {
            only.as_str() == given.from.as_str() && signature.ret.as_str() == given.to.as_str()
        }
        _ => false,
    }
}

// The types that a converter stands between, if both are declared.
fn types_of(before: &Before, given: Conversion) -> Option<(TypeId, TypeId)>
    ensures { (defs : List PureDef) → IsBefore defs before.now
        → result ≡ types_of defs (seen given.entry) }
{
    let from = type_named(before, given.from)?;
    let to = type_named(before, given.to)?;
    Some((from, to))
}

impl Converters {
    /// Begins without any.
    pub(crate) fn new(alloc: Global) -> Converters
        ensures listed { result.listed.items ≡ [] }
        ensures finds { (defs : List PureDef) → AreFound defs [] result }
    {
        Converters {
            listed: Vec::new(alloc),
            numbers: BTreeMap::new(alloc),
        }
    }

    /// Returns the number of the name of the term that makes a value of one type from a value of the other.
    pub fn between(&self, from: TypeId, to: TypeId) -> Option<usize>
        ensures { (defs : List PureDef) (cs : List PureConversion) → AreFound defs cs self.now
            → IsNumberOf defs (converter_between defs cs from to) result }
    {
        self.numbers.get(&(from.index(), to.index())).copied()
    }

    /// Returns what is known of a converter that follows these: nothing if it is wrong.
    pub(crate) fn known(
        &self,
        declarations: &Declarations,
        before: &Before,
        terms: &Terms,
        given: Conversion,
    ) -> Option<Converter>
        requires before { IsBefore (seen_defs declarations.now) before.now }
        requires terms { AreTerms (seen_defs declarations.now) terms.now }
        ensures { (cs : List PureConversion) → AreFound (seen_defs declarations.now) cs self.now
            → IsKnown (seen_defs declarations.now) cs (seen given.entry) result }
    {
        let (from, to) = types_of(before, given)?;
        if self.between(from, to).is_some() {
            return None;
        }
        let number = declarations.number(given.term.as_str())?;
        let place = declarations.declaration(number)?;
        let signature = declarations.signatures().get(place)?;
        if !fits(given, signature) {
            return None;
        }
        let term = TermId(terms.place(number)?);
        Some(Converter {
            from,
            to,
            number,
            term,
        })
    }

    /// Adds a converter. The only error is want of memory.
    pub(crate) fn add(&mut self, given: Converter) -> Result<(), AllocError>
        ensures { OnOk result (IsJoined self.old given self.new) }
    {
        self.listed.push((given.from, given.to, given.term))?;
        self.numbers
            .insert((given.from.index(), given.to.index()), given.number)?;
        Ok(())
    }
}
