//! Names, numbered where they are met first.

ghost use Rattle.std.specs.Prelude.{◌≡◌, ◌<◌, Some, [], IfOk, IfSome, OnOk, OnErr, length};
ghost use Rattle.isle_declarations.specs.LookedUp.{texts};
ghost use Rattle.isle_declarations.specs.Symbols.{index_of, added};

use crate::hashing::hash_of;
use crate::slots::{FEW, Slots};
use isle_core::Text;
use std::alloc::{AllocError, Global};
use std::marker::Model;

/// The names of definitions by their first places, each once. Contracts see them as their list.
#[derive(Drop)]
pub struct Symbols<'d> {
    names: Vec<&'d str>,
    slots: Slots<'d>,
}

impl<'d> Model for Symbols<'d> {
    ghost use Rattle.std.specs.Prelude.{List, ℕ};
    ghost use Rattle.isle_declarations.specs.LookedUp.{texts};
    ghost use Rattle.isle_declarations.specs.Slots.{IsTable};

    ghost Value = { List (List ℕ) };

    ghost view = { λ s. texts s.names.items };

    ghost invariant = { λ s. IsTable (texts s.names.items) s.slots.places.items s.slots.overflow };
}

impl<'d> Symbols<'d> {
    /// Makes a table without names.
    pub fn new(alloc: Global) -> Symbols<'d>
        ensures { result ≡ [] }
    {
        Symbols {
            names: Vec::new(alloc),
            slots: Slots::new(alloc),
        }
    }

    /// Returns how many names there are.
    pub fn len(&self) -> usize
        ensures { result ≡ length self.now }
    {
        self.names.len()
    }

    /// Returns the number of a name, the next one if it is met first. The only error is want of memory.
    pub fn intern(&mut self, name: &'d str) -> Result<usize, AllocError>
        ensures place { IfOk result (λ place. index_of self.new name.now ≡ Some place) }
        ensures names { OnOk result (self.new ≡ added self.old name.now) }
        ensures err { OnErr result (self.new ≡ self.old) }
    {
        if let Some(place) = self.find(name) {
            return Ok(place);
        }
        let place = self.names.len();
        if place < FEW {
            self.names.push(name)?;
            return Ok(place);
        }
        self.slots.make_room(self.names.as_slice())?;
        self.names.push(name)?;
        match self.slots.add(place, name, hash_of(name)) {
            Ok(()) => return Ok(place),
            Err(_) => {
                self.names.pop();
                return Err(AllocError);
            }
        }
    }

    /// Returns the number of a name, if it is there.
    pub fn find(&self, name: &str) -> Option<usize>
        ensures { result ≡ index_of self.now name.now }
    {
        let names = self.names.as_slice();
        if names.len() <= FEW {
            return place_among(names, name);
        }
        self.slots.find(names, name, hash_of(name))
    }

    /// Copies of the names, in order.
    pub fn texts(&self, alloc: Global) -> Result<Vec<Text>, AllocError>
        ensures { IfOk result (λ copies. copies.items ≡ self.now) }
    {
        copies(alloc, self.names.as_slice())
    }
}

// The first place of a name among a few.
#[tactic(auto, using(crate::proofs::SymbolLaws::index_below))]
fn place_among(names: &[&str], name: &str) -> Option<usize>
    ensures place { result ≡ index_of (texts names.now) name.now }
    ensures within { IfSome result (λ place. place < length names.now) }
{
    match names {
        [] => None,
        [first, more @ ..] => {
            if *first == name {
                return Some(0);
            }
            match place_among(more, name) {
                Some(place) => Some(place + 1),
                None => None,
            }
        }
    }
}

// Copies of texts.
fn copies(alloc: Global, names: &[&str]) -> Result<Vec<Text>, AllocError>
    ensures { IfOk result (λ copies. copies.items ≡ texts names.now) }
{
    let mut copies = Vec::with_capacity(alloc, names.len())?;
    for name in names {
        copies.push(Text::new(String::from_str(alloc, name)?))?;
    }
    Ok(copies)
}
