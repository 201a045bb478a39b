//! The variables of an expression, as `let`s bind them and go out of scope.

ghost use Rattle.std.specs.Prelude.{◌≡◌, ◌++◌, [], ◌∷◌, suc, length, take, option_map, IfOk, OnOk};
ghost use Rattle.isle_terms.specs.Locals.{local_named, bound_local, locals_of};

use crate::variables::{Variables, is_blank};
use isle_core::{Name, TypeId};
use isle_declarations::Symbols;
use isle_scope::Scope;
use std::alloc::{AllocError, Global};
use std::marker::Model;

/// A variable of a `let`: its type, if it is declared, and its number.
#[derive(Drop)]
pub struct LetVariable<'b, 'd> {
    pub name: &'b Name<'d>,
    pub ty: Option<TypeId>,
    pub number: usize,
}

/// The variables of patterns and of `let`s; what is bound last counts. Names of `let`s are numbered where they are met
/// first, and the scope has those numbers.
#[derive(Drop)]
pub struct Locals<'v, 'b, 'd> {
    patterns: &'v Variables<'b>,
    names: Symbols<'b>,
    scope: Scope,
    lets: Vec<LetVariable<'b, 'd>>,
    next: usize,
}

impl<'v, 'b, 'd> Model for Locals<'v, 'b, 'd> {
    ghost use Rattle.std.specs.Prelude.{map};
    ghost use Rattle.isle_declarations.specs.Numbered.{AreNumbered};
    ghost use Rattle.isle_terms.specs.Locals.{Bound};
    ghost use Rattle.isle_terms.specs.LocalViews.{local, name_of, coded_bound};

    ghost Value = { Bound };

    ghost coded = { coded_bound };

    ghost view = { λ v.
        record { patterns = v.patterns.now; lets = map local v.lets.items; next = v.next } };

    ghost invariant = { λ v. AreNumbered v.names (map name_of v.lets.items) v.scope };
}

impl<'v, 'b, 'd> Locals<'v, 'b, 'd> {
    /// Begins with the variables of patterns, and with this number.
    pub fn new(alloc: Global, patterns: &'v Variables<'b>, next: usize) -> Locals<'v, 'b, 'd>
        ensures { result ≡ record { patterns = patterns.now; lets = []; next = next } }
    {
        Locals {
            patterns,
            names: Symbols::new(alloc),
            scope: Scope::new(alloc),
            lets: Vec::new(alloc),
            next,
        }
    }

    // The variable of a `let` of this name, if it is in scope.
    fn of_let(&self, name: &Name) -> Option<(Option<TypeId>, usize)>
        ensures { result ≡ option_map (λ l. (l.ty, l.number)) (local_named self.now.lets name.now) }
    {
        let place = self.scope.place(self.names.find(name.as_str())?)?;
        let found = self.lets.get(place)?;
        Some((found.ty, found.number))
    }

    /// Returns the type that a variable was bound at and its number, if it is in scope.
    pub fn find(&self, name: &Name) -> Option<(Option<TypeId>, usize)>
        ensures { result
            ≡ option_map (λ l. (l.ty, l.number)) (local_named (locals_of self.now) name.now) }
    {
        match self.of_let(name) {
            Some(found) => Some(found),
            None => self.patterns.find(name),
        }
    }

    /// Returns how many variables of `let`s are in scope.
    pub fn len(&self) -> usize
        ensures { result ≡ length self.now.lets }
    {
        self.lets.len()
    }

    /// Returns the next number.
    pub fn next(&self) -> usize
        ensures { result ≡ self.now.next }
    {
        self.next
    }

    /// Takes the next number. The only error is that there are no more.
    pub fn number(&mut self) -> Result<usize, AllocError>
        ensures number { IfOk result (λ number. number ≡ self.old.next) }
        ensures next { OnOk result
            (self.new ≡ record {
              patterns = self.old.patterns;
              lets = self.old.lets;
              next = suc self.old.next;
            }) }
    {
        let number = self.next;
        match number.checked_add(1) {
            Some(next) => {
                self.next = next;
                Ok(number)
            }
            None => Err(AllocError),
        }
    }

    /// Binds a variable of a `let`; `_` names none.
    pub fn bind(
        &mut self,
        name: &'b Name<'d>,
        ty: Option<TypeId>,
        number: usize,
    ) -> Result<(), AllocError>
        ensures { OnOk result
            (self.new ≡ record {
              patterns = self.old.patterns;
              lets = bound_local self.old.lets name.now ty number;
              next = self.old.next;
            }) }
    {
        if is_blank(name) {
            return Ok(());
        }
        let place = self.names.intern(name.as_str())?;
        self.lets.push(LetVariable { name, ty, number })?;
        match self.scope.bind(place) {
            Ok(()) => Ok(()),
            Err(_) => {
                self.lets.pop();
                Err(AllocError)
            }
        }
    }

    /// Leaves only the variables of `let`s that were bound first, as many as `len`.
    pub fn truncate(&mut self, len: usize)
        ensures { self.new
            ≡ record {
              patterns = self.old.patterns;
              lets = take len self.old.lets;
              next = self.old.next;
            } }
    {
        self.scope.truncate(len);
        self.lets.truncate(len);
    }
}
