//! What locals hold, as they are bound and go out of scope.

ghost use Rattle.std.specs.Prelude.{◌≡◌, ◌++◌, [], ◌∷◌, length, take, zip, option_map, OnOk, OnErr};
ghost use Rattle.isle_scope.specs.Table.{at_place, held};

use crate::scope::Scope;
use std::alloc::{AllocError, Global};
use std::marker::Model;

/// Locals in the order in which they were bound, each with what it holds. What is bound last counts.
#[derive(Drop)]
pub struct Table<T> {
    scope: Scope,
    things: Vec<T>,
}

impl<T> Model for Table<T> {
    ghost use Rattle.std.specs.Prelude.{◌≡◌, List, ℕ, length, zip};
    ghost use Rattle.std.specs.Coded.{coded_list, coded_ℕ, coded×};

    ghost Value = { List (ℕ × T) };

    ghost coded = { coded_list (coded× coded_ℕ T.code) };

    ghost view = { λ t. zip t.scope t.things.items };

    ghost invariant = { λ t. length t.scope ≡ length t.things.items };
}

// Binds a local.
fn note<T: Drop>(
    scope: &mut Scope,
    things: &mut Vec<T>,
    local: usize,
    thing: T,
) -> Result<(), AllocError>
    requires { length scope.old ≡ length things.old.items }
    ensures keeps { length scope.new ≡ length things.new.items }
    ensures more { OnOk result
        (zip scope.new things.new.items ≡ zip scope.old things.old.items ++ (local, thing) ∷ []) }
    ensures kept { OnErr result (zip scope.new things.new.items ≡ zip scope.old things.old.items) }
{
    things.push(thing)?;
    match scope.bind(local) {
        Ok(()) => Ok(()),
        Err(e) => {
            things.pop();
            Err(e)
        }
    }
}

// What stands at a place.
fn thing_at<T>(things: &[T], place: Option<usize>) -> Option<&T>
    ensures { option_map (λ x. x.now) result ≡ at_place things.now place }
{
    things.get(place?)
}

impl<T> Table<T> {
    /// Makes a table with no local.
    pub fn new(alloc: Global) -> Table<T>
        ensures { result ≡ [] }
    {
        Table {
            scope: Scope::new(alloc),
            things: Vec::new(alloc),
        }
    }

    /// Returns how many were bound, each time that one was.
    pub fn len(&self) -> usize
        ensures { result ≡ length self.now }
    {
        self.scope.len()
    }

    /// Returns what a local holds, if it is bound.
    pub fn get(&self, local: usize) -> Option<&T>
        ensures { option_map (λ x. x.now) result ≡ held self.now local }
    {
        thing_at(self.things.as_slice(), self.scope.place(local))
    }
}

impl<T: Drop> Table<T> {
    /// Binds a local. Where that is refused for want of memory, the table stays as it was.
    pub fn bind(&mut self, local: usize, thing: T) -> Result<(), AllocError>
        ensures more { OnOk result (self.new ≡ self.old ++ (local, thing) ∷ []) }
        ensures kept { OnErr result (self.new ≡ self.old) }
    {
        note(&mut self.scope, &mut self.things, local, thing)
    }

    /// Leaves only the locals that were bound first, as many as `len`.
    pub fn truncate(&mut self, len: usize)
        ensures { self.new ≡ take len self.old }
    {
        self.scope.truncate(len);
        self.things.truncate(len);
    }
}
