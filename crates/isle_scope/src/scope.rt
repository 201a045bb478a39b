//! The locals that are bound, in order.

ghost use Rattle.std.specs.Prelude.{◌≡◌, ◌-◌, ◌++◌, ◌==◌, [], ◌∷◌, length, take, OnOk, OnErr};
ghost use Rattle.std.specs.List.{list_any};
ghost use Rattle.isle_scope.specs.Scope.{last_place};
ghost use Rattle.isle_scope.specs.Places.{look_in};
ghost use Rattle.isle_scope.specs.Log.{locals_of, Finds};

use crate::entry::Entry;
use crate::places::Places;
use std::alloc::{AllocError, Global};
use std::marker::Model;

/// Locals in the order in which they were bound. `places` has the place where each was bound last, and the log the place
/// that it is to have again when that binding goes out of scope.
#[derive(Drop)]
pub struct Scope {
    log: Vec<Entry>,
    places: Places,
}

impl Model for Scope {
    ghost use Rattle.std.specs.Prelude.{List, ℕ};
    ghost use Rattle.isle_scope.specs.Log.{locals_of, Finds};
    ghost use Rattle.isle_scope.specs.Places.{look_in};

    ghost Value = { List ℕ };

    ghost view = { λ s. locals_of s.log.items };

    ghost invariant = { λ s. Finds s.log.items (look_in s.places) };
}

// Binds a local.
fn note(log: &mut Vec<Entry>, places: &mut Places, local: usize) -> Result<(), AllocError>
    requires { Finds log.old.items (look_in places.old) }
    ensures keeps { Finds log.new.items (look_in places.new) }
    ensures more { OnOk result (locals_of log.new.items ≡ locals_of log.old.items ++ local ∷ []) }
    ensures kept { OnErr result (locals_of log.new.items ≡ locals_of log.old.items) }
{
    let place = log.len();
    let hidden = places.get(local);
    log.push(Entry { local, hidden })?;
    match places.put(local, place) {
        Ok(()) => Ok(()),
        Err(e) => {
            log.pop();
            Err(e)
        }
    }
}

// Unbinds what was bound last.
fn undo(log: &mut Vec<Entry>, places: &mut Places)
    requires { Finds log.old.items (look_in places.old) }
    ensures keeps { Finds log.new.items (look_in places.new) }
    ensures fewer { log.new.items ≡ take (length log.old.items - 1) log.old.items }
{
    if let Some(entry) = log.pop() {
        places.restore(entry.local, entry.hidden);
    }
}

// Unbinds all but those that were bound first, as many as `len`.
fn undo_to(log: &mut Vec<Entry>, places: &mut Places, len: usize)
    requires { Finds log.old.items (look_in places.old) }
    ensures keeps { Finds log.new.items (look_in places.new) }
    ensures fewer { log.new.items ≡ take len log.old.items }
{
    while log.len() > len {
        undo(log, places);
    }
}

impl Scope {
    /// Makes a scope with no local.
    pub fn new(alloc: Global) -> Scope
        ensures { result ≡ [] }
    {
        Scope {
            log: Vec::new(alloc),
            places: Places::new(alloc),
        }
    }

    /// Returns how many were bound, each time that one was.
    pub fn len(&self) -> usize
        ensures { result ≡ length self.now }
    {
        self.log.len()
    }

    /// Returns the place where a local was bound last, counted from 0, if it is bound.
    pub fn place(&self, local: usize) -> Option<usize>
        ensures { result ≡ last_place self.now local }
    {
        self.places.get(local)
    }

    /// Tells whether a local is bound.
    pub fn has(&self, local: usize) -> bool
        ensures { result ≡ list_any (λ bound. bound == local) self.now }
    {
        self.place(local).is_some()
    }

    /// Binds a local. Where that is refused for want of memory, the scope stays as it was.
    pub fn bind(&mut self, local: usize) -> Result<(), AllocError>
        ensures more { OnOk result (self.new ≡ self.old ++ local ∷ []) }
        ensures kept { OnErr result (self.new ≡ self.old) }
    {
        note(&mut self.log, &mut self.places, local)
    }

    /// Leaves only the locals that were bound first, as many as `len`.
    pub fn truncate(&mut self, len: usize)
        ensures { self.new ≡ take len self.old }
    {
        undo_to(&mut self.log, &mut self.places, len);
    }
}
