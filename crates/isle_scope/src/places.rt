//! Where each local was bound last.

ghost use Rattle.std.specs.Prelude.{◌≡◌, ◌<◌, ◌≤◌, ℕ, length, IsSome, Some, IfSome, OnOk, OnErr};
ghost use Rattle.isle_scope.specs.Places.{look_near, look_in, near_limit, Sets, AreSame};

use std::alloc::{AllocError, Global};
use std::collections::BTreeMap;

// Locals of smaller numbers stand in a list.
const NEAR: usize = 4096;

// Returns how many locals may stand in a list: those of smaller numbers.
#[tactic(auto, unfolding(crate::specs::Places::near_limit))]
fn near_limit() -> usize
    ensures { result ≡ near_limit }
{
    NEAR
}

/// The place where each local was bound last: locals of small numbers in a list by number, others in a map.
#[derive(Drop)]
pub struct Places {
    near: Vec<Option<usize>>,
    far: BTreeMap<usize, usize>,
}

// Returns what a list has at a number.
fn look_near(near: &[Option<usize>], local: usize) -> Option<usize>
    ensures { result ≡ look_near near.now local }
{
    match near.get(local) {
        Some(place) => *place,
        None => None,
    }
}

// Makes a list so long that it has this number. The only error is want of memory.
fn reach(near: &mut Vec<Option<usize>>, local: usize) -> Result<(), AllocError>
    ensures long { OnOk result (local < length near.new.items) }
    ensures same { AreSame (look_near near.old.items) (look_near near.new.items) }
{
    while near.len() <= local {
        near.push(None)?;
    }
    Ok(())
}

impl Places {
    /// Makes places of no local.
    pub fn new(alloc: Global) -> Places
        ensures { (n : ℕ) → look_in result n ≡ None }
    {
        Places {
            near: Vec::new(alloc),
            far: BTreeMap::new(alloc),
        }
    }

    /// Returns the place of a local, if it has one.
    pub fn get(&self, local: usize) -> Option<usize>
        ensures { result ≡ look_in self.now local }
    {
        if local < near_limit() {
            return look_near(self.near.as_slice(), local);
        }
        self.far.get(&local).copied()
    }

    /// Gives a local a place. The only error is want of memory, after which each has the place that it had.
    pub fn put(&mut self, local: usize, place: usize) -> Result<(), AllocError>
        ensures sets { OnOk result (Sets (look_in self.old) (look_in self.new) local (Some place)) }
        ensures kept { OnErr result (AreSame (look_in self.old) (look_in self.new)) }
    {
        if local < near_limit() {
            reach(&mut self.near, local)?;
            self.near[local] = Some(place);
            return Ok(());
        }
        match self.far.insert(local, place) {
            Ok(_) => Ok(()),
            Err(_) => Err(AllocError),
        }
    }

    /// Gives a local that has a place another one, or none; this takes no memory.
    pub fn restore(&mut self, local: usize, hidden: Option<usize>)
        requires { IsSome (look_in self.old local) }
        ensures { Sets (look_in self.old) (look_in self.new) local hidden }
    {
        if local < near_limit() {
            self.near[local] = hidden;
            return;
        }
        match hidden {
            None => {
                self.far.remove(&local);
            }
            Some(place) => {
                let _ = self.far.insert(local, place);
            }
        }
    }
}
