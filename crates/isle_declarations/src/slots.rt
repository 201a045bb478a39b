//! Slots: where the place of a name may stand, by the name's hash.

ghost use Rattle.std.specs.Prelude.{◌≡◌, ◌<◌, [], OnOk, OnErr, IfOk, IfSome, length};
ghost use Rattle.std.specs.List.{find};
ghost use Rattle.isle_declarations.specs.LookedUp.{texts};
ghost use Rattle.isle_declarations.specs.Hashing.{hash_of};
ghost use Rattle.isle_declarations.specs.Slots.{stands_at, start_of, window_of, found_place};
ghost use Rattle.isle_declarations.specs.Slots.{Places, PutsName, KeepsPlaces, AreDistinct, IsFree, few};

use crate::hashing::hash_of;
use std::alloc::{AllocError, Global};
use std::collections::BTreeMap;

// How many slots a name may stand in.
const WINDOW: usize = 8;

// How many slots there are at least, once there are any.
const LEAST: usize = 32;

/// Of how many names no place is kept, since they are gone through.
pub(crate) const FEW: usize = 8;

// What an empty slot holds: the place of no name.
const EMPTY: u32 = u32::MAX;

/// The places of names: each in one of its name's slots, or beside them where all are taken.
#[derive(Drop)]
pub(crate) struct Slots<'d> {
    places: Vec<u32>,
    overflow: BTreeMap<&'d str, usize>,
}

impl<'d> Slots<'d> {
    /// Makes a table without slots, for no names.
    pub(crate) fn new(alloc: Global) -> Slots<'d>
        ensures { Places [] result.places.items result.overflow }
    {
        Slots {
            places: Vec::new(alloc),
            overflow: BTreeMap::new(alloc),
        }
    }

    // The places of these names, in twice as many slots as they should fill.
    fn of_names(alloc: Global, names: &[&'d str]) -> Result<Slots<'d>, AllocError>
        requires { AreDistinct (texts names.now) }
        ensures { IfOk result (λ s. Places (texts names.now) s.places.items s.overflow) }
    {
        let mut slots = Slots {
            places: vec![in alloc; EMPTY; names.len().saturating_mul(4).saturating_add(LEAST)]?,
            overflow: BTreeMap::new(alloc),
        };
        for (place, &name) in names.iter().enumerate() {
            slots.add(place, name, hash_of(name))?;
        }
        Ok(slots)
    }

    /// Makes slots, if there were only a few names, or more, if half of them would be taken. The only error is want of
    /// memory.
    pub(crate) fn make_room(&mut self, names: &[&'d str]) -> Result<(), AllocError>
        requires distinct { AreDistinct (texts names.now) }
        requires placed { few < length names.now
            → Places (texts names.now) self.old.places.items self.old.overflow }
        ensures made { OnOk result
            (Places (texts names.now) self.new.places.items self.new.overflow) }
        ensures kept { OnErr result ((self.new.places.items ≡ self.old.places.items)
            × (self.new.overflow ≡ self.old.overflow)) }
    {
        if names.len() <= FEW || names.len() >= self.places.len() / 2 {
            *self = Slots::of_names(*self.places.allocator(), names)?;
        }
        Ok(())
    }

    /// Returns the place of a name among the names, if it is there.
    pub(crate) fn find(&self, names: &[&str], name: &str, hash: u64) -> Option<usize>
        requires { hash ≡ hash_of name.now }
        ensures { result ≡ found_place self.now.places.items self.now.overflow
            (texts names.now) name.now }
    {
        if let Some(place) = seen(window(self.places.as_slice(), hash), names, name) {
            return Some(place);
        }
        self.overflow.get(name).copied()
    }

    /// Adds a name that is new, after so many names. The only error is want of memory.
    pub(crate) fn add(&mut self, count: usize, name: &'d str, hash: u64) -> Result<(), AllocError>
        requires { hash ≡ hash_of name.now }
        ensures added { OnOk result (PutsName count name.now
            self.old.places.items self.old.overflow self.new.places.items self.new.overflow) }
        ensures kept { OnErr result (KeepsPlaces
            self.old.places.items self.old.overflow self.new.places.items self.new.overflow) }
    {
        match free_slot(self.places.as_slice(), hash, count) {
            Some(slot) => {
                self.places[slot] = count as u32;
                Ok(())
            }
            None => match self.overflow.insert(name, count) {
                Ok(_) => Ok(()),
                Err(_) => Err(AllocError),
            },
        }
    }
}

// The first of the slots of a hash, among so many.
#[tactic(auto, unfolding(crate::specs::Slots::start_of))]
fn start(slots: usize, hash: u64) -> usize
    ensures { result ≡ start_of slots hash }
{
    let windows = slots.saturating_sub(WINDOW - 1) as u64;
    ((hash >> 32).wrapping_mul(windows) >> 32) as usize
}

// The slots of a hash.
fn window(slots: &[u32], hash: u64) -> &[u32]
    ensures { result.now ≡ window_of slots.now hash }
{
    let Some(rest) = slots.get(start(slots.len(), hash)..) else {
        return &[];
    };
    match rest.get(..WINDOW) {
        Some(window) => window,
        None => rest,
    }
}

// The place of a name, if one of these slots has it.
fn seen(window: &[u32], names: &[&str], name: &str) -> Option<usize>
    ensures { result ≡ find (stands_at (texts names.now) name.now) window.now }
{
    for place in window {
        if stands_at(names, name, *place as usize) {
            return Some(*place as usize);
        }
    }
    None
}

// Tells whether the name stands at this place.
fn stands_at(names: &[&str], name: &str, place: usize) -> bool
    ensures { result ≡ stands_at (texts names.now) name.now place }
{
    match names.get(place) {
        Some(other) => *other == name,
        None => false,
    }
}

// The first slot of a hash that has none of so many places.
fn free_slot(slots: &[u32], hash: u64, count: usize) -> Option<usize>
    ensures { IfSome result (λ slot. IsFree slots.now hash count slot) }
{
    let start = start(slots.len(), hash);
    for slot in start..start.saturating_add(WINDOW) {
        match slots.get(slot) {
            Some(place) if *place as usize >= count => return Some(slot),
            _ => {}
        }
    }
    None
}
