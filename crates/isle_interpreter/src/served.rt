//! The callees that entries answer for, and the constants that they give.

ghost use Rattle.std.specs.Prelude.{◌≡◌, ◌||◌, ℕ, List, [], not, IfOk, OnOk, Some};
ghost use Rattle.std.specs.Str.{bytes_eq};
ghost use Rattle.isle_core.specs.declared.values.Callee.{Callee};
ghost use Rattle.isle_core.specs.Terms.{goes_to};
ghost use Rattle.isle_operand_names.specs.Sets.{has_name};
ghost use Rattle.isle_interpreter.specs.Served.{has, Serves};

use isle_core::Callee;
use std::alloc::{AllocError, Global};
use std::collections::BTreeSet;

/// The callees that entries answer for, and the constants that they give values, each found by its name.
#[derive(Drop)]
pub struct Served<'a> {
    constants: BTreeSet<&'a str>,
    externals: BTreeSet<&'a str>,
    internals: BTreeSet<&'a str>,
}

// Puts a name into a set, and says whether it is new there.
fn added<'a>(names: &mut BTreeSet<&'a str>, name: &'a str) -> Result<bool, AllocError>
    ensures fresh { IfOk result (λ fresh. fresh ≡ not (has_name names.old name.now)) }
    ensures more { OnOk result
        ((other : List ℕ)
        → has_name names.new other ≡ (bytes_eq other name.now || has_name names.old other)) }
{
    Ok(names.insert(name)?)
}

impl<'a> Served<'a> {
    /// Makes a set with no callee and no constant.
    pub fn new(alloc: Global) -> Served<'a>
        ensures { Serves [] result }
    {
        Served {
            constants: BTreeSet::new(alloc),
            externals: BTreeSet::new(alloc),
            internals: BTreeSet::new(alloc),
        }
    }

    /// Adds a callee, and tells whether it is new. The only error is want of memory.
    pub fn add(&mut self, callee: &'a Callee) -> Result<bool, AllocError>
        ensures fresh { IfOk result (λ fresh. fresh ≡ not (has self.old callee.now)) }
        ensures more { OnOk result
            ((other : Callee)
            → has self.new other ≡ (goes_to other (Some callee.now) || has self.old other)) }
        ensures same { self.new.constants ≡ self.old.constants }
    {
        match callee {
            Callee::External(name) => added(&mut self.externals, name.as_str()),
            Callee::Internal(term) => added(&mut self.internals, term.as_str()),
        }
    }

    /// Adds a constant, and tells whether it is new. The only error is want of memory.
    pub fn give(&mut self, name: &'a str) -> Result<bool, AllocError>
        ensures fresh { IfOk result (λ fresh. fresh ≡ not (has_name self.old.constants name.now)) }
        ensures more { OnOk result
            ((other : List ℕ)
            → has_name self.new.constants other
            ≡ (bytes_eq other name.now || has_name self.old.constants other)) }
        ensures same { (callee : Callee) → has self.new callee ≡ has self.old callee }
    {
        added(&mut self.constants, name)
    }

    /// Tells whether the constant is among them.
    pub fn gives(&self, name: &str) -> bool
        ensures { result ≡ has_name self.now.constants name.now }
    {
        self.constants.contains(name)
    }

    /// Tells whether the callee is among them.
    pub fn has(&self, callee: &Callee) -> bool
        ensures { result ≡ has self.now callee.now }
    {
        match callee {
            Callee::External(name) => self.externals.contains(name.as_str()),
            Callee::Internal(term) => self.internals.contains(term.as_str()),
        }
    }
}
