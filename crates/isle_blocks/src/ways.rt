//! Rules with the tests that are left of them.

ghost use Rattle.std.specs.Prelude.{◌≡◌, ◌↔◌, ◌++◌, IsTrue, IfOk, OnOk, List as ListOf, map};
ghost use Rattle.isle_core.specs.Path.{Path};
ghost use Rattle.isle_blocks.specs.Free.{is_free};
ghost use Rattle.isle_blocks.specs.TreeSteps.{tests_first, IsUntested};
ghost use Rattle.isle_blocks.specs.Ways as Ways;

use crate::free::is_free_at;
use isle_core::{BindingId, Constraint, FlatRule};
use std::alloc::{AllocError, Global};

/// A rule with the tests that are still to be made: those that rules may share, and then the others.
#[derive(Clone, Copy)]
pub struct Way<'r> {
    pub rule: &'r FlatRule,
    pub early: &'r [(BindingId, Constraint)],
    pub late: &'r [(BindingId, Constraint)],
}

impl Way<'_> {
    /// Tells whether the first test that is left is of this source.
    pub fn tests_first(&self, source: BindingId) -> bool
        ensures { result ≡ tests_first source (Ways.way self.now).early }
    {
        match self.early.first() {
            Some((first, _)) => first.index() == source.index(),
            None => false,
        }
    }

    /// Tells whether nothing is left to be tested.
    pub fn is_untested(&self) -> bool
        ensures { IsTrue result ↔ IsUntested (Ways.way self.now) }
    {
        if !self.early.is_empty() {
            return false;
        }
        self.late.is_empty() && self.rule.equals.as_slice().is_empty()
    }
}

/// A rule with its tests in order: those that rules may share, and the others.
#[derive(Drop)]
pub struct Parted<'r> {
    pub rule: &'r FlatRule,
    pub early: Vec<(BindingId, Constraint)>,
    pub late: Vec<(BindingId, Constraint)>,
}

// Whether rules may share a test of this source: of a term that answers once always, and else if no item is chosen for it.
fn is_shared(several: bool, free: &[bool], source: BindingId) -> bool
    ensures { (ps : ListOf Path) → free.now ≡ map is_free ps
        → result ≡ Ways.is_shared several ps source }
{
    !several || is_free_at(free, source)
}

// Puts a test after others, if it is wanted there.
fn push_if(
    wanted: bool,
    test: (BindingId, Constraint),
    tests: &mut Vec<(BindingId, Constraint)>,
) -> Result<(), AllocError>
    ensures { OnOk result (tests.new.items ≡ tests.old.items ++ Ways.one_if wanted test) }
{
    if wanted {
        tests.push(test)?;
    }
    Ok(())
}

// Parts the tests of a rule.
fn part_rule<'r>(
    alloc: Global,
    several: bool,
    free: &[bool],
    rule: &'r FlatRule,
) -> Result<Parted<'r>, AllocError>
    ensures { IfOk result (λ p. (ps : ListOf Path) → free.now ≡ map is_free ps
        → Ways.parted_way p ≡ Ways.way_of several ps rule.now) }
{
    let constraints = rule.constraints.as_slice();
    let mut early = Vec::new(alloc);
    let mut late = Vec::new(alloc);
    for constraint in constraints {
        let shared = is_shared(several, free, constraint.0);
        push_if(shared, *constraint, &mut early)?;
        push_if(!shared, *constraint, &mut late)?;
    }
    Ok(Parted { rule, early, late })
}

/// Parts the tests of each of the rules, in order. The only error is want of memory.
pub fn part_rules<'r>(
    alloc: Global,
    several: bool,
    free: &[bool],
    rules: &'r [FlatRule],
) -> Result<Vec<Parted<'r>>, AllocError>
    ensures { IfOk result (λ all. (ps : ListOf Path) → free.now ≡ map is_free ps
        → map Ways.parted_way all.items ≡ map (Ways.way_of several ps) rules.now) }
{
    let mut all = Vec::new(alloc);
    for rule in rules {
        all.push(part_rule(alloc, several, free, rule)?)?;
    }
    Ok(all)
}
