ghost use Rattle.std.specs.Prelude.{◌++◌, ◌∷◌, ◌≡◌, List, [], OnOk};
ghost use Rattle.isle_core.specs.Path.{Path, at};
ghost use Rattle.isle_core.specs.Tests.{Places, Test, Is, met_tests, met_after, no_places};
ghost use Rattle.isle_rulesets.specs.PatternTests.{HasTests};

use isle_core::{BindingId, Constraint, VarId};
use isle_scope::Table;
use std::alloc::{AllocError, Global};

/// What a rule tests, as often as its patterns say so, and the binding of each of its variables.
#[derive(Drop)]
pub struct PatternTests {
    pub constraints: Vec<(BindingId, Constraint)>,
    pub equals: Vec<(BindingId, BindingId)>,
    pub variables: Table<BindingId>,
}

impl PatternTests {
    /// Makes what has no test and no variable. It takes no memory.
    pub fn new(alloc: Global) -> PatternTests
        ensures { (ps : List Path) → HasTests ps no_places [] result }
    {
        PatternTests {
            constraints: Vec::new(alloc),
            equals: Vec::new(alloc),
            variables: Table::new(alloc),
        }
    }
}

/// Binds a variable at its first occurrence, and tests equality at a later one. The only error is want of memory.
pub fn bind_or_equate(
    tests: &mut PatternTests,
    var: VarId,
    argument: BindingId,
) -> Result<(), AllocError>
    ensures { OnOk result
        ((ps : List Path) (places : Places) (ts : List Test) → HasTests ps places ts tests.old
        → HasTests ps (met_after (places var.0) var.0 (at ps argument) places)
        (ts ++ met_tests (places var.0) (at ps argument)) tests.new) }
{
    match tests.variables.get(var.index()) {
        Some(first) => tests.equals.push((*first, argument))?,
        None => tests.variables.bind(var.index(), argument)?,
    }
    Ok(())
}

/// Puts a constraint on the path of a number. The only error is want of memory.
pub fn constrain(
    tests: &mut PatternTests,
    source: BindingId,
    constraint: Constraint,
) -> Result<(), AllocError>
    ensures { OnOk result
        ((ps : List Path) (places : Places) (ts : List Test) → HasTests ps places ts tests.old
        → HasTests ps places (ts ++ Is (at ps source) constraint ∷ []) tests.new) }
{
    tests.constraints.push((source, constraint))?;
    Ok(())
}
