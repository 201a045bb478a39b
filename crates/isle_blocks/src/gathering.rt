//! Ways that test one source, by their constraints.

ghost use Rattle.std.specs.Prelude.{◌≡◌, IfOk, OnOk, [], map};
ghost use Rattle.isle_core.specs.declared.rule_sets.Constraint.{Constraint as ConstraintOf};
ghost use Rattle.std.specs.BTreeMap.{get};
ghost use Rattle.isle_blocks.specs.Ways as Ways;
ghost use Rattle.isle_blocks.specs.Gathered as Gathered;

use crate::ways::Way;
use isle_core::Constraint;
use std::alloc::{AllocError, Global};
use std::collections::BTreeMap;

/// The ways of one constraint, without the test against it.
#[derive(Drop)]
pub struct Group<'r> {
    pub constraint: Constraint,
    pub ways: Vec<Way<'r>>,
}

// Puts a way after those of its constraint.
fn add<'r>(
    alloc: Global,
    places: &mut BTreeMap<Constraint, usize>,
    groups: &mut Vec<Group<'r>>,
    constraint: Constraint,
    way: Way<'r>,
) -> Result<(), AllocError>
    requires { (c : ConstraintOf) → get Ways.constraint_cmp places.old c
        ≡ Ways.place_of c (map Ways.group groups.old.items) }
    ensures added { OnOk result (map Ways.group groups.new.items
        ≡ Ways.add_to constraint (Ways.way way.entry) (map Ways.group groups.old.items)) }
    ensures placed { OnOk result ((c : ConstraintOf) → get Ways.constraint_cmp places.new c
        ≡ Ways.place_of c (map Ways.group groups.new.items)) }
{
    match places.get(&constraint).copied() {
        Some(place) => groups[place].ways.push(way)?,
        None => {
            places.insert(constraint, groups.len())?;
            groups.push(Group {
                constraint,
                ways: vec![in alloc; way]?,
            })?;
        }
    }
    Ok(())
}

/// Gathers ways by the constraints of their first tests: each constraint where it stands first, with its ways in order.
/// The only error is want of memory.
pub fn gathered<'r>(alloc: Global, ways: &[Way<'r>]) -> Result<Vec<Group<'r>>, AllocError>
    ensures { IfOk result (λ groups.
        map Ways.group groups.items ≡ Gathered.gather [] (map Ways.way ways.now)) }
{
    let mut places = BTreeMap::new(alloc);
    let mut groups = Vec::new(alloc);
    for way in ways {
        if let [(_, constraint), early @ ..] = way.early {
            let left = Way {
                rule: way.rule,
                early,
                late: way.late,
            };
            add(alloc, &mut places, &mut groups, *constraint, left)?;
        }
    }
    Ok(groups)
}
