//! Whether the rules of a group have one priority.

ghost use Rattle.std.specs.Prelude.{◌≡◌, ◌↔◌, IsTrue};
ghost use Rattle.isle_checks.specs.Priorities.{HavePriority, HaveOnePriority};

use crate::placed::Placed;

// Whether a rule has this priority.
fn has_priority(placed: &Placed<'_>, prio: i64) -> bool
    ensures { IsTrue result ↔ (placed.now.rule.now.prio ≡ prio) }
{
    placed.rule.prio == prio
}

// Whether each rule of a group has this priority.
fn have_priority(group: &[Placed<'_>], prio: i64) -> bool
    ensures { IsTrue result ↔ HavePriority prio group.now }
{
    for placed in group {
        if !has_priority(placed, prio) {
            return false;
        }
    }
    true
}

/// Tells whether all rules of a group have one priority.
pub fn have_one_priority(group: &[Placed<'_>]) -> bool
    ensures { IsTrue result → HaveOnePriority group.now }
{
    match group.first() {
        Some(first) => have_priority(group, first.rule.prio),
        None => true,
    }
}
