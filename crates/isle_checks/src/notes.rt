//! The first rule of some that makes an error of a rule, noted at its place.

ghost use Rattle.std.specs.Prelude.{◌≡◌, ◌<◌, length};
ghost use Rattle.isle_checks.specs.Lists.{Rises};
ghost use Rattle.isle_checks.specs.Firsts.{earlier, AreBelow, Finds, IsFirstMaker, NotesFirst};

use crate::placed::{Check, Placed};

// The place of the first rule that makes an error of a rule.
fn first_maker<'a>(check: Check, makers: &[Placed<'a>], other: &Placed<'a>) -> Option<usize>
    requires { Rises makers.now }
    ensures { IsFirstMaker check makers.now other.now result }
{
    for maker in makers {
        if check.makes(maker, other) {
            return Some(maker.place);
        }
    }
    None
}

// The earlier of two places.
fn earlier(found: Option<usize>, place: usize) -> usize
    ensures { result ≡ earlier found place }
{
    match found {
        Some(before) => before.min(place),
        None => place,
    }
}

/// Notes the first of these that makes an error of a rule, if it is earlier than what is noted.
pub fn note_first<'a>(
    check: Check,
    makers: &[Placed<'a>],
    other: &Placed<'a>,
    found: &mut Vec<Option<usize>>,
)
    requires rise { Rises makers.now }
    requires below { other.now.place < length found.old.items }
    ensures { NotesFirst check makers.now other.now found.old.items found.new.items }
{
    if let Some(place) = first_maker(check, makers, other) {
        found[other.place] = Some(earlier(found[other.place], place));
    }
}

/// Compares each rule with these.
pub fn compare<'a>(
    check: Check,
    makers: &[Placed<'a>],
    others: &[Placed<'a>],
    found: &mut Vec<Option<usize>>,
)
    requires rise { Rises makers.now }
    requires below { AreBelow (length found.old.items) others.now }
    ensures { Finds check makers.now others.now found.old.items found.new.items }
{
    for other in others {
        note_first(check, makers, other, found);
    }
}
