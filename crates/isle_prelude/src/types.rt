//! The types that files of instructions declare.

ghost use Rattle.std.specs.Prelude.{◌≡◌, ◌++◌, OnOk, string_bytes};
ghost use Rattle.std.specs.List.{flat_map};
ghost use Rattle.isle_prelude.specs.Lent.{lent};
ghost use Rattle.isle_prelude.specs.TypePieces.{bare_line, enum_head, enum_piece, primitive_piece};

use isle_printer::{push_around, push_two};
use std::alloc::AllocError;
use std::collections::BTreeSet;

/// Appends `(type N (primitive N))`. The only error is want of memory.
#[tactic(auto, unfolding(crate::specs::TypePieces::primitive_piece))]
pub fn push_primitive(text: &mut String, name: &str) -> Result<(), AllocError>
    ensures { OnOk result
        (string_bytes text.new ≡ string_bytes text.old ++ primitive_piece name.now) }
{
    push_around(text, "(type ", name, " (primitive ")?;
    push_two(text, name, "))\n")
}

/// Appends how an enum begins that is defined elsewhere. The only error is want of memory.
#[tactic(auto, unfolding(crate::specs::TypePieces::enum_head))]
pub fn push_enum_head(text: &mut String, name: &str) -> Result<(), AllocError>
    ensures { OnOk result
        (string_bytes text.new ≡ string_bytes text.old ++ enum_head name.now) }
{
    push_around(text, "(type ", name, " extern (enum")
}

/// Appends a variant without fields, on a line of its own. The only error is want of memory.
#[tactic(auto, unfolding(crate::specs::TypePieces::bare_line))]
pub fn push_bare_line(text: &mut String, name: &str) -> Result<(), AllocError>
    ensures { OnOk result
        (string_bytes text.new ≡ string_bytes text.old ++ bare_line name.now) }
{
    push_two(text, "\n  ", name)
}

// Appends variants without fields, each on a line of its own.
fn push_bare_lines(text: &mut String, names: &BTreeSet<&str>) -> Result<(), AllocError>
    ensures { OnOk result
        (string_bytes text.new
        ≡ string_bytes text.old ++ flat_map bare_line (lent names.now.keys)) }
{
    for name in names {
        push_bare_line(text, name)?;
    }
    Ok(())
}

/// Appends the enum of these variants without fields. The only error is want of memory.
pub fn push_bare_enum(
    text: &mut String,
    name: &str,
    variants: &BTreeSet<&str>,
) -> Result<(), AllocError>
    ensures { OnOk result
        (string_bytes text.new
        ≡ string_bytes text.old
        ++ enum_piece name.now (flat_map bare_line (lent variants.now.keys))) }
{
    push_enum_head(text, name)?;
    push_bare_lines(text, variants)?;
    text.push_str("))\n")
}
