//! Instructions: the variants of their type, and the values that rules make of it.

ghost use Rattle.std.specs.Prelude.{◌≡◌, ◌++◌, OnOk, string_bytes};
ghost use Rattle.std.specs.List.{flat_map};
ghost use Rattle.isle_pulley.specs.Pieces.{emitted_piece, fields_piece, inst_piece, name_behind};
ghost use Rattle.isle_pulley.specs.Pieces.{operand_piece};
ghost use Rattle.isle_pulley.specs.Pieces.{emitted_head, operands_piece, place_piece, type_head};
ghost use Rattle.isle_pulley.specs.Pieces.{type_piece};
ghost use Rattle.isle_pulley.specs.Pieces.{variant_line, variant_piece};
ghost use Rattle.isle_pulley.specs.Places.{written};
ghost use Rattle.isle_writing.specs.Text.{field_text};

use crate::pieces::{push_temporary, push_written};
use isle_printer::{push_around, push_two};
use isle_pulley_rows::{Operand, Operation};
use std::alloc::{AllocError, Global};

// Appends a field and its type, after a blank.
fn push_field(text: &mut String, name: &str, ty: &str) -> Result<(), AllocError>
    ensures { OnOk result
        (string_bytes text.new ≡ string_bytes text.old ++ field_text name.now ty.now) }
{
    push_around(text, " (", name, " ")?;
    text.push_str(ty)?;
    text.push_str(")")
}

// Appends a field that is written and its type, after a blank.
fn push_written_field(text: &mut String, name: &str, ty: &str) -> Result<(), AllocError>
    ensures { OnOk result
        (string_bytes text.new
        ≡ string_bytes text.old ++ field_text name.now (written ty.now)) }
{
    push_around(text, " (", name, " ")?;
    push_written(text, ty)?;
    text.push_str(")")
}

// Appends the fields of an operand, each after a blank.
fn push_fields_of(text: &mut String, operand: &Operand<'_>) -> Result<(), AllocError>
    ensures { OnOk result
        (string_bytes text.new ≡ string_bytes text.old ++ fields_piece operand.now) }
{
    match operand {
        Operand::Normal(name, ty) => push_field(text, name.as_str(), ty.as_str()),
        Operand::Writable(name, ty) => push_written_field(text, name.as_str(), ty.as_str()),
        Operand::Binop(dst, src1, src2) => {
            push_written_field(text, "dst", dst.as_str())?;
            push_field(text, "src1", src1.as_str())?;
            push_field(text, "src2", src2.as_str())
        }
        Operand::Trap => push_field(text, "code", "TrapCode"),
    }
}

// Appends the fields of operands, each after a blank.
fn push_fields(text: &mut String, operands: &[Operand<'_>]) -> Result<(), AllocError>
    ensures { OnOk result
        (string_bytes text.new ≡ string_bytes text.old ++ flat_map fields_piece operands.now) }
{
    for operand in operands {
        push_fields_of(text, operand)?;
    }
    Ok(())
}

// Appends a variant: one without operands is its name.
fn push_variant(text: &mut String, name: &str, operands: &[Operand<'_>]) -> Result<(), AllocError>
    ensures { OnOk result
        (string_bytes text.new ≡ string_bytes text.old ++ variant_piece name.now operands.now) }
{
    if operands.is_empty() {
        return text.push_str(name);
    }
    text.push_str("(")?;
    text.push_str(name)?;
    push_fields(text, operands)?;
    text.push_str(")")
}

// Appends a variant on a line of its own.
fn push_variant_line(text: &mut String, op: &Operation<'_>) -> Result<(), AllocError>
    ensures { OnOk result
        (string_bytes text.new ≡ string_bytes text.old ++ variant_line op.now) }
{
    text.push_str("\n  ")?;
    push_variant(text, op.name.as_str(), op.operands.as_slice())
}

// Appends variants, each on a line of its own.
fn push_variant_lines(text: &mut String, ops: &[Operation<'_>]) -> Result<(), AllocError>
    ensures { OnOk result
        (string_bytes text.new ≡ string_bytes text.old ++ flat_map variant_line ops.now) }
{
    for op in ops {
        push_variant_line(text, op)?;
    }
    Ok(())
}

// How the type of instructions begins.
#[tactic(auto, unfolding(crate::specs::Pieces::type_head))]
fn type_head() -> &'static str
    ensures { result.now ≡ type_head }
{
    "(type RawInst (enum"
}

/// Appends the type of instructions. The only error is want of memory.
pub fn push_type(text: &mut String, ops: &[Operation<'_>]) -> Result<(), AllocError>
    ensures { OnOk result
        (string_bytes text.new ≡ string_bytes text.old ++ type_piece ops.now) }
{
    text.push_str(type_head())?;
    push_variant_lines(text, ops)?;
    text.push_str("))\n")
}

// Appends what stands for an operand in an instruction, after a blank.
fn push_operand(text: &mut String, next: &str, operand: &Operand<'_>) -> Result<(), AllocError>
    ensures { OnOk result
        (string_bytes text.new
        ≡ string_bytes text.old ++ operand_piece next.now operand.now) }
{
    match operand {
        Operand::Normal(name, _) => push_two(text, " ", name.as_str()),
        Operand::Writable(_, _) => push_two(text, " ", next),
        Operand::Binop(_, _, _) => push_around(text, " ", next, " src1 src2"),
        Operand::Trap => text.push_str(" code"),
    }
}

// The name of what is written next, behind an operand.
fn name_behind<'n>(operand: &Operand<'_>, next: &'n str, last: &'n str) -> &'n str
    ensures { result.now ≡ name_behind operand.now next.now last.now }
{
    if operand.is_written() { last } else { next }
}

// Appends what stands for operands in an instruction.
fn push_operands(
    text: &mut String,
    first: &str,
    last: &str,
    operands: &[Operand<'_>],
) -> Result<(), AllocError>
    ensures { OnOk result
        (string_bytes text.new
        ≡ string_bytes text.old ++ operands_piece first.now last.now operands.now) }
{
    let mut next = first;
    for operand in operands {
        push_operand(text, next, operand)?;
        next = name_behind(operand, next, last);
    }
    Ok(())
}

/// Appends an instruction: the first operand that is written has the first of these names, each later one the second.
/// The only error is want of memory.
#[tactic(auto, unfolding(crate::specs::Pieces::inst_piece))]
pub fn push_inst(
    text: &mut String,
    first: &str,
    last: &str,
    op: &Operation<'_>,
) -> Result<(), AllocError>
    ensures { OnOk result
        (string_bytes text.new
        ≡ string_bytes text.old ++ inst_piece first.now last.now op.now) }
{
    text.push_str("(RawInst.")?;
    text.push_str(op.name.as_str())?;
    push_operands(text, first, last, op.operands.as_slice())?;
    text.push_str(")")
}

// What stands before an instruction that is emitted.
#[tactic(auto, unfolding(crate::specs::Pieces::emitted_head))]
fn emitted_head() -> &'static str
    ensures { result.now ≡ emitted_head }
{
    "(_ Unit (emit "
}

/// Appends that the instruction is emitted. The only error is want of memory.
#[tactic(auto, unfolding(crate::specs::Pieces::emitted_piece))]
pub fn push_emitted(
    text: &mut String,
    first: &str,
    last: &str,
    op: &Operation<'_>,
) -> Result<(), AllocError>
    ensures { OnOk result
        (string_bytes text.new
        ≡ string_bytes text.old ++ emitted_piece first.now last.now op.now) }
{
    text.push_str(emitted_head())?;
    push_inst(text, first, last, op)?;
    text.push_str("))")
}

/// Appends a place for a while, with its name. The only error is want of memory.
#[tactic(auto, unfolding(crate::specs::Pieces::place_piece))]
pub fn push_place(alloc: Global, text: &mut String, name: &str, ty: &str) -> Result<(), AllocError>
    ensures { OnOk result
        (string_bytes text.new ≡ string_bytes text.old ++ place_piece name.now ty.now) }
{
    push_around(text, "(", name, " ")?;
    push_written(text, ty)?;
    text.push_str(" (")?;
    push_temporary(alloc, text, ty)?;
    text.push_str("))")
}
