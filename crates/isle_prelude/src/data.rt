//! The data of an instruction, as a pattern and as an expression: the two are written alike but for the array of
//! values, whose term has a tail in an expression, and for a list of values, which stands in patterns alone.

ghost use Rattle.std.specs.Prelude.{◌≡◌, ◌++◌, OnOk, string_bytes, false};
ghost use Rattle.isle_prelude.specs.Kinds.{is_of};
ghost use Rattle.isle_prelude.specs.TermPieces.{blocks_piece, counted_piece, data_begin};
ghost use Rattle.isle_prelude.specs.TermPieces.{data_piece, kind_piece};
ghost use Rattle.isle_prelude.specs.TermPieces.{list_piece, list_term_piece, operands_piece};
ghost use Rattle.isle_prelude.specs.TermPieces.{several_piece};
ghost use Rattle.isle_prelude.specs.TermPieces.{slice_term, unwrap_begin, values_piece};

use crate::operands::{Kind, count_blocks, count_values, push_kind};
use crate::pieces::{push_numbered, push_then_numbered};
use isle_meta::{Instruction, InstructionFormat};
use isle_printer::push_around;
use std::alloc::AllocError;

// The operands of a kind: how many there are, and what stands before and behind this number in the term of their array.
#[derive(Drop)]
struct Counted<'t> {
    kind: Kind,
    count: usize,
    head: &'t str,
    tail: &'t str,
}

// Appends an array of operands, after a blank.
fn push_array(
    text: &mut String,
    counted: &Counted<'_>,
    instruction: &Instruction,
) -> Result<(), AllocError>
    ensures { OnOk result
        (string_bytes text.new
        ≡ string_bytes text.old
        ++ several_piece counted.now.count counted.now.head.now counted.now.tail.now
        (kind_piece (is_of counted.now.kind) instruction.now)) }
{
    push_then_numbered(text, " (", counted.head, counted.count)?;
    text.push_str(counted.tail)?;
    push_kind(text, counted.kind, instruction)?;
    text.push_str(")")
}

// Appends operands that stand in no list: nothing, the one, or an array.
fn push_counted(
    text: &mut String,
    counted: &Counted<'_>,
    instruction: &Instruction,
) -> Result<(), AllocError>
    ensures { OnOk result
        (string_bytes text.new
        ≡ string_bytes text.old
        ++ counted_piece counted.now.count counted.now.head.now counted.now.tail.now
        (kind_piece (is_of counted.now.kind) instruction.now)) }
{
    match counted.count {
        0 | 1 => push_kind(text, counted.kind, instruction),
        _ => push_array(text, counted, instruction),
    }
}

// The term of a list without values.
#[tactic(auto, unfolding(crate::specs::TermPieces::slice_term))]
fn slice_term() -> &'static str
    ensures { result.now ≡ slice_term }
{
    "value_list_slice"
}

// How the term of a list with values begins.
#[tactic(auto, unfolding(crate::specs::TermPieces::unwrap_begin))]
fn unwrap_begin() -> &'static str
    ensures { result.now ≡ unwrap_begin }
{
    "unwrap_head_value_list_"
}

// Appends the term of a list that begins with so many values.
fn push_list_term(text: &mut String, n: usize) -> Result<(), AllocError>
    ensures { OnOk result (string_bytes text.new ≡ string_bytes text.old ++ list_term_piece n) }
{
    match n {
        0 => text.push_str(slice_term()),
        _ => push_numbered(text, unwrap_begin(), n),
    }
}

// Appends a list of values: those in front of it, and the rest of it.
fn push_list(text: &mut String, instruction: &Instruction) -> Result<(), AllocError>
    ensures { OnOk result
        (string_bytes text.new ≡ string_bytes text.old ++ list_piece instruction.now) }
{
    text.push_str(" (")?;
    push_list_term(text, count_values(instruction))?;
    push_kind(text, Kind::Value, instruction)?;
    push_kind(text, Kind::Varargs, instruction)?;
    text.push_str(")")
}

// Appends values that stand in no list.
fn push_counted_values(
    text: &mut String,
    tail: &str,
    instruction: &Instruction,
) -> Result<(), AllocError>
    ensures { OnOk result
        (string_bytes text.new
        ≡ string_bytes text.old ++ values_piece false tail.now instruction.now) }
{
    let counted = Counted {
        kind: Kind::Value,
        count: count_values(instruction),
        head: "value_array_",
        tail,
    };
    push_counted(text, &counted, instruction)
}

// Appends the values of an instruction.
fn push_values(
    text: &mut String,
    has_list: bool,
    tail: &str,
    instruction: &Instruction,
) -> Result<(), AllocError>
    ensures { OnOk result
        (string_bytes text.new
        ≡ string_bytes text.old ++ values_piece has_list tail.now instruction.now) }
{
    if has_list {
        return push_list(text, instruction);
    }
    push_counted_values(text, tail, instruction)
}

// Appends the blocks of an instruction.
fn push_blocks(text: &mut String, instruction: &Instruction) -> Result<(), AllocError>
    ensures { OnOk result
        (string_bytes text.new ≡ string_bytes text.old ++ blocks_piece instruction.now) }
{
    let counted = Counted {
        kind: Kind::Block,
        count: count_blocks(instruction),
        head: "block_array_",
        tail: "",
    };
    push_counted(text, &counted, instruction)
}

// Appends the operands of an instruction.
fn push_operands(
    text: &mut String,
    has_list: bool,
    tail: &str,
    instruction: &Instruction,
) -> Result<(), AllocError>
    ensures { OnOk result
        (string_bytes text.new
        ≡ string_bytes text.old ++ operands_piece has_list tail.now instruction.now) }
{
    push_values(text, has_list, tail, instruction)?;
    push_blocks(text, instruction)?;
    push_kind(text, Kind::RawBlock, instruction)?;
    push_kind(text, Kind::Imm, instruction)
}

// How the data begins.
#[tactic(auto, unfolding(crate::specs::TermPieces::data_begin))]
fn data_begin() -> &'static str
    ensures { result.now ≡ data_begin }
{
    "(InstructionData."
}

/// Appends the data of an instruction: its values in a list if `has_list`, or else in an array whose term has this
/// tail. The only error is want of memory.
#[tactic(auto, unfolding(crate::specs::TermPieces::data_piece))]
pub fn push_data(
    text: &mut String,
    has_list: bool,
    tail: &str,
    format: &InstructionFormat,
    instruction: &Instruction,
) -> Result<(), AllocError>
    ensures { OnOk result
        (string_bytes text.new
        ≡ string_bytes text.old
        ++ data_piece has_list tail.now format.now instruction.now) }
{
    push_around(text, data_begin(), format.name.as_str(), " (Opcode.")?;
    text.push_str(instruction.camel_name.as_str())?;
    text.push_str(")")?;
    push_operands(text, has_list, tail, instruction)?;
    text.push_str(")")
}
