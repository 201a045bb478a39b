//! The arrays that instructions hold their operands in.

ghost use Rattle.std.specs.Prelude.{◌≡◌, ◌++◌, IfOk, OnOk, string_bytes};
ghost use Rattle.std.specs.List.{flat_map};
ghost use Rattle.isle_prelude.specs.Arrays.{above_one, block_array_sizes, value_array_size};
ghost use Rattle.isle_prelude.specs.Arrays.{value_array_sizes};
ghost use Rattle.isle_prelude.specs.Sizes.{with_size};
ghost use Rattle.isle_prelude.specs.TypePieces.{array_decl_piece, array_piece, array_type_piece};
ghost use Rattle.isle_prelude.specs.TypePieces.{arrays_piece};
ghost use Rattle.isle_prelude.specs.TypePieces.{block_array_piece, empty_tail, function_piece};
ghost use Rattle.isle_prelude.specs.TypePieces.{item_piece};
ghost use Rattle.isle_prelude.specs.TypePieces.{items_piece, made_head, taken_head};
ghost use Rattle.isle_prelude.specs.TypePieces.{value_array_piece};

use crate::pieces::push_then_numbered;
use isle_meta::InstructionFormat;
use isle_printer::push_two;
use std::alloc::{AllocError, Global};
use std::collections::BTreeSet;

// An array: how its term and its type begin, in front of the size, what it holds, and how many.
#[derive(Drop)]
struct Array<'t> {
    term: &'t str,
    array_type: &'t str,
    item: &'t str,
    size: usize,
}

// How many values the instructions of a format hold in an array.
fn value_array_size(format: &InstructionFormat) -> Option<usize>
    ensures { result ≡ value_array_size format.now }
{
    if format.typevar_operand.is_none() || format.has_value_list || format.num_value_operands == 1 {
        return None;
    }
    Some(format.num_value_operands)
}

// The number, if it is not 0 or 1.
fn above_one(n: usize) -> Option<usize>
    ensures { result ≡ above_one n }
{
    if n == 0 {
        return None;
    }
    if n == 1 {
        return None;
    }
    Some(n)
}

// Puts a number into a set, if there is one and it isn't there.
fn put(sizes: &mut BTreeSet<usize>, size: Option<usize>) -> Result<(), AllocError>
    ensures { OnOk result (sizes.new.keys ≡ with_size sizes.old.keys size) }
{
    if let Some(n) = size {
        let _is_new = sizes.insert(n)?;
    }
    Ok(())
}

// The sizes of arrays of values.
fn value_array_sizes(
    alloc: Global,
    formats: &[InstructionFormat],
) -> Result<BTreeSet<usize>, AllocError>
    ensures { IfOk result (λ sizes. sizes.keys ≡ value_array_sizes formats.now) }
{
    let mut sizes = BTreeSet::new(alloc);
    for format in formats {
        put(&mut sizes, value_array_size(format))?;
    }
    Ok(sizes)
}

// The sizes of arrays of blocks.
fn block_array_sizes(
    alloc: Global,
    formats: &[InstructionFormat],
) -> Result<BTreeSet<usize>, AllocError>
    ensures { IfOk result (λ sizes. sizes.keys ≡ block_array_sizes formats.now) }
{
    let mut sizes = BTreeSet::new(alloc);
    for format in formats {
        put(&mut sizes, above_one(format.num_block_operands))?;
    }
    Ok(sizes)
}

// Appends an item behind so many others, with a blank between them.
fn push_item(text: &mut String, before: usize, item: &str) -> Result<(), AllocError>
    ensures { OnOk result
        (string_bytes text.new ≡ string_bytes text.old ++ item_piece before item.now) }
{
    match before {
        0 => text.push_str(item),
        _ => push_two(text, " ", item),
    }
}

// Appends an item so many times, with blanks between them.
fn push_items(text: &mut String, n: usize, item: &str) -> Result<(), AllocError>
    ensures { OnOk result
        (string_bytes text.new ≡ string_bytes text.old ++ items_piece n item.now) }
{
    for index in 0..n {
        push_item(text, index, item)?;
    }
    Ok(())
}

// How the type of an array ends.
#[tactic(auto, unfolding(crate::specs::TypePieces::empty_tail))]
fn empty_tail() -> &'static str
    ensures { result.now ≡ empty_tail }
{
    " extern (enum))\n"
}

// Appends the type of an array.
fn push_array_type(text: &mut String, array: &Array<'_>) -> Result<(), AllocError>
    ensures { OnOk result
        (string_bytes text.new
        ≡ string_bytes text.old ++ array_type_piece array.now.array_type.now array.now.size) }
{
    push_then_numbered(text, "(type ", array.array_type, array.size)?;
    text.push_str(empty_tail())
}

// Appends the declaration of an array's term.
fn push_array_decl(text: &mut String, array: &Array<'_>) -> Result<(), AllocError>
    ensures { OnOk result
        (string_bytes text.new
        ≡ string_bytes text.old
        ++ array_decl_piece array.now.term.now array.now.array_type.now array.now.item.now
        array.now.size) }
{
    push_then_numbered(text, "(decl ", array.term, array.size)?;
    text.push_str(" (")?;
    push_items(text, array.size, array.item)?;
    push_then_numbered(text, ") ", array.array_type, array.size)?;
    text.push_str(")\n")
}

// What stands before a term that a function makes.
#[tactic(auto, unfolding(crate::specs::TypePieces::made_head))]
fn made_head() -> &'static str
    ensures { result.now ≡ made_head }
{
    "(extern constructor "
}

// What stands before a term that a function always takes apart.
#[tactic(auto, unfolding(crate::specs::TypePieces::taken_head))]
fn taken_head() -> &'static str
    ensures { result.now ≡ taken_head }
{
    "(extern extractor infallible "
}

// Appends a function for an array's term.
fn push_function(
    text: &mut String,
    head: &str,
    before: &str,
    array: &Array<'_>,
) -> Result<(), AllocError>
    ensures { OnOk result
        (string_bytes text.new
        ≡ string_bytes text.old
        ++ function_piece head.now before.now array.now.term.now array.now.size) }
{
    push_then_numbered(text, head, array.term, array.size)?;
    push_then_numbered(text, before, array.term, array.size)?;
    text.push_str(")\n")
}

// Appends an array.
#[tactic(auto, unfolding(crate::specs::TypePieces::array_piece))]
fn push_array(text: &mut String, array: &Array<'_>) -> Result<(), AllocError>
    ensures { OnOk result
        (string_bytes text.new
        ≡ string_bytes text.old
        ++ array_piece array.now.term.now array.now.array_type.now array.now.item.now
        array.now.size) }
{
    push_array_type(text, array)?;
    push_array_decl(text, array)?;
    push_function(text, made_head(), " pack_", array)?;
    push_function(text, taken_head(), " unpack_", array)
}

// Appends an array of so many values.
#[tactic(auto, unfolding(crate::specs::TypePieces::value_array_piece))]
fn push_value_array(text: &mut String, size: usize) -> Result<(), AllocError>
    ensures { OnOk result
        (string_bytes text.new ≡ string_bytes text.old ++ value_array_piece size) }
{
    let array = Array {
        term: "value_array_",
        array_type: "ValueArray",
        item: "Value",
        size,
    };
    push_array(text, &array)
}

// Appends an array of so many blocks with their arguments.
#[tactic(auto, unfolding(crate::specs::TypePieces::block_array_piece))]
fn push_block_array(text: &mut String, size: usize) -> Result<(), AllocError>
    ensures { OnOk result
        (string_bytes text.new ≡ string_bytes text.old ++ block_array_piece size) }
{
    let array = Array {
        term: "block_array_",
        array_type: "BlockArray",
        item: "BlockCall",
        size,
    };
    push_array(text, &array)
}

// Appends arrays of values of these sizes.
fn push_value_sizes(text: &mut String, sizes: &BTreeSet<usize>) -> Result<(), AllocError>
    ensures { OnOk result
        (string_bytes text.new
        ≡ string_bytes text.old ++ flat_map value_array_piece sizes.now.keys) }
{
    for size in sizes {
        push_value_array(text, *size)?;
    }
    Ok(())
}

// Appends arrays of blocks of these sizes.
fn push_block_sizes(text: &mut String, sizes: &BTreeSet<usize>) -> Result<(), AllocError>
    ensures { OnOk result
        (string_bytes text.new
        ≡ string_bytes text.old ++ flat_map block_array_piece sizes.now.keys) }
{
    for size in sizes {
        push_block_array(text, *size)?;
    }
    Ok(())
}

// Appends the arrays of values that the instructions of formats use.
fn push_value_arrays(
    alloc: Global,
    text: &mut String,
    formats: &[InstructionFormat],
) -> Result<(), AllocError>
    ensures { OnOk result
        (string_bytes text.new
        ≡ string_bytes text.old ++ flat_map value_array_piece (value_array_sizes formats.now)) }
{
    let sizes = value_array_sizes(alloc, formats)?;
    push_value_sizes(text, &sizes)
}

// Appends the arrays of blocks that the instructions of formats use.
fn push_block_arrays(
    alloc: Global,
    text: &mut String,
    formats: &[InstructionFormat],
) -> Result<(), AllocError>
    ensures { OnOk result
        (string_bytes text.new
        ≡ string_bytes text.old ++ flat_map block_array_piece (block_array_sizes formats.now)) }
{
    let sizes = block_array_sizes(alloc, formats)?;
    push_block_sizes(text, &sizes)
}

/// Appends all arrays that the instructions of formats use. The only error is want of memory.
pub fn push_arrays(
    alloc: Global,
    text: &mut String,
    formats: &[InstructionFormat],
) -> Result<(), AllocError>
    ensures { OnOk result
        (string_bytes text.new ≡ string_bytes text.old ++ arrays_piece formats.now) }
{
    push_value_arrays(alloc, text, formats)?;
    push_block_arrays(alloc, text, formats)
}
