//! The tables of items: each format by its place.

ghost use Rattle.std.specs.Prelude.{◌≡◌, ◌++◌, ℕ, List, Some, Err, IfOk, OnOk};
ghost use Rattle.isle_tables.specs.FormatNames.{at_name};
ghost use Rattle.isle_tables.specs.Resolved.{gathered, format_in, row_in, x64_in, op_in, ext_op_in};
ghost use Rattle.isle_tables.specs.Resolved.{first_place, at_format, resolved, first_lost};
ghost use Rattle.isle_tables.specs.Resolved.{tables_of, lost_of};
ghost use Rattle.isle_tables.specs.declared.fail.TablesFail.TheVariants.{At};

use crate::fail::TablesFail;
use crate::item::{InstRow, Item};
use isle_core::List;
use isle_meta::{Inst, Instruction, InstructionFormat, PulleyInst, Tables};
use std::alloc::{AllocError, Global};
use std::collections::BTreeMap;

/// Items by their kinds, each kind in order.
#[derive(Drop)]
struct Rows {
    formats: Vec<InstructionFormat>,
    instructions: Vec<InstRow>,
    x64: Vec<Inst>,
    ops: Vec<PulleyInst>,
    extended_ops: Vec<PulleyInst>,
}

// Adds an item to those of its kind.
fn add(rows: &mut Rows, item: Item) -> Result<(), AllocError>
    ensures formats { OnOk result
        (rows.new.formats.items ≡ rows.old.formats.items ++ format_in item) }
    ensures instructions { OnOk result
        (rows.new.instructions.items ≡ rows.old.instructions.items ++ row_in item) }
    ensures x64 { OnOk result (rows.new.x64.items ≡ rows.old.x64.items ++ x64_in item) }
    ensures ops { OnOk result (rows.new.ops.items ≡ rows.old.ops.items ++ op_in item) }
    ensures extended_ops { OnOk result
        (rows.new.extended_ops.items ≡ rows.old.extended_ops.items ++ ext_op_in item) }
{
    match item {
        Item::Format(format) => rows.formats.push(format)?,
        Item::Inst(inst) => rows.instructions.push(inst)?,
        Item::X64(inst) => rows.x64.push(inst)?,
        Item::Op(inst) => rows.ops.push(inst)?,
        Item::ExtOp(inst) => rows.extended_ops.push(inst)?,
    }
    Ok(())
}

// The items by their kinds.
fn rows_of(alloc: Global, items: Vec<Item>) -> Result<Rows, AllocError>
    ensures formats { IfOk result (λ rows.
        rows.formats.items ≡ gathered format_in items.items) }
    ensures instructions { IfOk result (λ rows.
        rows.instructions.items ≡ gathered row_in items.items) }
    ensures x64 { IfOk result (λ rows. rows.x64.items ≡ gathered x64_in items.items) }
    ensures ops { IfOk result (λ rows. rows.ops.items ≡ gathered op_in items.items) }
    ensures extended_ops { IfOk result (λ rows.
        rows.extended_ops.items ≡ gathered ext_op_in items.items) }
{
    let mut rows = Rows {
        formats: Vec::new(alloc),
        instructions: Vec::new(alloc),
        x64: Vec::new(alloc),
        ops: Vec::new(alloc),
        extended_ops: Vec::new(alloc),
    };
    for item in items {
        add(&mut rows, item)?;
    }
    Ok(rows)
}

// The first place of each name of a format.
fn places<'f>(
    alloc: Global,
    formats: &'f [InstructionFormat],
) -> Result<BTreeMap<&'f str, usize>, AllocError>
    ensures { IfOk result (λ found.
        (name : List ℕ) → at_name found name ≡ first_place formats.now name) }
{
    let mut found = BTreeMap::new(alloc);
    for index in (0..formats.len()).rev() {
        found.insert(formats[index].name.as_str(), index)?;
    }
    Ok(found)
}

// The instruction whose format has that place.
fn at_format(row: InstRow, place: usize) -> Instruction
    ensures { result ≡ at_format row place }
{
    Instruction {
        name: row.name,
        camel_name: row.camel_name,
        format: place,
        operands_in: row.operands_in,
        value_results: row.value_results,
        can_trap: row.can_trap,
        other_side_effects: row.other_side_effects,
    }
}

// The instructions of rows, each with the place of its format.
fn instructions(
    alloc: Global,
    formats: &[InstructionFormat],
    rows: Vec<InstRow>,
) -> Result<Vec<Instruction>, TablesFail>
    ensures found { IfOk result (λ read. resolved formats.now rows.items ≡ Some read.items) }
    ensures lost { (at : ℕ) → result ≡ Err (At at) → first_lost formats.now rows.items ≡ Some at }
{
    let places = places(alloc, formats)?;
    let mut instructions = Vec::new(alloc);
    for row in rows {
        match places.get(row.format.as_str()) {
            Some(place) => instructions.push(at_format(row, *place))?,
            None => return Err(TablesFail::At(row.format_at)),
        }
    }
    Ok(instructions)
}

/// Returns the tables of items, or the place of the first name of a format that is none.
pub fn tables(alloc: Global, items: Vec<Item>) -> Result<Tables, TablesFail>
    ensures found { IfOk result (λ t. tables_of items.items ≡ Some t) }
    ensures lost { (at : ℕ) → result ≡ Err (At at) → lost_of items.items ≡ Some at }
{
    let Rows {
        formats,
        instructions: rows,
        x64,
        ops,
        extended_ops,
    } = rows_of(alloc, items)?;
    let instructions = instructions(alloc, formats.as_slice(), rows)?;
    Ok(Tables {
        formats: List::new(formats),
        instructions: List::new(instructions),
        x64: List::new(x64),
        ops: List::new(ops),
        extended_ops: List::new(extended_ops),
    })
}
