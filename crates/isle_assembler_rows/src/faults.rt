//! Which shapes an instruction breaks.

ghost use Rattle.std.specs.Prelude.{◌≡◌, ◌↔◌, ◌++◌, List, ℕ, IfOk, OnOk, IsTrue, filter, find};
ghost use Rattle.std.specs.List.{list_any};
ghost use Rattle.isle_meta.specs.declared.machine.Inst.{Inst as InstOf};
ghost use Rattle.isle_meta.specs.declared.machine.Operand.{Operand as OperandOf};
ghost use Rattle.isle_meta.specs.FirstRow.{shapes};
ghost use Rattle.isle_meta.specs.TableNames.{repeats, repeats_after, texts};
ghost use Rattle.isle_assembler_rows.specs.AssemblerRow as Row;
ghost use Rattle.isle_assembler_rows.specs.AssemblerRows.{AssemblerBreaks};
ghost use Rattle.isle_assembler_rows.specs.Operands.{is_of_xmm, lent, locations};
ghost use Rattle.isle_assembler_rows.specs.TermNames.{row_terms};
ghost use Rattle.isle_assembler_rows.specs.Told.{Tells, listed, told};

use crate::constructors::{Chosen, constructors_of};
use crate::operands::{is_imm, is_mem, is_of_xmm, is_raw, is_read, is_reg_mem, is_written};
use crate::term_names::is_left_out;
use isle_meta::{Inst, Operand, Shape, are_all_identifiers, has_repeat};
use std::alloc::{AllocError, Global};

/// Which shapes an instruction breaks. The other shapes are those of other rows.
#[derive(Clone, Copy)]
pub struct Faults {
    pub bad_name: bool,
    pub repeated_name: bool,
    pub written_imm: bool,
    pub aligned_mem: bool,
    pub written_operands: bool,
    pub implicit_operand: bool,
    pub alternate_without_xmm: bool,
}

/// Returns the first shape that is broken.
pub fn first_shape(faults: &Faults) -> Option<Shape>
    ensures { result ≡ find (told faults.now) shapes }
{
    if faults.bad_name {
        Some(Shape::BadName)
    } else if faults.repeated_name {
        Some(Shape::RepeatedName)
    } else if faults.written_imm {
        Some(Shape::WrittenImm)
    } else if faults.aligned_mem {
        Some(Shape::AlignedMem)
    } else if faults.written_operands {
        Some(Shape::WrittenOperands)
    } else if faults.implicit_operand {
        Some(Shape::ImplicitOperand)
    } else if faults.alternate_without_xmm {
        Some(Shape::AlternateWithoutXmm)
    } else {
        None
    }
}

// Puts the names of operands behind names.
fn push_locations<'t>(names: &mut Vec<&'t str>, operands: &'t [Operand]) -> Result<(), AllocError>
    ensures { OnOk result
        (texts names.new.items ≡ texts names.old.items ++ locations operands.now) }
{
    for operand in operands {
        names.push(operand.location.as_str())?;
    }
    Ok(())
}

// The names of a row: its own, its operands' and its alternate's.
fn row_names(alloc: Global, inst: &Inst) -> Result<Vec<&str>, AllocError>
    ensures { IfOk result (λ names. texts names.items ≡ Row.row_names inst.now) }
{
    let mut names = Vec::new(alloc);
    names.push(inst.name.as_str())?;
    push_locations(&mut names, inst.operands.as_slice())?;
    if let Some(alternate) = inst.alternate.as_ref() {
        names.push(alternate.name.as_str())?;
        names.push(alternate.feature.as_str())?;
    }
    Ok(names)
}

// The names of its operands; a trap's code is one.
fn operand_names(alloc: Global, inst: &Inst) -> Result<Vec<&str>, AllocError>
    ensures { IfOk result (λ names. texts names.items ≡ Row.operand_names inst.now) }
{
    let mut names = Vec::new(alloc);
    push_locations(&mut names, inst.operands.as_slice())?;
    if inst.has_trap {
        names.push("trap")?;
    }
    Ok(names)
}

// Whether one of its names is no identifier.
fn has_bad_name(alloc: Global, inst: &Inst) -> Result<bool, AllocError>
    ensures { IfOk result (λ bad. IsTrue bad ↔ Row.BadName inst.now) }
{
    let names = row_names(alloc, inst)?;
    Ok(!are_all_identifiers(names.as_slice()))
}

// Whether two of its operands have one name.
fn has_repeated_operand(alloc: Global, inst: &Inst) -> Result<bool, AllocError>
    ensures { IfOk result (λ found. found ≡ repeats (Row.operand_names inst.now)) }
{
    let names = operand_names(alloc, inst)?;
    has_repeat(alloc, names.as_slice())
}

// Whether one of the operands is an immediate that is written.
fn has_written_imm(operands: &[Operand]) -> bool
    ensures { result ≡ list_any Row.is_written_imm operands.now }
{
    for operand in operands {
        if is_written(operand.mutability) && is_imm(operand.kind) {
            return true;
        }
    }
    false
}

// Whether one of the operands is a place in memory that must be aligned.
fn has_aligned_mem(operands: &[Operand]) -> bool
    ensures { result ≡ list_any Row.is_aligned_mem operands.now }
{
    for operand in operands {
        if operand.align && is_mem(operand.kind) {
            return true;
        }
    }
    false
}

// Whether one of the operands is of the class of vector registers.
fn has_xmm(operands: &[Operand]) -> bool
    ensures { result ≡ list_any (λ (o : OperandOf). is_of_xmm o.kind) operands.now }
{
    for operand in operands {
        if is_of_xmm(operand.kind) {
            return true;
        }
    }
    false
}

// An operand that the raw term takes though it isn't read.
fn is_hidden(operand: &Operand) -> bool
    ensures { result ≡ Row.is_hidden operand.now }
{
    is_raw(operand) && !is_read(operand.mutability)
}

// Those operands.
fn hidden_operands<'t>(
    alloc: Global,
    operands: &'t [Operand],
) -> Result<Vec<&'t Operand>, AllocError>
    ensures { IfOk result (λ found. lent found.items ≡ filter Row.is_hidden operands.now) }
{
    let mut found = Vec::new(alloc);
    for operand in operands {
        if is_hidden(operand) {
            found.push(operand)?;
        }
    }
    Ok(found)
}

// Whether there are more of them than a new register can stand for.
fn hides_too_much(hidden: &[&Operand]) -> bool
    ensures { result ≡ Row.hides_too_much (lent hidden.now) }
{
    match hidden {
        [] => false,
        [one] => !is_reg_mem(one.kind),
        [_, _, ..] => true,
    }
}

// Whether operands hide more than a new register can stand for.
fn hide_too_much(alloc: Global, operands: &[Operand]) -> Result<bool, AllocError>
    ensures { IfOk result (λ found.
        found ≡ Row.hides_too_much (filter Row.is_hidden operands.now)) }
{
    let hidden = hidden_operands(alloc, operands)?;
    Ok(hides_too_much(hidden.as_slice()))
}

// Whether there is no constructor.
fn is_none(chosen: Chosen) -> bool
    ensures { result ≡ Row.is_none_of (listed chosen) }
{
    chosen.outside.is_none() && !chosen.in_memory
}

// Whether a constructor leaves no result in memory.
fn has_value(chosen: Chosen) -> bool
    ensures { result ≡ Row.has_value (listed chosen) }
{
    match chosen.outside {
        Some(c) => !c.is_in_memory(),
        None => false,
    }
}

/// Tells which shapes an instruction breaks, of whose terms it is known whether one repeats an earlier one. The only
/// error is want of memory.
pub fn row_faults(alloc: Global, inst: &Inst, repeated_term: bool) -> Result<Faults, AllocError>
    ensures { (earlier : List (List ℕ)) (before : List InstOf)
        → repeated_term ≡ repeats_after (earlier ++ Row.all_terms before) (row_terms inst.now)
        → IfOk result (λ faults. Tells faults (AssemblerBreaks earlier before inst.now)) }
{
    let bad_name = has_bad_name(alloc, inst)?;
    let repeated_operand = has_repeated_operand(alloc, inst)?;
    let chosen = constructors_of(alloc, inst)?;
    let operands = inst.operands.as_slice();
    let hide = hide_too_much(alloc, operands)?;
    let taken = !is_left_out(inst);
    Ok(Faults {
        bad_name,
        repeated_name: repeated_operand | repeated_term,
        written_imm: taken & has_written_imm(operands),
        aligned_mem: taken & has_aligned_mem(operands),
        written_operands: taken & is_none(chosen),
        implicit_operand: taken & (has_value(chosen) & hide),
        alternate_without_xmm: taken & (inst.alternate.is_some() & !has_xmm(operands)),
    })
}
