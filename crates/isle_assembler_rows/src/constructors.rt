//! Which constructors an instruction has.

ghost use Rattle.std.specs.Prelude.{◌≡◌, IfOk};
ghost use Rattle.std.specs.Option.{option_to_list};
ghost use Rattle.isle_assembler_rows.specs.Constructors.{constructors, is_free_gpr};
ghost use Rattle.isle_assembler_rows.specs.Constructors.{is_gpr_beside_memory, of_none, of_one};
ghost use Rattle.isle_assembler_rows.specs.Constructors.{of_register, of_three, of_two, of_written};
ghost use Rattle.isle_assembler_rows.specs.Operands.{lent};
ghost use Rattle.isle_assembler_rows.specs.Told.{listed};

use crate::constructor::Constructor;
use crate::operands::{is_fixed, is_gpr_register, is_mem, is_register, may_be_memory, written};
use isle_meta::{Inst, Operand, OperandKind, RegClass};
use std::alloc::{AllocError, Global};

/// The constructors of an instruction: one that leaves no result in memory, and whether there is the one that does.
#[derive(Clone, Copy)]
pub struct Chosen {
    pub outside: Option<Constructor>,
    pub in_memory: bool,
}

// One that leaves no result in memory, or none.
fn outside(outside: Option<Constructor>) -> Chosen
    ensures { listed result ≡ option_to_list outside }
{
    Chosen {
        outside,
        in_memory: false,
    }
}

// The constructor of no written operand.
fn of_none(writes_flags: bool) -> Option<Constructor>
    ensures { option_to_list result ≡ of_none writes_flags }
{
    if writes_flags {
        Some(Constructor::ProducesFlagsSideEffect)
    } else {
        Some(Constructor::NoReturnSideEffect)
    }
}

// The constructor of a register.
fn of_register(reads_flags: bool, class: RegClass) -> Option<Constructor>
    ensures { option_to_list result ≡ of_register reads_flags class }
{
    match class {
        RegClass::Gpr if reads_flags => Some(Constructor::ConsumesFlagsReturnsGpr),
        RegClass::Gpr => Some(Constructor::RetGpr),
        RegClass::Xmm if reads_flags => None,
        RegClass::Xmm => Some(Constructor::RetXmm),
    }
}

// The constructors of one operand.
fn of_one(reads_flags: bool, kind: OperandKind) -> Chosen
    ensures { listed result ≡ of_one reads_flags kind }
{
    match kind {
        OperandKind::Imm => outside(None),
        OperandKind::Reg(class) => outside(of_register(reads_flags, class)),
        OperandKind::FixedReg(class) => outside(of_register(reads_flags, class)),
        OperandKind::RegMem(class) => Chosen {
            outside: of_register(reads_flags, class),
            in_memory: !reads_flags,
        },
        OperandKind::Mem => Chosen {
            outside: None,
            in_memory: !reads_flags,
        },
    }
}

// A general register that isn't fixed.
fn is_free_gpr(kind: OperandKind) -> bool
    ensures { result ≡ is_free_gpr kind }
{
    is_gpr_register(kind) && !is_fixed(kind)
}

// One general register beside a place in memory.
fn is_gpr_beside_memory(first: OperandKind, second: OperandKind) -> bool
    ensures { result ≡ is_gpr_beside_memory first second }
{
    (is_free_gpr(first) && is_mem(second)) || (may_be_memory(first) && is_gpr_register(second))
}

// The constructor of two operands.
fn of_two(first: OperandKind, second: OperandKind) -> Option<Constructor>
    ensures { option_to_list result ≡ of_two first second }
{
    if is_register(first) && is_register(second) {
        return Some(Constructor::RetValueRegs);
    }
    if is_gpr_beside_memory(first, second) {
        return Some(Constructor::RetGpr);
    }
    None
}

// The constructor of three operands.
fn of_three(first: OperandKind, second: OperandKind, third: OperandKind) -> Option<Constructor>
    ensures { option_to_list result ≡ of_three first second third }
{
    if is_fixed(first) && is_fixed(second) && is_mem(third) {
        return Some(Constructor::RetValueRegs);
    }
    None
}

// The constructors of an instruction that writes these operands.
fn of_written(reads_flags: bool, writes_flags: bool, written: &[&Operand]) -> Chosen
    ensures { listed result ≡ of_written reads_flags writes_flags (lent written.now) }
{
    match written {
        [] => outside(of_none(writes_flags)),
        [a] => of_one(reads_flags, a.kind),
        [a, b] if !reads_flags => outside(of_two(a.kind, b.kind)),
        [a, b, c] if !reads_flags => outside(of_three(a.kind, b.kind, c.kind)),
        [_, _] | [_, _, _] | [_, _, _, _, ..] => outside(None),
    }
}

/// Gives the constructors of an instruction. The only error is want of memory.
pub fn constructors_of(alloc: Global, inst: &Inst) -> Result<Chosen, AllocError>
    ensures { IfOk result (λ found. listed found ≡ constructors inst.now) }
{
    let written = written(alloc, inst)?;
    Ok(of_written(inst.reads_flags, inst.writes_flags, written.as_slice()))
}
