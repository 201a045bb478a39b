//! The operands of an instruction.

ghost use Rattle.std.specs.Prelude.{◌≡◌, IfOk};
ghost use Rattle.isle_assembler_rows.specs.Operands.{is_fixed, is_gpr, is_gpr_register, is_imm};
ghost use Rattle.isle_assembler_rows.specs.Operands.{is_mem, is_of_xmm, is_raw, is_read};
ghost use Rattle.isle_assembler_rows.specs.Operands.{is_reg_mem, is_register, is_written, is_xmm};
ghost use Rattle.isle_assembler_rows.specs.Operands.{lent, may_be_memory, written_operands};

use isle_meta::{Inst, Mutability, Operand, OperandKind, RegClass};
use std::alloc::{AllocError, Global};

/// Tells whether an operand is read.
pub fn is_read(mutability: Mutability) -> bool
    ensures { result ≡ is_read mutability }
{
    match mutability {
        Mutability::Read | Mutability::ReadWrite => true,
        Mutability::Write => false,
    }
}

/// Tells whether an operand is written.
pub fn is_written(mutability: Mutability) -> bool
    ensures { result ≡ is_written mutability }
{
    match mutability {
        Mutability::Read => false,
        Mutability::ReadWrite | Mutability::Write => true,
    }
}

/// Tells whether an operand is a register, fixed or not.
pub fn is_register(kind: OperandKind) -> bool
    ensures { result ≡ is_register kind }
{
    match kind {
        OperandKind::Reg(_) | OperandKind::FixedReg(_) => true,
        OperandKind::Imm | OperandKind::RegMem(_) | OperandKind::Mem => false,
    }
}

/// Tells whether an operand is a fixed register.
pub fn is_fixed(kind: OperandKind) -> bool
    ensures { result ≡ is_fixed kind }
{
    match kind {
        OperandKind::FixedReg(_) => true,
        OperandKind::Imm | OperandKind::Reg(_) | OperandKind::RegMem(_) | OperandKind::Mem => false,
    }
}

/// Tells whether an operand is a register or a place in memory.
pub fn is_reg_mem(kind: OperandKind) -> bool
    ensures { result ≡ is_reg_mem kind }
{
    match kind {
        OperandKind::RegMem(_) => true,
        OperandKind::Imm | OperandKind::Reg(_) => false,
        OperandKind::FixedReg(_) | OperandKind::Mem => false,
    }
}

/// Tells whether an operand is a place in memory and nothing else.
pub fn is_mem(kind: OperandKind) -> bool
    ensures { result ≡ is_mem kind }
{
    match kind {
        OperandKind::Mem => true,
        OperandKind::Imm | OperandKind::Reg(_) => false,
        OperandKind::FixedReg(_) | OperandKind::RegMem(_) => false,
    }
}

/// Tells whether an operand may be a place in memory.
pub fn may_be_memory(kind: OperandKind) -> bool
    ensures { result ≡ may_be_memory kind }
{
    is_reg_mem(kind) || is_mem(kind)
}

/// Tells whether an operand is an immediate.
pub fn is_imm(kind: OperandKind) -> bool
    ensures { result ≡ is_imm kind }
{
    match kind {
        OperandKind::Imm => true,
        OperandKind::Reg(_) | OperandKind::FixedReg(_) => false,
        OperandKind::RegMem(_) | OperandKind::Mem => false,
    }
}

// Whether a class is that of general registers.
fn is_gpr(class: RegClass) -> bool
    ensures { result ≡ is_gpr class }
{
    match class {
        RegClass::Gpr => true,
        RegClass::Xmm => false,
    }
}

// Whether a class is that of vector registers.
fn is_xmm(class: RegClass) -> bool
    ensures { result ≡ is_xmm class }
{
    match class {
        RegClass::Gpr => false,
        RegClass::Xmm => true,
    }
}

/// Tells whether an operand is a general register, fixed or not.
pub fn is_gpr_register(kind: OperandKind) -> bool
    ensures { result ≡ is_gpr_register kind }
{
    match kind {
        OperandKind::Reg(class) | OperandKind::FixedReg(class) => is_gpr(class),
        OperandKind::Imm | OperandKind::RegMem(_) | OperandKind::Mem => false,
    }
}

/// Tells whether an operand is of the class of vector registers.
pub fn is_of_xmm(kind: OperandKind) -> bool
    ensures { result ≡ is_of_xmm kind }
{
    match kind {
        OperandKind::Reg(class) => is_xmm(class),
        OperandKind::FixedReg(class) => is_xmm(class),
        OperandKind::RegMem(class) => is_xmm(class),
        OperandKind::Imm | OperandKind::Mem => false,
    }
}

/// Tells whether the raw term takes the operand.
pub fn is_raw(operand: &Operand) -> bool
    ensures { result ≡ is_raw operand.now }
{
    is_read(operand.mutability) || may_be_memory(operand.kind)
}

/// Gives the operands that an instruction writes. The only error is want of memory.
pub fn written(alloc: Global, inst: &Inst) -> Result<Vec<&Operand>, AllocError>
    ensures { IfOk result (λ written. lent written.items ≡ written_operands inst.now) }
{
    let mut written = Vec::new(alloc);
    for operand in inst.operands.as_slice() {
        if is_written(operand.mutability) {
            written.push(operand)?;
        }
    }
    Ok(written)
}
