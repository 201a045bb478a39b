//! How a method of the macro turns operands into those of the assembler.

ghost use Rattle.std.specs.Prelude.{◌≡◌, ◌++◌, OnOk, string_bytes};
ghost use Rattle.isle_assembler.specs.Conversions.{access_word, aligned_word, assembler};
ghost use Rattle.isle_assembler.specs.Conversions.{class_maker, class_word};
ghost use Rattle.isle_assembler.specs.Conversions.{converted, fixed_register, immediate, memory};
ghost use Rattle.isle_assembler.specs.Conversions.{new_register, read_write, reg_mem, register};
ghost use Rattle.isle_assembler.specs.Conversions.{wrapped};

use crate::pieces::push_pieces;
use crate::signature::push_bits;
use isle_meta::{Mutability, Operand, OperandKind, RegClass};
use std::alloc::AllocError;

/// Returns the crate of the assembler's types.
#[tactic(auto, unfolding(crate::specs::Conversions::assembler))]
pub fn assembler<'w>() -> &'w str
    ensures { result.now ≡ assembler }
{
    "cranelift_assembler_x64::"
}

/// Returns a class of registers as it stands in names of methods.
pub fn class_word<'w>(class: RegClass) -> &'w str
    ensures { result.now ≡ class_word class }
{
    match class {
        RegClass::Gpr => "gpr",
        RegClass::Xmm => "xmm",
    }
}

// What is done with an operand, in names of methods.
fn access_word<'w>(mutability: Mutability) -> &'w str
    ensures { result.now ≡ access_word mutability }
{
    match mutability {
        Mutability::Read => "read",
        Mutability::ReadWrite => "read_write",
        Mutability::Write => "write",
    }
}

// A new register of a class.
#[tactic(auto, unfolding(crate::specs::Conversions::new_register))]
fn new_register<'w>(class: RegClass) -> &'w str
    ensures { result.now ≡ new_register class }
{
    match class {
        RegClass::Gpr => "self.temp_writable_gpr()",
        RegClass::Xmm => "self.temp_writable_xmm()",
    }
}

// Appends a register that a method of this name turns into one that is read and written.
fn push_read_write(
    text: &mut String,
    name: &str,
    class: RegClass,
    x: &str,
) -> Result<(), AllocError>
    ensures { OnOk result
        (string_bytes text.new ≡ string_bytes text.old ++ read_write name.now class x.now) }
{
    push_pieces(
        text,
        &[
            "self.convert_",
            class_word(class),
            "_to_assembler_",
            name,
            class_word(class),
            "(",
            x,
            ")",
        ],
    )
}

// The assembler's type of registers of a class, as a function.
#[tactic(auto, unfolding(crate::specs::Conversions::class_maker))]
fn class_maker<'w>(class: RegClass) -> &'w str
    ensures { result.now ≡ class_maker class }
{
    match class {
        RegClass::Gpr => "Gpr::new",
        RegClass::Xmm => "Xmm::new",
    }
}

// Appends a register wrapped into the assembler's type.
#[tactic(auto, unfolding(crate::specs::Conversions::wrapped))]
fn push_wrapped(text: &mut String, name: &str, inner: &str) -> Result<(), AllocError>
    ensures { OnOk result
        (string_bytes text.new ≡ string_bytes text.old ++ wrapped name.now inner.now) }
{
    push_pieces(text, &[assembler(), name, "(", inner, ")"])
}

// Appends a register.
fn push_register(
    text: &mut String,
    class: RegClass,
    mutability: Mutability,
    x: &str,
) -> Result<(), AllocError>
    ensures { OnOk result
        (string_bytes text.new ≡ string_bytes text.old ++ register class mutability x.now) }
{
    match mutability {
        Mutability::Read => push_wrapped(text, class_maker(class), x),
        Mutability::ReadWrite => push_read_write(text, "read_write_", class, x),
        Mutability::Write => push_wrapped(text, class_maker(class), new_register(class)),
    }
}

// Appends a fixed register.
fn push_fixed_register(
    text: &mut String,
    class: RegClass,
    mutability: Mutability,
    x: &str,
) -> Result<(), AllocError>
    ensures { OnOk result
        (string_bytes text.new ≡ string_bytes text.old ++ fixed_register class mutability x.now) }
{
    match mutability {
        Mutability::Read => push_wrapped(text, "Fixed", x),
        Mutability::ReadWrite => push_read_write(text, "fixed_read_write_", class, x),
        Mutability::Write => push_wrapped(text, "Fixed", new_register(class)),
    }
}

// Appends an immediate.
#[tactic(auto, unfolding(crate::specs::Conversions::immediate))]
fn push_immediate(text: &mut String, operand: &Operand) -> Result<(), AllocError>
    ensures { OnOk result (string_bytes text.new ≡ string_bytes text.old ++ immediate operand.now) }
{
    text.push_str(assembler())?;
    text.push_str(if operand.sign_extended { "Simm" } else { "Imm" })?;
    push_bits(text, operand)?;
    push_pieces(text, &["::new(", operand.location.as_str(), ")"])
}

// What a method's name says of a place in memory that must be aligned.
fn aligned_word<'w>(align: bool) -> &'w str
    ensures { result.now ≡ aligned_word align }
{
    if align { "_aligned" } else { "" }
}

// Appends a register or a place in memory.
fn push_reg_mem(text: &mut String, class: RegClass, operand: &Operand) -> Result<(), AllocError>
    ensures { OnOk result
        (string_bytes text.new ≡ string_bytes text.old ++ reg_mem class operand.now) }
{
    push_pieces(
        text,
        &[
            "self.convert_",
            class_word(class),
            "_mem_to_assembler_",
            access_word(operand.mutability),
            "_",
            class_word(class),
            "_mem",
            aligned_word(operand.align),
            "(",
            operand.location.as_str(),
            ")",
        ],
    )
}

// Appends a place in memory.
fn push_memory(text: &mut String, operand: &Operand) -> Result<(), AllocError>
    ensures { OnOk result (string_bytes text.new ≡ string_bytes text.old ++ memory operand.now) }
{
    let place = operand.location.as_str();
    push_pieces(
        text,
        &["self.convert_amode_to_assembler_amode(", place, ")"],
    )
}

/// Appends an operand turned into one of the assembler. The only error is want of memory.
pub fn push_converted(text: &mut String, operand: &Operand) -> Result<(), AllocError>
    ensures { OnOk result (string_bytes text.new ≡ string_bytes text.old ++ converted operand.now) }
{
    let x = operand.location.as_str();
    match operand.kind {
        OperandKind::Imm => push_immediate(text, operand),
        OperandKind::Reg(class) => push_register(text, class, operand.mutability, x),
        OperandKind::FixedReg(class) => push_fixed_register(text, class, operand.mutability, x),
        OperandKind::RegMem(class) => push_reg_mem(text, class, operand),
        OperandKind::Mem => push_memory(text, operand),
    }
}
