//! What a method of the macro gives.

ghost use Rattle.std.specs.Prelude.{◌≡◌, ◌++◌, IfOk, OnOk, string_bytes};
ghost use Rattle.isle_assembler_rows.specs.Operands.{lent};
ghost use Rattle.isle_assembler.specs.Returns.{arm_begin, bound_of_two, bound_register, class_of};
ghost use Rattle.isle_assembler.specs.Returns.{given, given_among, given_by};
ghost use Rattle.isle_assembler.specs.Returns.{given_elsewhere, one_place, one_register, reached};
ghost use Rattle.isle_assembler.specs.Returns.{registers, side_effect};
ghost use Rattle.isle_assembler.specs.Returns.{memory_arm, register_arm, two_registers};
ghost use Rattle.isle_assembler.specs.Returns.{with_register};

use crate::conversions::class_word;
use crate::pieces::push_pieces;
use crate::signature::class_name;
use isle_assembler_rows::{is_register, written};
use isle_meta::{Inst, Mutability, Operand, OperandKind, RegClass};
use std::alloc::{AllocError, Global};

// How the register of an operand is reached.
fn reached<'w>(mutability: Mutability) -> &'w str
    ensures { result.now ≡ reached mutability }
{
    match mutability {
        Mutability::Read => "",
        Mutability::ReadWrite => "write.to_reg()",
        Mutability::Write => "to_reg()",
    }
}

// The class of an operand's register.
fn class_of(kind: OperandKind) -> RegClass
    ensures { result ≡ class_of kind }
{
    match kind {
        OperandKind::Reg(class) => class,
        OperandKind::FixedReg(class) => class,
        OperandKind::RegMem(class) => class,
        OperandKind::Imm | OperandKind::Mem => RegClass::Gpr,
    }
}

// The instruction alone.
#[tactic(auto, unfolding(crate::specs::Returns::side_effect))]
fn side_effect<'w>() -> &'w str
    ensures { result.now ≡ side_effect }
{
    "AssemblerOutputs::SideEffect { inst }"
}

// The instruction with the register of a class.
#[tactic(auto, unfolding(crate::specs::Returns::with_register))]
fn with_register<'w>(class: RegClass) -> &'w str
    ensures { result.now ≡ with_register class }
{
    match class {
        RegClass::Gpr => "AssemblerOutputs::RetGpr { inst, gpr }",
        RegClass::Xmm => "AssemblerOutputs::RetXmm { inst, xmm }",
    }
}

// Appends a register under the name of its class, and the instruction with it.
#[tactic(auto, unfolding(crate::specs::Returns::bound_register))]
fn push_bound_register(
    text: &mut String,
    class: RegClass,
    place: &str,
    access: &str,
    mutability: Mutability,
) -> Result<(), AllocError>
    ensures { OnOk result
        (string_bytes text.new
        ≡ string_bytes text.old ++ bound_register class place.now access.now mutability) }
{
    push_pieces(
        text,
        &[
            "let ",
            class_word(class),
            " = ",
            place,
            access,
            reached(mutability),
            "; ",
        ],
    )?;
    text.push_str(with_register(class))
}

// Appends one register.
fn push_one_register(text: &mut String, x: &Operand) -> Result<(), AllocError>
    ensures { OnOk result (string_bytes text.new ≡ string_bytes text.old ++ one_register x.now) }
{
    let place = x.location.as_str();
    push_bound_register(text, class_of(x.kind), place, ".as_ref().", x.mutability)
}

// How an arm of a match over a place of this class begins, up to the pattern.
#[tactic(auto, unfolding(crate::specs::Returns::arm_begin, crate::specs::Conversions::assembler))]
fn arm_begin<'w>(class: RegClass) -> &'w str
    ensures { result.now ≡ arm_begin class }
{
    match class {
        RegClass::Gpr => "cranelift_assembler_x64::GprMem::",
        RegClass::Xmm => "cranelift_assembler_x64::XmmMem::",
    }
}

// Appends the arm of a register.
#[tactic(auto, unfolding(crate::specs::Returns::register_arm))]
fn push_register_arm(
    text: &mut String,
    class: RegClass,
    mutability: Mutability,
) -> Result<(), AllocError>
    ensures { OnOk result
        (string_bytes text.new ≡ string_bytes text.old ++ register_arm class mutability) }
{
    push_pieces(text, &[arm_begin(class), class_name(class), "(reg) => { "])?;
    push_bound_register(text, class, "reg", ".", mutability)?;
    text.push_str(" }")
}

// Appends the arm of a place in memory.
fn push_memory_arm(text: &mut String, class: RegClass) -> Result<(), AllocError>
    ensures { OnOk result (string_bytes text.new ≡ string_bytes text.old ++ memory_arm class) }
{
    push_pieces(
        text,
        &[arm_begin(class), "Mem(_) => { ", side_effect(), " }"],
    )
}

// Appends a register or a place in memory.
#[tactic(auto, unfolding(crate::specs::Returns::one_place))]
fn push_one_place(text: &mut String, class: RegClass, x: &Operand) -> Result<(), AllocError>
    ensures { OnOk result (string_bytes text.new ≡ string_bytes text.old ++ one_place class x.now) }
{
    push_pieces(text, &["match ", x.location.as_str(), " { "])?;
    push_register_arm(text, class, x.mutability)?;
    text.push_str(" ")?;
    push_memory_arm(text, class)?;
    text.push_str(" }")
}

// Appends a register of two, under this name.
#[tactic(auto, unfolding(crate::specs::Returns::bound_of_two))]
fn push_bound_of_two(text: &mut String, name: &str, x: &Operand) -> Result<(), AllocError>
    ensures { OnOk result
        (string_bytes text.new ≡ string_bytes text.old ++ bound_of_two name.now x.now) }
{
    push_pieces(
        text,
        &[
            "let ",
            name,
            " = ",
            x.location.as_str(),
            ".as_ref().",
            reached(x.mutability),
            ".to_reg(); ",
        ],
    )
}

// Appends two registers.
#[tactic(auto, unfolding(crate::specs::Returns::two_registers))]
fn push_two_registers(text: &mut String, x: &Operand, y: &Operand) -> Result<(), AllocError>
    ensures { OnOk result
        (string_bytes text.new ≡ string_bytes text.old ++ two_registers x.now y.now) }
{
    push_bound_of_two(text, "one", x)?;
    push_bound_of_two(text, "two", y)?;
    push_pieces(
        text,
        &[
            "let regs = ValueRegs::two(one, two); ",
            "AssemblerOutputs::RetValueRegs { inst, regs }",
        ],
    )
}

// Appends what one operand gives.
fn push_given_by(text: &mut String, x: &Operand) -> Result<(), AllocError>
    ensures { OnOk result
        (string_bytes text.new
        ≡ string_bytes text.old ++ given_by x.now.kind x.now) }
{
    match x.kind {
        OperandKind::Imm => text.push_str(side_effect()),
        OperandKind::Reg(_) => push_one_register(text, x),
        OperandKind::FixedReg(_) => push_one_register(text, x),
        OperandKind::RegMem(class) => push_one_place(text, class, x),
        OperandKind::Mem => text.push_str(side_effect()),
    }
}

// Appends what is given without a register.
fn push_given_elsewhere(text: &mut String, written: &[&Operand]) -> Result<(), AllocError>
    ensures { OnOk result
        (string_bytes text.new ≡ string_bytes text.old ++ given_elsewhere (lent written.now)) }
{
    match written {
        [] => text.push_str(side_effect()),
        [x, ..] => push_given_by(text, x),
    }
}

// Appends what is given, by the registers among the operands that are written, and all of these.
fn push_given_among(
    text: &mut String,
    registers: &[&Operand],
    written: &[&Operand],
) -> Result<(), AllocError>
    ensures { OnOk result
        (string_bytes text.new
        ≡ string_bytes text.old ++ given_among (lent registers.now) (lent written.now)) }
{
    match registers {
        [] => push_given_elsewhere(text, written),
        [x] => push_one_register(text, x),
        [x, y, ..] => push_two_registers(text, x, y),
    }
}

// The registers among operands.
fn registers<'t>(alloc: Global, operands: &[&'t Operand]) -> Result<Vec<&'t Operand>, AllocError>
    ensures { IfOk result (λ found. lent found.items ≡ registers (lent operands.now)) }
{
    let mut found = Vec::new(alloc);
    for operand in operands {
        if is_register(operand.kind) {
            found.push(*operand)?;
        }
    }
    Ok(found)
}

/// Appends what a method gives. The only error is want of memory.
pub fn push_given(alloc: Global, text: &mut String, inst: &Inst) -> Result<(), AllocError>
    ensures { OnOk result (string_bytes text.new ≡ string_bytes text.old ++ given inst.now) }
{
    let written = written(alloc, inst)?;
    let registers = registers(alloc, written.as_slice())?;
    push_given_among(text, registers.as_slice(), written.as_slice())
}
