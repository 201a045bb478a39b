//! The parameters of an instruction's terms in rules.

ghost use Rattle.std.specs.Prelude.{◌≡◌, ◌++◌, OnOk, filter, string_bytes};
ghost use Rattle.std.specs.List.{flat_map};
ghost use Rattle.isle_assembler.specs.Methods.{gap};
ghost use Rattle.isle_assembler_rows.specs.Operands.{is_raw, locations, trap_names};
ghost use Rattle.isle_assembler.specs.RuleTexts.{all_handed_text, handed_text, names_text};
ghost use Rattle.isle_assembler.specs.RuleTexts.{params_text, temporary_text, types_text};
ghost use Rattle.isle_assembler.specs.Signatures.{alignment, bits, class_name, imm_type, is_param};
ghost use Rattle.isle_assembler.specs.Signatures.{operand_type, param_type, reg_mem_type, takes};
ghost use Rattle.isle_assembler.specs.Signatures.{type_in};

use isle_assembler_rows::{Constructor, is_raw, is_read, is_reg_mem, is_written};
use isle_meta::{Inst, Operand, OperandKind, RegClass};
use isle_printer::push_numeral;
use std::alloc::AllocError;

/// A term of an instruction: the raw one, that of a constructor, or one of a constructor that takes places which aren't
/// aligned.
#[derive(Clone, Copy)]
pub enum Signature {
    Raw,
    Made(Constructor),
    Unaligned(Constructor),
}

/// Returns the type of a class of registers.
pub fn class_name<'w>(class: RegClass) -> &'w str
    ensures { result.now ≡ class_name class }
{
    match class {
        RegClass::Gpr => "Gpr",
        RegClass::Xmm => "Xmm",
    }
}

/// Appends how many bits an operand has.
pub fn push_bits(text: &mut String, operand: &Operand) -> Result<(), AllocError>
    ensures { OnOk result (string_bytes text.new ≡ string_bytes text.old ++ bits operand.now) }
{
    push_numeral(text, u128::from(operand.bits), 10)
}

// Appends the type of an immediate.
fn push_imm_type(text: &mut String, operand: &Operand) -> Result<(), AllocError>
    ensures { OnOk result (string_bytes text.new ≡ string_bytes text.old ++ imm_type operand.now) }
{
    text.push_str(if operand.sign_extended { "i" } else { "u" })?;
    push_bits(text, operand)
}

// What says that a place in memory must be aligned, if that is kept.
fn alignment(keeps: bool, operand: &Operand) -> &'static str
    ensures { result.now ≡ alignment keeps operand.now }
{
    if keeps && operand.align {
        "Aligned"
    } else {
        ""
    }
}

// Appends the type of a register or a place in memory.
fn push_reg_mem_type(
    text: &mut String,
    keeps: bool,
    class: RegClass,
    operand: &Operand,
) -> Result<(), AllocError>
    ensures { OnOk result
        (string_bytes text.new ≡ string_bytes text.old ++ reg_mem_type keeps class operand.now) }
{
    text.push_str(class_name(class))?;
    text.push_str("Mem")?;
    text.push_str(alignment(keeps, operand))?;
    push_bits(text, operand)
}

/// Appends the type of an operand as the raw term takes it, without what says that it must be aligned, unless that is
/// kept. The only error is want of memory.
pub fn push_operand_type(
    text: &mut String,
    keeps: bool,
    operand: &Operand,
) -> Result<(), AllocError>
    ensures { OnOk result
        (string_bytes text.new ≡ string_bytes text.old ++ operand_type keeps operand.now) }
{
    match operand.kind {
        OperandKind::Imm => push_imm_type(text, operand),
        OperandKind::Reg(class) => text.push_str(class_name(class)),
        OperandKind::FixedReg(class) => text.push_str(class_name(class)),
        OperandKind::RegMem(class) => push_reg_mem_type(text, keeps, class, operand),
        OperandKind::Mem => text.push_str("SyntheticAmode"),
    }
}

// Whether the term of a constructor takes the operand.
fn is_param(c: Constructor, operand: &Operand) -> bool
    ensures { result ≡ is_param c operand.now }
{
    is_raw(operand) && (c.is_in_memory() || is_read(operand.mutability))
}

// Appends the type of a parameter of a constructor's term.
fn push_param_type(
    text: &mut String,
    c: Constructor,
    keeps: bool,
    operand: &Operand,
) -> Result<(), AllocError>
    ensures { OnOk result
        (string_bytes text.new ≡ string_bytes text.old ++ param_type c keeps operand.now) }
{
    if is_written(operand.mutability) && is_reg_mem(operand.kind) {
        text.push_str(c.place_type())
    } else {
        push_operand_type(text, keeps, operand)
    }
}

// Whether a term takes the operand.
fn takes(signature: Signature, operand: &Operand) -> bool
    ensures { result ≡ takes signature operand.now }
{
    match signature {
        Signature::Raw => is_raw(operand),
        Signature::Made(c) => is_param(c, operand),
        Signature::Unaligned(c) => is_param(c, operand),
    }
}

// Appends the type that a term takes the operand with.
fn push_type(text: &mut String, signature: Signature, operand: &Operand) -> Result<(), AllocError>
    ensures { OnOk result
        (string_bytes text.new ≡ string_bytes text.old ++ type_in signature operand.now) }
{
    match signature {
        Signature::Raw => push_operand_type(text, true, operand),
        Signature::Made(c) => push_param_type(text, c, true, operand),
        Signature::Unaligned(c) => push_param_type(text, c, false, operand),
    }
}

/// Appends what stands in front of the next thing of a list: nothing in front of the first.
pub fn push_gap(text: &mut String, is_first: bool, between: &str) -> Result<(), AllocError>
    ensures { OnOk result
        (string_bytes text.new ≡ string_bytes text.old ++ gap is_first between.now) }
{
    if is_first {
        return Ok(());
    }
    text.push_str(between)
}

/// Appends the types of a term's parameters, with blanks between them. The only error is want of memory.
#[tactic(auto, unfolding(crate::specs::RuleTexts::types_text))]
pub fn push_types(text: &mut String, signature: Signature, inst: &Inst) -> Result<(), AllocError>
    ensures { OnOk result
        (string_bytes text.new ≡ string_bytes text.old ++ types_text signature inst.now) }
{
    let mut is_first = true;
    for operand in inst.operands.as_slice() {
        if takes(signature, operand) {
            push_gap(text, is_first, " ")?;
            push_type(text, signature, operand)?;
            is_first = false;
        }
    }
    if inst.has_trap {
        push_gap(text, is_first, " ")?;
        text.push_str("TrapCode")?;
    }
    Ok(())
}

// Appends the names of the operands that a term takes, each after a blank.
fn push_operands(
    text: &mut String,
    signature: Signature,
    operands: &[Operand],
) -> Result<(), AllocError>
    ensures { OnOk result
        (string_bytes text.new
        ≡ string_bytes text.old
        ++ names_text (locations (filter (takes signature) operands.now))) }
{
    for operand in operands {
        if takes(signature, operand) {
            text.push_str(" ")?;
            text.push_str(operand.location.as_str())?;
        }
    }
    Ok(())
}

// Appends the name of a trap's code after a blank, if the instruction may trap.
fn push_trap(text: &mut String, has_trap: bool) -> Result<(), AllocError>
    ensures { OnOk result
        (string_bytes text.new ≡ string_bytes text.old ++ names_text (trap_names has_trap)) }
{
    if has_trap {
        text.push_str(" trap")?;
    }
    Ok(())
}

/// Appends the names of a term's parameters, each after a blank. The only error is want of memory.
#[tactic(auto, unfolding(crate::specs::RuleTexts::params_text))]
pub fn push_params(text: &mut String, signature: Signature, inst: &Inst) -> Result<(), AllocError>
    ensures { OnOk result
        (string_bytes text.new
        ≡ string_bytes text.old ++ params_text signature inst.now) }
{
    push_operands(text, signature, inst.operands.as_slice())?;
    push_trap(text, inst.has_trap)
}

// Appends a new register after a blank.
fn push_temporary(text: &mut String, c: Constructor) -> Result<(), AllocError>
    ensures { OnOk result
        (string_bytes text.new ≡ string_bytes text.old ++ temporary_text c) }
{
    text.push_str(" (")?;
    text.push_str(c.temporary())?;
    text.push_str(")")
}

// Appends what is handed to the raw term for an operand, after a blank.
fn push_one_handed(text: &mut String, c: Constructor, operand: &Operand) -> Result<(), AllocError>
    ensures { OnOk result
        (string_bytes text.new ≡ string_bytes text.old ++ handed_text c operand.now) }
{
    if is_param(c, operand) {
        text.push_str(" ")?;
        return text.push_str(operand.location.as_str());
    }
    push_temporary(text, c)
}

// Appends what is handed to the raw term for operands.
fn push_each_handed(
    text: &mut String,
    c: Constructor,
    operands: &[Operand],
) -> Result<(), AllocError>
    ensures { OnOk result
        (string_bytes text.new
        ≡ string_bytes text.old ++ flat_map (handed_text c) (filter is_raw operands.now)) }
{
    for operand in operands {
        if is_raw(operand) {
            push_one_handed(text, c, operand)?;
        }
    }
    Ok(())
}

/// Appends all that is handed to the raw term, each after a blank. The only error is want of memory.
#[tactic(auto, unfolding(crate::specs::RuleTexts::all_handed_text))]
pub fn push_handed(text: &mut String, c: Constructor, inst: &Inst) -> Result<(), AllocError>
    ensures { OnOk result
        (string_bytes text.new ≡ string_bytes text.old ++ all_handed_text c inst.now) }
{
    push_each_handed(text, c, inst.operands.as_slice())?;
    push_trap(text, inst.has_trap)
}
