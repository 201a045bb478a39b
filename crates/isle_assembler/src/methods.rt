//! The Rust text of an assembler.

ghost use Rattle.std.specs.Prelude.{◌≡◌, ◌++◌, IfOk, OnOk, string_bytes};
ghost use Rattle.std.specs.List.{flat_map};
ghost use Rattle.isle_assembler.specs.Methods.{argument, arguments, assembler_methods, head_line};
ghost use Rattle.isle_assembler.specs.Methods.{inst_line, last_lines, let_line};
ghost use Rattle.isle_assembler.specs.Methods.{line_begin, listed, macro_head, macro_tail};
ghost use Rattle.isle_assembler.specs.Methods.{outer_line, param, params};
ghost use Rattle.isle_assembler.specs.Methods.{row_method, rust_type, trap_argument};

use crate::conversions::{assembler, push_converted};
use crate::pieces::push_pieces;
use crate::returns::push_given;
use crate::signature::{push_gap, push_operand_type};
use isle_assembler_rows::{is_left_out, is_raw, may_be_memory, push_raw_term};
use isle_meta::{Inst, Operand};
use std::alloc::{AllocError, Global};

// Appends the type of a parameter.
#[tactic(auto, unfolding(crate::specs::Methods::rust_type))]
fn push_rust_type(text: &mut String, operand: &Operand) -> Result<(), AllocError>
    ensures { OnOk result (string_bytes text.new ≡ string_bytes text.old ++ rust_type operand.now) }
{
    text.push_str(if may_be_memory(operand.kind) { "&" } else { "" })?;
    push_operand_type(text, true, operand)
}

// Appends a parameter.
#[tactic(auto, unfolding(crate::specs::Methods::param))]
fn push_param(text: &mut String, operand: &Operand) -> Result<(), AllocError>
    ensures { OnOk result (string_bytes text.new ≡ string_bytes text.old ++ param operand.now) }
{
    push_pieces(text, &[operand.location.as_str(), ": "])?;
    push_rust_type(text, operand)
}

// Appends the parameters of a method.
fn push_params(text: &mut String, inst: &Inst) -> Result<(), AllocError>
    ensures { OnOk result
        (string_bytes text.new ≡ string_bytes text.old ++ listed (params inst.now)) }
{
    let mut is_first = true;
    for operand in inst.operands.as_slice() {
        if is_raw(operand) {
            push_gap(text, is_first, ", ")?;
            push_param(text, operand)?;
            is_first = false;
        }
    }
    if inst.has_trap {
        push_gap(text, is_first, ", ")?;
        text.push_str("trap: &TrapCode")?;
    }
    Ok(())
}

// Appends an argument of the assembler's function.
#[tactic(auto, unfolding(crate::specs::Methods::argument))]
fn push_argument(text: &mut String, operand: &Operand) -> Result<(), AllocError>
    ensures { OnOk result (string_bytes text.new ≡ string_bytes text.old ++ argument operand.now) }
{
    push_pieces(text, &[operand.location.as_str(), ".clone()"])
}

// Appends the trap's code as an argument.
#[tactic(auto, unfolding(crate::specs::Methods::trap_argument))]
fn push_trap_argument(text: &mut String) -> Result<(), AllocError>
    ensures { OnOk result (string_bytes text.new ≡ string_bytes text.old ++ trap_argument) }
{
    push_pieces(text, &[assembler(), "TrapCode(trap.as_raw())"])
}

// Appends the arguments of the assembler's function.
fn push_arguments(text: &mut String, inst: &Inst) -> Result<(), AllocError>
    ensures { OnOk result
        (string_bytes text.new ≡ string_bytes text.old ++ listed (arguments inst.now)) }
{
    let mut is_first = true;
    for operand in inst.operands.as_slice() {
        push_gap(text, is_first, ", ")?;
        push_argument(text, operand)?;
        is_first = false;
    }
    if inst.has_trap {
        push_gap(text, is_first, ", ")?;
        push_trap_argument(text)?;
    }
    Ok(())
}

// How a line of a method's body begins.
#[tactic(auto, unfolding(crate::specs::Methods::line_begin))]
fn line_begin<'w>() -> &'w str
    ensures { result.now ≡ line_begin }
{
    "            "
}

// Appends an operand turned into one of the assembler, under its own name.
#[tactic(auto, unfolding(crate::specs::Methods::let_line))]
fn push_let_line(text: &mut String, operand: &Operand) -> Result<(), AllocError>
    ensures { OnOk result (string_bytes text.new ≡ string_bytes text.old ++ let_line operand.now) }
{
    push_pieces(
        text,
        &[line_begin(), "let ", operand.location.as_str(), " = "],
    )?;
    push_converted(text, operand)?;
    text.push_str(";\n")
}

// Appends all operands so.
fn push_let_lines(text: &mut String, operands: &[Operand]) -> Result<(), AllocError>
    ensures { OnOk result
        (string_bytes text.new ≡ string_bytes text.old ++ flat_map let_line operands.now) }
{
    for operand in operands {
        push_let_line(text, operand)?;
    }
    Ok(())
}

// Appends the assembler's instruction.
fn push_inst_line(text: &mut String, inst: &Inst) -> Result<(), AllocError>
    ensures { OnOk result (string_bytes text.new ≡ string_bytes text.old ++ inst_line inst.now) }
{
    push_pieces(
        text,
        &[
            line_begin(),
            "let inst = ",
            assembler(),
            "inst::",
            inst.name.as_str(),
            "::new(",
        ],
    )?;
    push_arguments(text, inst)?;
    push_pieces(text, &[").into();\n"])
}

// Appends the instruction of the compiler around it.
#[tactic(auto, unfolding(crate::specs::Methods::outer_line))]
fn push_outer_line(text: &mut String) -> Result<(), AllocError>
    ensures { OnOk result (string_bytes text.new ≡ string_bytes text.old ++ outer_line) }
{
    push_pieces(
        text,
        &[line_begin(), "let inst = MInst::External { inst };\n"],
    )
}

// Appends a method's name and parameters.
fn push_head_line(text: &mut String, inst: &Inst) -> Result<(), AllocError>
    ensures { OnOk result (string_bytes text.new ≡ string_bytes text.old ++ head_line inst.now) }
{
    text.push_str("        fn ")?;
    push_raw_term(text, inst.name.as_str())?;
    text.push_str("(&mut self, ")?;
    push_params(text, inst)?;
    push_pieces(text, &[") -> AssemblerOutputs {\n"])
}

// Appends what a method gives, and its end.
#[tactic(auto, unfolding(crate::specs::Methods::last_lines))]
fn push_last_lines(alloc: Global, text: &mut String, inst: &Inst) -> Result<(), AllocError>
    ensures { OnOk result (string_bytes text.new ≡ string_bytes text.old ++ last_lines inst.now) }
{
    text.push_str(line_begin())?;
    push_given(alloc, text, inst)?;
    text.push_str("\n        }\n")
}

// Appends the method of an instruction, unless it is left out.
fn push_method(alloc: Global, text: &mut String, inst: &Inst) -> Result<(), AllocError>
    ensures { OnOk result (string_bytes text.new ≡ string_bytes text.old ++ row_method inst.now) }
{
    if is_left_out(inst) {
        return Ok(());
    }
    push_head_line(text, inst)?;
    push_let_lines(text, inst.operands.as_slice())?;
    push_inst_line(text, inst)?;
    push_outer_line(text)?;
    push_last_lines(alloc, text, inst)
}

// Appends the methods of instructions.
fn push_methods(alloc: Global, text: &mut String, insts: &[Inst]) -> Result<(), AllocError>
    ensures { OnOk result
        (string_bytes text.new ≡ string_bytes text.old ++ flat_map row_method insts.now) }
{
    for inst in insts {
        push_method(alloc, text, inst)?;
    }
    Ok(())
}

// How the macro begins.
#[tactic(auto, unfolding(crate::specs::Methods::macro_head))]
fn macro_head() -> &'static str
    ensures { result.now ≡ macro_head }
{
    "#[doc(hidden)]\nmacro_rules! isle_assembler_methods {\n    () => {\n"
}

// How the macro ends.
#[tactic(auto, unfolding(crate::specs::Methods::macro_tail))]
fn macro_tail() -> &'static str
    ensures { result.now ≡ macro_tail }
{
    "    };\n}\n"
}

/// Returns the Rust text of an assembler: a macro that writes the method of each term which Rust gives. The only error
/// is want of memory.
#[tactic(auto, unfolding(crate::specs::Methods::assembler_methods))]
pub fn methods_of(alloc: Global, insts: &[Inst]) -> Result<String, AllocError>
    ensures { IfOk result (λ text. string_bytes text ≡ assembler_methods insts.now) }
{
    let mut text = String::from_str(alloc, macro_head())?;
    push_methods(alloc, &mut text, insts)?;
    text.push_str(macro_tail())?;
    Ok(text)
}
