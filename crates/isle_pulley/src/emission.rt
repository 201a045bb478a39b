//! The third item of the Rust text: how an instruction is put into the buffer of machine code.

ghost use Rattle.std.specs.Prelude.{◌≡◌, ◌++◌, IfOk, OnOk, string_bytes};
ghost use Rattle.std.specs.List.{flat_map};
ghost use Rattle.isle_pulley.specs.Emission.{argument_text, binary_argument, emit_arm, emit_head};
ghost use Rattle.isle_pulley.specs.Emission.{emit_item};
ghost use Rattle.isle_pulley.specs.Emission.{encode_head, encode_tail, encoded, noted_trap};
ghost use Rattle.isle_pulley.specs.Emission.{trap_text};
ghost use Rattle.isle_pulley.specs.RustText.{items};

use crate::display::{arm_opening, push_arm_head, push_display, push_pattern};
use crate::pieces::push_listed;
use crate::visits::{match_tail, push_visit};
use isle_printer::push_around;
use isle_pulley_rows::{Operand, Operation};
use std::alloc::{AllocError, Global};

// A call that notes a trap.
#[tactic(auto, unfolding(crate::specs::Emission::noted_trap))]
fn noted_trap() -> &'static str
    ensures { result.now ≡ noted_trap }
{
    "                sink.add_trap(code);\n"
}

// What binary operands are encoded as.
#[tactic(auto, unfolding(crate::specs::Emission::binary_argument))]
fn binary_argument() -> &'static str
    ensures { result.now ≡ binary_argument }
{
    "pulley_interpreter::regs::BinaryOperands::new(dst, src1, src2), "
}

// TRAP of an operand.
fn trap_of(operand: &Operand<'_>) -> &'static str
    ensures { result.now ≡ trap_text operand.now }
{
    match operand {
        Operand::Normal(_, _) => "",
        Operand::Writable(_, _) => "",
        Operand::Binop(_, _, _) => "",
        Operand::Trap => noted_trap(),
    }
}

// Appends TRAP: that a trap may come here.
fn push_traps(text: &mut String, operands: &[Operand<'_>]) -> Result<(), AllocError>
    ensures { OnOk result
        (string_bytes text.new ≡ string_bytes text.old ++ flat_map trap_text operands.now) }
{
    for operand in operands {
        text.push_str(trap_of(operand))?;
    }
    Ok(())
}

// Appends ARGS of an operand.
fn push_arguments_of(text: &mut String, operand: &Operand<'_>) -> Result<(), AllocError>
    ensures { OnOk result
        (string_bytes text.new ≡ string_bytes text.old ++ argument_text operand.now) }
{
    match operand {
        Operand::Normal(name, _) => push_listed(text, name.as_str()),
        Operand::Writable(name, _) => push_listed(text, name.as_str()),
        Operand::Binop(_, _, _) => text.push_str(binary_argument()),
        Operand::Trap => Ok(()),
    }
}

// Appends ARGS: what is encoded.
fn push_arguments(text: &mut String, operands: &[Operand<'_>]) -> Result<(), AllocError>
    ensures { OnOk result
        (string_bytes text.new
        ≡ string_bytes text.old ++ flat_map argument_text operands.now) }
{
    for operand in operands {
        push_arguments_of(text, operand)?;
    }
    Ok(())
}

// Begins the call that encodes.
#[tactic(auto, unfolding(crate::specs::Emission::encode_head))]
fn push_encode_head(text: &mut String, snake: &str) -> Result<(), AllocError>
    ensures { OnOk result
        (string_bytes text.new ≡ string_bytes text.old ++ encode_head snake.now) }
{
    push_around(
        text,
        "                pulley_interpreter::encode::",
        snake,
        "(sink, ",
    )
}

// How that call ends, and its arm.
#[tactic(auto, unfolding(crate::specs::Emission::encode_tail))]
fn encode_tail() -> &'static str
    ensures { result.now ≡ encode_tail }
{
    ")\n            }\n"
}

// Appends the call that encodes, and the end of its arm.
fn push_encoded(text: &mut String, op: &Operation<'_>) -> Result<(), AllocError>
    ensures { OnOk result
        (string_bytes text.new ≡ string_bytes text.old ++ encoded op.now) }
{
    push_encode_head(text, op.snake.as_str())?;
    push_arguments(text, op.operands.as_slice())?;
    text.push_str(encode_tail())
}

// Appends an arm.
fn push_arm(text: &mut String, op: &Operation<'_>) -> Result<(), AllocError>
    ensures { OnOk result
        (string_bytes text.new ≡ string_bytes text.old ++ emit_arm op.now) }
{
    push_arm_head(text, op.name.as_str())?;
    push_pattern(text, op.operands.as_slice())?;
    text.push_str(arm_opening())?;
    push_traps(text, op.operands.as_slice())?;
    push_encoded(text, op)
}

// Appends an arm for each operation.
fn push_arms(text: &mut String, ops: &[Operation<'_>]) -> Result<(), AllocError>
    ensures { OnOk result
        (string_bytes text.new ≡ string_bytes text.old ++ flat_map emit_arm ops.now) }
{
    for op in ops {
        push_arm(text, op)?;
    }
    Ok(())
}

// How the item begins.
#[tactic(auto, unfolding(crate::specs::Emission::emit_head))]
fn emit_head() -> &'static str
    ensures { result.now ≡ emit_head }
{
    "pub fn emit<P>(inst: &RawInst, sink: &mut MachBuffer<InstAndKind<P>>)\nwhere\n    P: PulleyTargetKind,\n{\n    match *inst {\n"
}

// Appends the item that emits instructions.
fn push_emit(text: &mut String, ops: &[Operation<'_>]) -> Result<(), AllocError>
    ensures { OnOk result
        (string_bytes text.new ≡ string_bytes text.old ++ emit_item ops.now) }
{
    text.push_str(emit_head())?;
    push_arms(text, ops)?;
    text.push_str(match_tail())
}

/// Returns the Rust text of operations. The only error is want of memory.
pub fn rust_items(alloc: Global, ops: &[Operation<'_>]) -> Result<String, AllocError>
    ensures { IfOk result (λ text. string_bytes text ≡ items ops.now) }
{
    let mut text = String::new(alloc);
    push_display(&mut text, ops)?;
    push_visit(&mut text, ops)?;
    push_emit(&mut text, ops)?;
    Ok(text)
}
