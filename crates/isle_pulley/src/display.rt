//! The first item of the Rust text: how an instruction is shown.

ghost use Rattle.std.specs.Prelude.{◌≡◌, ◌++◌, ◌&&◌, OnOk, not, string_bytes, true};
ghost use Rattle.std.specs.List.{flat_map};
ghost use Rattle.isle_pulley.specs.Display.{arm_head, arm_opening, comma, display_arm};
ghost use Rattle.isle_pulley.specs.Display.{display_head};
ghost use Rattle.isle_pulley.specs.Display.{display_item, display_tail, form_end, format_text};
ghost use Rattle.isle_pulley.specs.Display.{format_texts};
ghost use Rattle.isle_pulley.specs.Display.{is_set as is_set_of, local_text, pattern_text};
ghost use Rattle.isle_pulley.specs.Display.{read_local, shown};
ghost use Rattle.isle_pulley.specs.Display.{where_true, write_head, write_tail, write_text};
ghost use Rattle.isle_pulley.specs.Display.{written_local};
ghost use Rattle.isle_pulley_rows.specs.Words.{is_register as names_register};

use crate::pieces::push_listed;
use isle_printer::push_around;
use isle_pulley_rows::{Operand, Operation, is_register};
use std::alloc::AllocError;

/// Tells whether the type is the set of upper registers.
pub fn is_set(ty: &str) -> bool
    ensures { result ≡ is_set_of ty.now }
{
    ty == "UpperXRegSet"
}

// Appends PAT of an operand.
fn push_pattern_of(text: &mut String, operand: &Operand<'_>) -> Result<(), AllocError>
    ensures { OnOk result
        (string_bytes text.new ≡ string_bytes text.old ++ pattern_text operand.now) }
{
    match operand {
        Operand::Normal(name, _) => push_listed(text, name.as_str()),
        Operand::Writable(name, _) => push_listed(text, name.as_str()),
        Operand::Binop(_, _, _) => text.push_str("dst, src1, src2, "),
        Operand::Trap => text.push_str("code, "),
    }
}

/// Appends PAT: the names of all operands. The only error is want of memory.
pub fn push_pattern(text: &mut String, operands: &[Operand<'_>]) -> Result<(), AllocError>
    ensures { OnOk result
        (string_bytes text.new ≡ string_bytes text.old ++ flat_map pattern_text operands.now) }
{
    for operand in operands {
        push_pattern_of(text, operand)?;
    }
    Ok(())
}

// What ends the form of a value of this type.
fn form_end(ty: &str) -> &'static str
    ensures { result.now ≡ form_end ty.now }
{
    if is_set(ty) { ":?}" } else { "}" }
}

// Appends a comma, but before the row's first operand.
fn push_comma(text: &mut String, is_first: bool) -> Result<(), AllocError>
    ensures { OnOk result
        (string_bytes text.new ≡ string_bytes text.old ++ comma is_first) }
{
    if is_first {
        return Ok(());
    }
    text.push_str(",")
}

// Appends how a value of this type is shown.
fn push_shown(text: &mut String, is_first: bool, name: &str, ty: &str) -> Result<(), AllocError>
    ensures { OnOk result
        (string_bytes text.new
        ≡ string_bytes text.old ++ (comma is_first ++ shown name.now ty.now)) }
{
    push_comma(text, is_first)?;
    push_around(text, " {", name, form_end(ty))
}

// Appends FORMAT of an operand.
fn push_format_of(
    text: &mut String,
    is_first: bool,
    operand: &Operand<'_>,
) -> Result<(), AllocError>
    ensures { OnOk result
        (string_bytes text.new
        ≡ string_bytes text.old ++ format_text is_first operand.now) }
{
    match operand {
        Operand::Normal(name, ty) => push_shown(text, is_first, name.as_str(), ty.as_str()),
        Operand::Writable(name, ty) => push_shown(text, is_first, name.as_str(), ty.as_str()),
        Operand::Binop(_, _, _) => text.push_str(" {dst}, {src1}, {src2}"),
        Operand::Trap => text.push_str(" // trap={code:?}"),
    }
}

// Appends FORMAT of operands.
fn push_formats(text: &mut String, operands: &[Operand<'_>]) -> Result<(), AllocError>
    ensures { OnOk result
        (string_bytes text.new ≡ string_bytes text.old ++ format_texts true operands.now) }
{
    let mut is_first = true;
    for operand in operands {
        push_format_of(text, is_first, operand)?;
        is_first = false;
    }
    Ok(())
}

// Appends the name of a register that is written.
#[tactic(auto, unfolding(crate::specs::Display::written_local))]
fn push_written_local(text: &mut String, name: &str) -> Result<(), AllocError>
    ensures { OnOk result
        (string_bytes text.new ≡ string_bytes text.old ++ written_local name.now) }
{
    text.push_str("                let ")?;
    text.push_str(name)?;
    push_around(text, " = RegNameDisplay(*", name, ".to_reg());\n")
}

// Appends the name of a register that is read.
#[tactic(auto, unfolding(crate::specs::Display::read_local))]
fn push_read_local(text: &mut String, name: &str) -> Result<(), AllocError>
    ensures { OnOk result
        (string_bytes text.new ≡ string_bytes text.old ++ read_local name.now) }
{
    text.push_str("                let ")?;
    text.push_str(name)?;
    push_around(text, " = RegNameDisplay(**", name, ");\n")
}

// Appends the name of what is read, if it is to stand there.
fn push_read_where(text: &mut String, stands: bool, name: &str) -> Result<(), AllocError>
    ensures { OnOk result
        (string_bytes text.new
        ≡ string_bytes text.old ++ where_true stands (read_local name.now)) }
{
    if !stands {
        return Ok(());
    }
    push_read_local(text, name)
}

// Appends the name of what is written, if it is to stand there.
fn push_written_where(text: &mut String, stands: bool, name: &str) -> Result<(), AllocError>
    ensures { OnOk result
        (string_bytes text.new
        ≡ string_bytes text.old ++ where_true stands (written_local name.now)) }
{
    if !stands {
        return Ok(());
    }
    push_written_local(text, name)
}

// Whether what is read of this type gets its name.
fn has_local(ty: &str) -> bool
    ensures { result ≡ (names_register ty.now && not (is_set_of ty.now)) }
{
    is_register(ty) && !is_set(ty)
}

// Appends LOCALS of an operand.
fn push_locals_of(text: &mut String, operand: &Operand<'_>) -> Result<(), AllocError>
    ensures { OnOk result
        (string_bytes text.new ≡ string_bytes text.old ++ local_text operand.now) }
{
    match operand {
        Operand::Normal(name, ty) => {
            push_read_where(text, has_local(ty.as_str()), name.as_str())
        }
        Operand::Writable(name, ty) => {
            push_written_where(text, is_register(ty.as_str()), name.as_str())
        }
        Operand::Binop(_, _, src2) => {
            push_written_local(text, "dst")?;
            push_read_local(text, "src1")?;
            push_read_where(text, is_register(src2.as_str()), "src2")
        }
        Operand::Trap => Ok(()),
    }
}

// Appends LOCALS: registers by their names.
fn push_locals(text: &mut String, operands: &[Operand<'_>]) -> Result<(), AllocError>
    ensures { OnOk result
        (string_bytes text.new ≡ string_bytes text.old ++ flat_map local_text operands.now) }
{
    for operand in operands {
        push_locals_of(text, operand)?;
    }
    Ok(())
}

/// Begins an arm for the instruction of this name. The only error is want of memory.
#[tactic(auto, unfolding(crate::specs::Display::arm_head))]
pub fn push_arm_head(text: &mut String, name: &str) -> Result<(), AllocError>
    ensures { OnOk result (string_bytes text.new ≡ string_bytes text.old ++ arm_head name.now) }
{
    push_around(text, "            RawInst::", name, " { ")
}

/// What stands behind PAT.
#[tactic(auto, unfolding(crate::specs::Display::arm_opening))]
pub fn arm_opening() -> &'static str
    ensures { result.now ≡ arm_opening }
{
    "} => {\n"
}

// What stands behind LOCALS.
#[tactic(auto, unfolding(crate::specs::Display::write_head))]
fn write_head() -> &'static str
    ensures { result.now ≡ write_head }
{
    "                write!(f, \""
}

// What stands behind FORMAT.
#[tactic(auto, unfolding(crate::specs::Display::write_tail))]
fn write_tail() -> &'static str
    ensures { result.now ≡ write_tail }
{
    "\")\n            }\n"
}

// Appends FORMAT of an operation, and what stands round it.
fn push_write(text: &mut String, op: &Operation<'_>) -> Result<(), AllocError>
    ensures { OnOk result
        (string_bytes text.new ≡ string_bytes text.old ++ write_text op.now) }
{
    text.push_str(write_head())?;
    text.push_str(op.snake.as_str())?;
    push_formats(text, op.operands.as_slice())?;
    text.push_str(write_tail())
}

// Appends an arm.
fn push_arm(text: &mut String, op: &Operation<'_>) -> Result<(), AllocError>
    ensures { OnOk result
        (string_bytes text.new ≡ string_bytes text.old ++ display_arm op.now) }
{
    push_arm_head(text, op.name.as_str())?;
    push_pattern(text, op.operands.as_slice())?;
    text.push_str(arm_opening())?;
    push_locals(text, op.operands.as_slice())?;
    push_write(text, op)
}

// Appends an arm for each operation.
fn push_arms(text: &mut String, ops: &[Operation<'_>]) -> Result<(), AllocError>
    ensures { OnOk result
        (string_bytes text.new ≡ string_bytes text.old ++ flat_map display_arm ops.now) }
{
    for op in ops {
        push_arm(text, op)?;
    }
    Ok(())
}

// How the item begins.
#[tactic(auto, unfolding(crate::specs::Display::display_head))]
fn display_head() -> &'static str
    ensures { result.now ≡ display_head }
{
    "impl<'a> std::fmt::Display for RawInstDisplay<'a> {\n    fn fmt(&self, f: &mut std::fmt::Formatter<'_>) -> std::fmt::Result {\n        let inst = self.0;\n        match inst {\n"
}

// How it ends.
#[tactic(auto, unfolding(crate::specs::Display::display_tail))]
fn display_tail() -> &'static str
    ensures { result.now ≡ display_tail }
{
    "        }\n    }\n}\n"
}

/// Appends the item that shows instructions. The only error is want of memory.
pub fn push_display(text: &mut String, ops: &[Operation<'_>]) -> Result<(), AllocError>
    ensures { OnOk result
        (string_bytes text.new ≡ string_bytes text.old ++ display_item ops.now) }
{
    text.push_str(display_head())?;
    push_arms(text, ops)?;
    text.push_str(display_tail())
}
