//! The second item of the Rust text: which registers an instruction reads and writes.

ghost use Rattle.std.specs.Prelude.{◌≡◌, ◌++◌, ◌&&◌, ◌||◌, OnOk, string_bytes};
ghost use Rattle.std.specs.List.{flat_map};
ghost use Rattle.isle_pulley.specs.Display.{listed, where_true};
ghost use Rattle.isle_pulley.specs.Visits.{address_of, address_text, def_of, def_text};
ghost use Rattle.isle_pulley.specs.Visits.{is_address as names_address};
ghost use Rattle.isle_pulley.specs.Visits.{is_frame as names_frame, is_used as uses};
ghost use Rattle.isle_pulley.specs.Visits.{match_tail, some_text, use_of, use_text, visit_arm};
ghost use Rattle.isle_pulley.specs.Visits.{visit_end};
ghost use Rattle.isle_pulley.specs.Visits.{visit_head, visit_item, visit_opening, visits};

use crate::display::{is_set, push_arm_head};
use crate::pieces::{push_listed, push_where};
use isle_printer::push_around;
use isle_pulley_rows::{Operand, Operation, begins_with, is_register};
use isle_spelling::is_among;
use std::alloc::AllocError;

// Whether the operation saves or restores a frame.
#[tactic(auto, unfolding(crate::specs::Visits::is_frame))]
fn is_frame(name: &str) -> bool
    ensures { result ≡ names_frame name.now }
{
    is_among(name, &["PushFrameSave", "PopFrameRestore"])
}

// Whether something of this type is visited as a register.
fn is_used(in_frame: bool, ty: &str) -> bool
    ensures { result ≡ uses in_frame ty.now }
{
    is_register(ty) && !(in_frame && is_set(ty))
}

// Whether something of this type is visited as an address.
fn is_address(ty: &str) -> bool
    ensures { result ≡ names_address ty.now }
{
    begins_with("Addr", ty) && !is_register(ty)
}

// Whether what is read of this type is visited.
fn is_visited(in_frame: bool, ty: &str) -> bool
    ensures { result ≡ (uses in_frame ty.now || names_address ty.now) }
{
    is_used(in_frame, ty) || is_address(ty)
}

// Appends a name and a comma, if they are to stand there.
fn push_listed_where(text: &mut String, stands: bool, name: &str) -> Result<(), AllocError>
    ensures { OnOk result
        (string_bytes text.new ≡ string_bytes text.old ++ where_true stands (listed name.now)) }
{
    if !stands {
        return Ok(());
    }
    push_listed(text, name)
}

// Appends SOME of an operand.
fn push_some_of(text: &mut String, in_frame: bool, operand: &Operand<'_>) -> Result<(), AllocError>
    ensures { OnOk result
        (string_bytes text.new
        ≡ string_bytes text.old ++ some_text in_frame operand.now) }
{
    match operand {
        Operand::Normal(name, ty) => {
            push_listed_where(text, is_visited(in_frame, ty.as_str()), name.as_str())
        }
        Operand::Writable(name, ty) => {
            push_listed_where(text, is_used(in_frame, ty.as_str()), name.as_str())
        }
        Operand::Binop(_, _, src2) => {
            text.push_str("dst, src1, ")?;
            push_where(text, is_register(src2.as_str()), "src2, ")
        }
        Operand::Trap => Ok(()),
    }
}

// Appends SOME: the names of the operands that are visited.
fn push_some(text: &mut String, in_frame: bool, operands: &[Operand<'_>]) -> Result<(), AllocError>
    ensures { OnOk result
        (string_bytes text.new
        ≡ string_bytes text.old ++ flat_map (some_text in_frame) operands.now) }
{
    for operand in operands {
        push_some_of(text, in_frame, operand)?;
    }
    Ok(())
}

// Appends a register that is read, if it is to stand there.
#[tactic(auto, unfolding(crate::specs::Visits::use_of))]
fn push_use(text: &mut String, stands: bool, name: &str) -> Result<(), AllocError>
    ensures { OnOk result
        (string_bytes text.new ≡ string_bytes text.old ++ where_true stands (use_of name.now)) }
{
    if !stands {
        return Ok(());
    }
    push_around(text, "            collector.reg_use(", name, ");\n")
}

// Appends a register that is written, if it is to stand there.
#[tactic(auto, unfolding(crate::specs::Visits::def_of))]
fn push_def(text: &mut String, stands: bool, name: &str) -> Result<(), AllocError>
    ensures { OnOk result
        (string_bytes text.new ≡ string_bytes text.old ++ where_true stands (def_of name.now)) }
{
    if !stands {
        return Ok(());
    }
    push_around(text, "            collector.reg_def(", name, ");\n")
}

// Appends an address, if it is to stand there.
#[tactic(auto, unfolding(crate::specs::Visits::address_of))]
fn push_address(text: &mut String, stands: bool, name: &str) -> Result<(), AllocError>
    ensures { OnOk result
        (string_bytes text.new
        ≡ string_bytes text.old ++ where_true stands (address_of name.now)) }
{
    if !stands {
        return Ok(());
    }
    push_around(
        text,
        "            ",
        name,
        ".collect_operands(collector);\n",
    )
}

// Appends USES of an operand.
fn push_uses_of(text: &mut String, in_frame: bool, operand: &Operand<'_>) -> Result<(), AllocError>
    ensures { OnOk result
        (string_bytes text.new
        ≡ string_bytes text.old ++ use_text in_frame operand.now) }
{
    match operand {
        Operand::Normal(name, ty) => {
            push_use(text, is_used(in_frame, ty.as_str()), name.as_str())
        }
        Operand::Writable(_, _) => Ok(()),
        Operand::Binop(_, _, src2) => {
            push_use(text, true, "src1")?;
            push_use(text, is_register(src2.as_str()), "src2")
        }
        Operand::Trap => Ok(()),
    }
}

// Appends USES: the registers that are read.
fn push_uses(text: &mut String, in_frame: bool, operands: &[Operand<'_>]) -> Result<(), AllocError>
    ensures { OnOk result
        (string_bytes text.new
        ≡ string_bytes text.old ++ flat_map (use_text in_frame) operands.now) }
{
    for operand in operands {
        push_uses_of(text, in_frame, operand)?;
    }
    Ok(())
}

// Appends DEFS of an operand.
fn push_defs_of(text: &mut String, in_frame: bool, operand: &Operand<'_>) -> Result<(), AllocError>
    ensures { OnOk result
        (string_bytes text.new
        ≡ string_bytes text.old ++ def_text in_frame operand.now) }
{
    match operand {
        Operand::Normal(_, _) => Ok(()),
        Operand::Writable(name, ty) => {
            push_def(text, is_used(in_frame, ty.as_str()), name.as_str())
        }
        Operand::Binop(_, _, _) => push_def(text, true, "dst"),
        Operand::Trap => Ok(()),
    }
}

// Appends DEFS: the registers that are written.
fn push_defs(text: &mut String, in_frame: bool, operands: &[Operand<'_>]) -> Result<(), AllocError>
    ensures { OnOk result
        (string_bytes text.new
        ≡ string_bytes text.old ++ flat_map (def_text in_frame) operands.now) }
{
    for operand in operands {
        push_defs_of(text, in_frame, operand)?;
    }
    Ok(())
}

// Appends ADDRS of an operand.
fn push_addresses_of(text: &mut String, operand: &Operand<'_>) -> Result<(), AllocError>
    ensures { OnOk result
        (string_bytes text.new ≡ string_bytes text.old ++ address_text operand.now) }
{
    match operand {
        Operand::Normal(name, ty) => push_address(text, is_address(ty.as_str()), name.as_str()),
        Operand::Writable(_, _) => Ok(()),
        Operand::Binop(_, _, _) => Ok(()),
        Operand::Trap => Ok(()),
    }
}

// Appends ADDRS: the addresses.
fn push_addresses(text: &mut String, operands: &[Operand<'_>]) -> Result<(), AllocError>
    ensures { OnOk result
        (string_bytes text.new ≡ string_bytes text.old ++ flat_map address_text operands.now) }
{
    for operand in operands {
        push_addresses_of(text, operand)?;
    }
    Ok(())
}

// What stands behind SOME.
#[tactic(auto, unfolding(crate::specs::Visits::visit_opening))]
fn visit_opening() -> &'static str
    ensures { result.now ≡ visit_opening }
{
    ".. } => {\n"
}

// How an arm ends.
#[tactic(auto, unfolding(crate::specs::Visits::visit_end))]
fn visit_end() -> &'static str
    ensures { result.now ≡ visit_end }
{
    "            }\n"
}

// Appends USES, DEFS and ADDRS of operands, and the end of their arm.
#[tactic(auto, unfolding(crate::specs::Visits::visits))]
fn push_visits(
    text: &mut String,
    in_frame: bool,
    operands: &[Operand<'_>],
) -> Result<(), AllocError>
    ensures { OnOk result
        (string_bytes text.new ≡ string_bytes text.old ++ visits in_frame operands.now) }
{
    push_uses(text, in_frame, operands)?;
    push_defs(text, in_frame, operands)?;
    push_addresses(text, operands)?;
    text.push_str(visit_end())
}

// Appends an arm.
#[tactic(auto, unfolding(crate::specs::Visits::visit_arm))]
fn push_arm(text: &mut String, op: &Operation<'_>) -> Result<(), AllocError>
    ensures { OnOk result
        (string_bytes text.new ≡ string_bytes text.old ++ visit_arm op.now) }
{
    let in_frame = is_frame(op.name.as_str());
    push_arm_head(text, op.name.as_str())?;
    push_some(text, in_frame, op.operands.as_slice())?;
    text.push_str(visit_opening())?;
    push_visits(text, in_frame, op.operands.as_slice())
}

// Appends an arm for each operation.
fn push_arms(text: &mut String, ops: &[Operation<'_>]) -> Result<(), AllocError>
    ensures { OnOk result
        (string_bytes text.new ≡ string_bytes text.old ++ flat_map visit_arm ops.now) }
{
    for op in ops {
        push_arm(text, op)?;
    }
    Ok(())
}

// How the item begins.
#[tactic(auto, unfolding(crate::specs::Visits::visit_head))]
fn visit_head() -> &'static str
    ensures { result.now ≡ visit_head }
{
    "pub fn get_operands(inst: &mut RawInst, collector: &mut impl OperandVisitor) {\n    match inst {\n"
}

/// How an item ends that is a function over all instructions.
#[tactic(auto, unfolding(crate::specs::Visits::match_tail))]
pub fn match_tail() -> &'static str
    ensures { result.now ≡ match_tail }
{
    "    }\n}\n"
}

/// Appends the item that visits the registers of instructions. The only error is want of memory.
pub fn push_visit(text: &mut String, ops: &[Operation<'_>]) -> Result<(), AllocError>
    ensures { OnOk result
        (string_bytes text.new ≡ string_bytes text.old ++ visit_item ops.now) }
{
    text.push_str(visit_head())?;
    push_arms(text, ops)?;
    text.push_str(match_tail())
}
