//! The text of what is computed.

ghost use Rattle.std.specs.Prelude.{◌≡◌, ◌++◌, OnOk};
ghost use Rattle.isle_target.specs.StatementSpelling.{as_ref_part, expr_tokens};
ghost use Rattle.isle_tree.specs.WellFormed.{IsOperand, IsRead, IsCall, IsExpr};

use crate::call::print_call;
use crate::made::{print_struct_made, print_variant_made};
use crate::operand::{print_borrow, print_operand, print_read};
use isle_printer::Printer;
use isle_tree::{Operand, Read, TCall, TExpr};
use std::alloc::AllocError;

// Prints an option of what is read.
fn print_some(out: &mut Printer, read: &Read) -> Result<(), AllocError>
    requires { IsRead read.now }
    ensures { OnOk result (out.new ≡ out.old ++ expr_tokens (TExpr.Some read.now)) }
{
    out.word("Some")?;
    out.mark("(")?;
    print_read(out, read)?;
    out.mark(")")
}

// Prints a call, after a `&` or not.
fn print_borrowed(out: &mut Printer, borrow: bool, call: &TCall) -> Result<(), AllocError>
    requires { IsCall call.now }
    ensures { OnOk result (out.new ≡ out.old ++ expr_tokens (TExpr.Call borrow call.now)) }
{
    print_borrow(out, borrow)?;
    print_call(out, call)
}

// Prints `.as_ref()`, where it stands.
#[tactic(auto, unfolding(isle_printer::specs::Token::step, isle_printer::specs::Token::begun))]
fn print_as_ref(out: &mut Printer, as_ref: bool) -> Result<(), AllocError>
    ensures { OnOk result (out.new ≡ out.old ++ as_ref_part as_ref) }
{
    if as_ref {
        out.piece(".as_ref()")
    } else {
        Ok(())
    }
}

// Prints what stands within an operand's option.
fn print_try(out: &mut Printer, o: &Operand, as_ref: bool) -> Result<(), AllocError>
    requires { IsOperand o.now }
    ensures { OnOk result (out.new ≡ out.old ++ expr_tokens (TExpr.Try o.now as_ref)) }
{
    print_operand(out, o)?;
    print_as_ref(out, as_ref)?;
    out.mark("?")
}

// Prints a part of a tuple.
fn print_part(out: &mut Printer, source: &Operand, part: usize) -> Result<(), AllocError>
    requires { IsOperand source.now }
    ensures { OnOk result (out.new ≡ out.old ++ expr_tokens (TExpr.Tuple source.now part)) }
{
    print_operand(out, source)?;
    out.mark(".")?;
    out.numbered("", part)
}

/// Prints what a `let` or a `return` computes. What is printed after an error is left open.
pub fn print_expr(out: &mut Printer, e: &TExpr) -> Result<(), AllocError>
    requires { IsExpr e.now }
    ensures { OnOk result (out.new ≡ out.old ++ expr_tokens e.now) }
{
    match e {
        TExpr::Read(read) => print_read(out, read),
        TExpr::Some(read) => print_some(out, read),
        TExpr::Call { borrow, call } => print_borrowed(out, *borrow, call),
        TExpr::Try { source, as_ref } => print_try(out, source, *as_ref),
        TExpr::Variant {
            ty,
            variant,
            fields,
        } => print_variant_made(out, ty.as_str(), variant.as_str(), fields.as_slice()),
        TExpr::Struct { ty, fields } => print_struct_made(out, ty.as_str(), fields.as_slice()),
        TExpr::Tuple(source, part) => print_part(out, source, *part),
    }
}
