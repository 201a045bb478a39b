//! The text of statements on several answers: lists, loops over them, results that are appended, stops and closures.

ghost use Rattle.std.specs.Prelude.{◌≡◌, ◌++◌, OnOk};
ghost use Rattle.isle_target.specs.StatementSpelling.{let_mut_head, list_tokens, default_part};
ghost use Rattle.isle_target.specs.StatementSpelling.{list_end};
ghost use Rattle.isle_target.specs.StatementSpelling.{let_list_tokens, loop_head, extend_tokens};
ghost use Rattle.isle_target.specs.StatementSpelling.{stop_tokens, overflow_tokens, split_head};
ghost use Rattle.isle_target.specs.StatementSpelling.{split_end};
ghost use Rattle.isle_tree.specs.WellFormed.{IsRead, IsCallee, IsCall};

use crate::call::{print_args, print_callee};
use crate::operand::print_read;
use isle_core::Callee;
use isle_printer::Printer;
use isle_tree::{Read, TCall};
use std::alloc::AllocError;

// Prints `let mut vN =`.
#[tactic(auto, unfolding(isle_printer::specs::Token::step, isle_printer::specs::Token::begun))]
fn print_let_mut(out: &mut Printer, n: usize) -> Result<(), AllocError>
    ensures { OnOk result (out.new ≡ out.old ++ let_mut_head n) }
{
    out.piece("let mut ")?;
    out.numbered("v", n)?;
    out.piece(" = ")
}

// Prints `LIST::default();`.
#[tactic(auto, using(crate::proofs::Names::identifier_is_word), unfolding(isle_printer::specs::Token::step, isle_printer::specs::Token::begun))]
fn print_list(out: &mut Printer, callee: &Callee) -> Result<(), AllocError>
    requires { IsCallee callee.now }
    ensures { OnOk result (out.new ≡ out.old ++ (list_tokens callee.now ++ default_part)) }
{
    match callee {
        Callee::External(name) => {
            out.word("C")?;
            out.mark("::")?;
            out.prefixed(name.as_str(), "_returns")?;
            out.piece("::default();")
        }
        Callee::Internal(_) => out.piece("ContextIterWrapper::<ConstructorVec<_>, _>::default();"),
    }
}

// Prints `, &mut vN);`.
#[tactic(auto, unfolding(isle_printer::specs::Token::step, isle_printer::specs::Token::begun))]
fn print_list_end(out: &mut Printer, n: usize) -> Result<(), AllocError>
    ensures { OnOk result (out.new ≡ out.old ++ list_end n) }
{
    out.piece(", &mut ")?;
    out.numbered("v", n)?;
    out.piece(");")
}

/// Prints a list, and on a line of its own the call that fills it. What is printed after an error is left open.
pub fn print_let_list(out: &mut Printer, n: usize, call: &TCall) -> Result<(), AllocError>
    requires { IsCall call.now }
    ensures { OnOk result (out.new ≡ out.old ++ let_list_tokens n call.now) }
{
    print_let_mut(out, n)?;
    print_list(out, &call.callee)?;
    out.line()?;
    print_callee(out, &call.callee)?;
    print_args(out, call.args.as_slice())?;
    print_list_end(out, n)
}

/// Prints what a loop over a list begins with, on two lines. What is printed after an error is left open.
#[tactic(auto, unfolding(isle_printer::specs::Token::step, isle_printer::specs::Token::begun))]
pub fn print_loop_head(out: &mut Printer, list: usize, item: usize) -> Result<(), AllocError>
    ensures { OnOk result (out.new ≡ out.old ++ loop_head list item) }
{
    print_let_mut(out, list)?;
    out.numbered("v", list)?;
    out.piece(".into_context_iter();")?;
    out.line()?;
    out.piece("while let Some(")?;
    out.numbered("v", item)?;
    out.piece(") = ")?;
    out.numbered("v", list)?;
    out.piece(".next(ctx) {")
}

/// Prints `returns.extend(Some(READ));`. What is printed after an error is left open.
#[tactic(auto, unfolding(isle_printer::specs::Token::step, isle_printer::specs::Token::begun))]
pub fn print_extend(out: &mut Printer, read: &Read) -> Result<(), AllocError>
    requires { IsRead read.now }
    ensures { OnOk result (out.new ≡ out.old ++ extend_tokens read.now) }
{
    out.piece("returns.extend(Some(")?;
    print_read(out, read)?;
    out.piece("));")
}

// Prints `{ return; }`, or a `return true;` in it.
#[tactic(auto, unfolding(isle_printer::specs::Token::step, isle_printer::specs::Token::begun))]
fn print_stop(out: &mut Printer, inside: bool) -> Result<(), AllocError>
    ensures { OnOk result (out.new ≡ out.old ++ stop_tokens inside) }
{
    if inside {
        out.piece(" { return true; }")
    } else {
        out.piece(" { return; }")
    }
}

/// Prints `if returns.len() >= LIMIT { return; }`, or a `return true;` in it. What is printed after an error is left
/// open.
#[tactic(auto, unfolding(isle_printer::specs::Token::step, isle_printer::specs::Token::begun))]
pub fn print_overflow(out: &mut Printer, inside: bool, limit: usize) -> Result<(), AllocError>
    ensures { OnOk result (out.new ≡ out.old ++ overflow_tokens inside limit) }
{
    out.piece("if returns.len() >= ")?;
    out.numbered("", limit)?;
    print_stop(out, inside)
}

/// Prints what a closure begins with. What is printed after an error is left open.
#[tactic(auto, unfolding(crate::specs::StatementSpelling::split_head, isle_printer::specs::Token::step, isle_printer::specs::Token::begun))]
pub fn print_split_head(out: &mut Printer) -> Result<(), AllocError>
    ensures { OnOk result (out.new ≡ out.old ++ split_head) }
{
    out.piece("if (|| -> bool {")
}

/// Prints what a closure gives after its last statement, on a line of its own, and on another what closes and calls it
/// and the stop after it. What is printed after an error is left open.
#[tactic(auto, unfolding(crate::specs::StatementSpelling::split_end, isle_printer::specs::Token::step, isle_printer::specs::Token::begun))]
pub fn print_split_end(out: &mut Printer, inside: bool) -> Result<(), AllocError>
    ensures { OnOk result (out.new ≡ out.old ++ split_end inside) }
{
    out.line()?;
    out.word("false")?;
    out.dedent();
    out.line()?;
    out.piece("})()")?;
    print_stop(out, inside)
}
