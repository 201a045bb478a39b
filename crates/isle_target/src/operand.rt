//! The text of operands.

ghost use Rattle.std.specs.Prelude.{◌≡◌, ◌++◌, [], ◌∷◌, OnOk, codes};
ghost use Rattle.isle_printer.specs.Token.{Mark};
ghost use Rattle.isle_target.specs.StatementSpelling.{operand_tokens, clone_part, read_tokens};
ghost use Rattle.isle_target.specs.StatementSpelling.{borrow_part};
ghost use Rattle.isle_tree.specs.WellFormed.{IsOperand, IsRead};

use isle_printer::Printer;
use isle_spelling::{print_literal, print_raw};
use isle_tree::{Operand, Read};
use std::alloc::AllocError;

/// Prints an operand. What is printed after an error is left open.
#[tactic(auto, using(crate::proofs::Names::name_is_word))]
pub fn print_operand(out: &mut Printer, o: &Operand) -> Result<(), AllocError>
    requires { IsOperand o.now }
    ensures { OnOk result (out.new ≡ out.old ++ operand_tokens o.now) }
{
    match o {
        Operand::Local(n) => out.numbered("v", *n),
        Operand::Arg(n) => out.numbered("arg", *n),
        Operand::Bool(true) => out.word("true"),
        Operand::Bool(false) => out.word("false"),
        Operand::Int(ty, val) => print_literal(out, *ty, *val),
        Operand::Raw(val) => print_raw(out, *val),
        Operand::Name(name) => out.word(name.as_str()),
    }
}

// Prints `.clone()`.
#[tactic(auto, unfolding(isle_printer::specs::Token::step, isle_printer::specs::Token::begun))]
fn print_clone(out: &mut Printer) -> Result<(), AllocError>
    ensures { OnOk result (out.new ≡ out.old ++ clone_part) }
{
    out.piece(".clone()")
}

/// Prints a `&`, if something is after one. What is printed after an error is left open.
pub fn print_borrow(out: &mut Printer, borrow: bool) -> Result<(), AllocError>
    ensures { OnOk result (out.new ≡ out.old ++ borrow_part borrow) }
{
    if borrow { out.mark("&") } else { Ok(()) }
}

/// Prints an operand as it is read. What is printed after an error is left open.
pub fn print_read(out: &mut Printer, read: &Read) -> Result<(), AllocError>
    requires { IsRead read.now }
    ensures { OnOk result (out.new ≡ out.old ++ read_tokens read.now) }
{
    match read {
        Read::Plain(o) => print_operand(out, o),
        Read::Borrow(o) => {
            out.mark("&")?;
            print_operand(out, o)
        }
        Read::Clone(o) => {
            print_operand(out, o)?;
            print_clone(out)
        }
    }
}
