//! The text of calls.

ghost use Rattle.std.specs.Prelude.{◌≡◌, ◌++◌, [], ◌∷◌, OnOk};
ghost use Rattle.std.specs.List.{AllByRecursion};
ghost use Rattle.isle_printer.specs.Token.{Word};
ghost use Rattle.isle_spelling.specs.Identifier.{IsIdentifier};
ghost use Rattle.isle_target.specs.StatementSpelling.{constructor_word, call_head, term_call_head};
ghost use Rattle.isle_target.specs.StatementSpelling.{callee_head, args_tokens, call_tokens};
ghost use Rattle.isle_tree.specs.WellFormed.{IsTermName, IsRead, IsCallee, IsCall};

use crate::operand::print_read;
use isle_core::Callee;
use isle_printer::Printer;
use isle_tree::{Read, TCall};
use std::alloc::AllocError;

// Prints `C::F(ctx`.
#[tactic(auto, using(crate::proofs::Names::identifier_is_word))]
fn print_head(out: &mut Printer, name: &str) -> Result<(), AllocError>
    requires { IsIdentifier name.now }
    ensures { OnOk result (out.new ≡ out.old ++ call_head name.now) }
{
    out.word("C")?;
    out.mark("::")?;
    out.word(name)?;
    out.mark("(")?;
    out.word("ctx")
}

/// Prints the name of a term's function. What is printed after an error is left open.
#[tactic(auto, unfolding(crate::specs::StatementSpelling::constructor_word))]
pub fn print_constructor(out: &mut Printer, term: &str) -> Result<(), AllocError>
    requires { IsTermName term.now }
    ensures { OnOk result (out.new ≡ out.old ++ Word (constructor_word term.now) ∷ []) }
{
    out.prefixed("constructor_", term)
}

// Prints `constructor_T(ctx`.
fn print_term_head(out: &mut Printer, term: &str) -> Result<(), AllocError>
    requires { IsTermName term.now }
    ensures { OnOk result (out.new ≡ out.old ++ term_call_head term.now) }
{
    print_constructor(out, term)?;
    out.mark("(")?;
    out.word("ctx")
}

/// Prints what a call begins with, up to its context. What is printed after an error is left open.
pub fn print_callee(out: &mut Printer, callee: &Callee) -> Result<(), AllocError>
    requires { IsCallee callee.now }
    ensures { OnOk result (out.new ≡ out.old ++ callee_head callee.now) }
{
    match callee {
        Callee::External(name) => print_head(out, name.as_str()),
        Callee::Internal(term) => print_term_head(out, term.as_str()),
    }
}

/// Prints the arguments, each after a comma. What is printed after an error is left open.
pub fn print_args(out: &mut Printer, args: &[Read]) -> Result<(), AllocError>
    requires { AllByRecursion IsRead args.now }
    ensures { OnOk result (out.new ≡ out.old ++ args_tokens args.now) }
{
    for read in args {
        out.mark(",")?;
        out.space()?;
        print_read(out, read)?;
    }
    Ok(())
}

/// Prints a call of a function of the trait, or of a term's. What is printed after an error is left open.
pub fn print_call(out: &mut Printer, call: &TCall) -> Result<(), AllocError>
    requires { IsCall call.now }
    ensures { OnOk result (out.new ≡ out.old ++ call_tokens call.now.callee call.now.args) }
{
    print_callee(out, &call.callee)?;
    print_args(out, call.args.as_slice())?;
    out.mark(")")
}
