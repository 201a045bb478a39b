//! The text of the function of a term.

ghost use Rattle.std.specs.Prelude.{◌≡◌, ◌++◌, [], ◌∷◌, OnOk, codes};
ghost use Rattle.std.specs.List.{AllByRecursion};
ghost use Rattle.isle_printer.specs.Token.{Word, Mark};
ghost use Rattle.isle_tree.specs.Views.{function, body};
ghost use Rattle.isle_spelling.specs.Identifier.{IsIdentifier};
ghost use Rattle.isle_tree.specs.WellFormed.{IsTermName, IsTy, IsBody, HasNames};
ghost use Rattle.isle_target.specs.Spelling.{generics, context_param, function_head, typed_tokens};
ghost use Rattle.isle_target.specs.Spelling.{param_tokens, params_tokens, returns_head};
ghost use Rattle.isle_target.specs.Spelling.{returns_end};
ghost use Rattle.isle_target.specs.Spelling.{result_tokens, result_part, function_tokens};

use crate::call::print_constructor;
use crate::operand::print_borrow;
use crate::statement::{print_body, print_close};
use isle_core::ReturnKind;
use isle_printer::Printer;
use isle_tree::{Function, Ty};
use std::alloc::AllocError;

// Prints `pub fn`.
#[tactic(auto, unfolding(isle_printer::specs::Token::step, isle_printer::specs::Token::begun))]
fn print_pub(out: &mut Printer) -> Result<(), AllocError>
    ensures { OnOk result (out.new ≡ out.old ++ Word (codes "pub") ∷ Word (codes "fn") ∷ []) }
{
    out.piece("pub fn ")
}

// Prints `<C: Context>(ctx: &mut C,`.
#[tactic(auto, unfolding(isle_printer::specs::Token::step, isle_printer::specs::Token::begun))]
fn print_generics(out: &mut Printer) -> Result<(), AllocError>
    ensures { OnOk result (out.new ≡ out.old ++ (generics ++ context_param)) }
{
    out.piece("<C: Context>(ctx: &mut C,")
}

// Prints what a function begins with, up to its context.
fn print_head(out: &mut Printer, term: &str) -> Result<(), AllocError>
    requires { IsTermName term.now }
    ensures { OnOk result (out.new ≡ out.old ++ function_head term.now) }
{
    print_pub(out)?;
    print_constructor(out, term)?;
    print_generics(out)
}

/// Prints `:`, with a blank after it. What is printed after an error is left open.
#[tactic(auto, unfolding(isle_printer::specs::Token::step, isle_printer::specs::Token::begun))]
pub fn print_colon(out: &mut Printer) -> Result<(), AllocError>
    ensures { OnOk result (out.new ≡ out.old ++ Mark (codes ":") ∷ []) }
{
    out.piece(": ")
}

/// Prints the parameter of this number with its type. What is printed after an error is left open.
#[tactic(auto, using(crate::proofs::Names::identifier_is_word))]
pub fn print_typed(out: &mut Printer, i: usize, ty: &Ty) -> Result<(), AllocError>
    requires { IsTy ty.now }
    ensures { OnOk result (out.new ≡ out.old ++ typed_tokens i ty.now) }
{
    out.numbered("arg", i)?;
    print_colon(out)?;
    print_borrow(out, ty.by_ref)?;
    out.word(ty.name.as_str())
}

// Prints the parameter of this number, and its comma.
fn print_param(out: &mut Printer, i: usize, ty: &Ty) -> Result<(), AllocError>
    requires { IsTy ty.now }
    ensures { OnOk result (out.new ≡ out.old ++ param_tokens i ty.now) }
{
    out.space()?;
    print_typed(out, i, ty)?;
    out.mark(",")
}

// Prints the parameters.
fn print_params(out: &mut Printer, params: &[Ty]) -> Result<(), AllocError>
    requires { AllByRecursion IsTy params.now }
    ensures { OnOk result (out.new ≡ out.old ++ params_tokens 0 params.now) }
{
    for (i, ty) in params.iter().enumerate() {
        print_param(out, i, ty)?;
    }
    Ok(())
}

// Prints the list that results are appended to as the last parameter, and what closes the parameters.
#[tactic(auto, using(crate::proofs::Names::identifier_is_word), unfolding(isle_printer::specs::Token::step, isle_printer::specs::Token::begun))]
fn print_returns(out: &mut Printer, ty: &str) -> Result<(), AllocError>
    requires { IsIdentifier ty.now }
    ensures { OnOk result (out.new ≡ out.old ++ (returns_head ++ Word ty.now ∷ returns_end)) }
{
    out.piece(" returns: &mut (impl Extend<")?;
    out.word(ty)?;
    out.piece("> + Length),) -> ()")
}

// Prints what closes the parameters, and `->`.
#[tactic(auto, unfolding(isle_printer::specs::Token::step, isle_printer::specs::Token::begun))]
fn print_arrow(out: &mut Printer) -> Result<(), AllocError>
    ensures { OnOk result (out.new ≡ out.old ++ Mark (codes ")") ∷ Mark (codes "->") ∷ []) }
{
    out.piece(") -> ")
}

// Prints what closes the parameters, and what a function gives.
#[tactic(auto, using(crate::proofs::Names::identifier_is_word))]
fn print_result(out: &mut Printer, kind: ReturnKind, ty: &str) -> Result<(), AllocError>
    requires { IsIdentifier ty.now }
    ensures { OnOk result (out.new ≡ out.old ++ result_tokens kind ty.now) }
{
    match kind {
        ReturnKind::Plain => {
            print_arrow(out)?;
            out.word(ty)
        }
        ReturnKind::Option => {
            print_arrow(out)?;
            out.word("Option")?;
            out.mark("<")?;
            out.word(ty)?;
            out.mark(">")
        }
        ReturnKind::Iterator => print_returns(out, ty),
    }
}

// Prints what closes the parameters, what a function gives, and `{`.
fn print_gives(out: &mut Printer, kind: ReturnKind, ty: &str) -> Result<(), AllocError>
    requires { IsIdentifier ty.now }
    ensures { OnOk result (out.new ≡ out.old ++ result_part kind ty.now) }
{
    print_result(out, kind, ty)?;
    out.space()?;
    out.mark("{")
}

/// Prints the function of a term after a line of its own. What is printed after an error is left open.
pub fn print_function(out: &mut Printer, f: &Function) -> Result<(), AllocError>
    requires names { HasNames (function f.now) }
    requires forms { IsBody (body f.now.body) }
    ensures { OnOk result (out.new ≡ out.old ++ function_tokens (function f.now)) }
{
    out.line()?;
    print_head(out, f.term.as_str())?;
    print_params(out, f.params.as_slice())?;
    print_gives(out, f.kind, f.result.as_str())?;
    print_body(out, f.body.as_slice())?;
    print_close(out)?;
    out.line()
}
