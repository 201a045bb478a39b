//! The text of the trait.

ghost use Rattle.std.specs.Prelude.{◌≡◌, ◌++◌, ◌∷◌, OnOk, codes};
ghost use Rattle.std.specs.List.{AllByRecursion};
ghost use Rattle.isle_core.specs.declared.types.ReturnKind.TheVariants.{Iterator};
ghost use Rattle.isle_printer.specs.Token.{Mark};
ghost use Rattle.isle_spelling.specs.Identifier.{IsIdentifier};
ghost use Rattle.isle_tree.specs.WellFormed.{AreResults, IsTy, IsTraitFn};
ghost use Rattle.isle_target.specs.Spelling.{returns_param, joined_end, list_type, trait_head};
ghost use Rattle.isle_target.specs.Spelling.{self_param};
ghost use Rattle.isle_target.specs.Spelling.{trait_fn_head, comma, joined_tokens, joined_types};
ghost use Rattle.isle_target.specs.Spelling.{item_tokens};
ghost use Rattle.isle_target.specs.Spelling.{results_tokens, trait_result, trait_fn_tokens};
ghost use Rattle.isle_target.specs.Spelling.{trait_fns_tokens};
ghost use Rattle.isle_target.specs.Spelling.{trait_tokens};

use crate::function::print_typed;
use isle_core::{ReturnKind, Text};
use isle_printer::Printer;
use isle_tree::{TraitFn, Ty};
use std::alloc::AllocError;

// Prints `(&mut self,`.
#[tactic(auto, unfolding(isle_printer::specs::Token::step, isle_printer::specs::Token::begun))]
fn print_self(out: &mut Printer) -> Result<(), AllocError>
    ensures { OnOk result (out.new ≡ out.old ++ self_param) }
{
    out.piece("(&mut self, ")
}

// Prints what a function begins with.
#[tactic(auto, using(crate::proofs::Names::identifier_is_word))]
fn print_name(out: &mut Printer, name: &str) -> Result<(), AllocError>
    requires { IsIdentifier name.now }
    ensures { OnOk result (out.new ≡ out.old ++ trait_fn_head name.now) }
{
    out.word("fn")?;
    out.word(name)?;
    print_self(out)
}

/// Prints what stands before the item of this number. What is printed after an error is left open.
pub fn print_comma(out: &mut Printer, i: usize) -> Result<(), AllocError>
    ensures { OnOk result (out.new ≡ out.old ++ comma i) }
{
    if i == 0 {
        return Ok(());
    }
    out.mark(",")?;
    out.space()
}

// Prints the parameters.
fn print_joined(out: &mut Printer, params: &[Ty]) -> Result<(), AllocError>
    requires { AllByRecursion IsTy params.now }
    ensures { OnOk result (out.new ≡ out.old ++ joined_tokens 0 params.now) }
{
    for (i, ty) in params.iter().enumerate() {
        print_comma(out, i)?;
        print_typed(out, i, ty)?;
    }
    Ok(())
}

// Prints the list that a function fills as its last parameter, and what closes the parameters.
#[tactic(auto, using(crate::proofs::Names::identifier_is_word), unfolding(isle_printer::specs::Token::step, isle_printer::specs::Token::begun))]
fn print_returns(out: &mut Printer, name: &str) -> Result<(), AllocError>
    requires { IsIdentifier name.now }
    ensures { OnOk result (out.new ≡ out.old ++ returns_param name.now) }
{
    out.piece("returns: &mut ")?;
    out.word("Self")?;
    out.mark("::")?;
    out.prefixed(name, "_returns")?;
    out.mark(")")
}

// Prints what closes so many parameters.
fn print_joined_end(
    out: &mut Printer,
    kind: ReturnKind,
    name: &str,
    count: usize,
) -> Result<(), AllocError>
    requires { IsIdentifier name.now }
    ensures { OnOk result (out.new ≡ out.old ++ joined_end kind name.now count) }
{
    match kind {
        ReturnKind::Plain | ReturnKind::Option => out.mark(")"),
        ReturnKind::Iterator => {
            print_comma(out, count)?;
            print_returns(out, name)
        }
    }
}

// Prints the types of a tuple, and what closes them.
#[tactic(auto, using(crate::proofs::Names::identifier_is_word))]
fn print_joined_types(out: &mut Printer, tys: &[Text]) -> Result<(), AllocError>
    requires { AreResults tys.now }
    ensures { OnOk result (out.new ≡ out.old ++ joined_types 0 tys.now) }
{
    for (i, ty) in tys.iter().enumerate() {
        print_comma(out, i)?;
        out.word(ty.as_str())?;
    }
    out.mark(")")
}

// Prints a tuple of the types.
fn print_tuple(out: &mut Printer, tys: &[Text]) -> Result<(), AllocError>
    requires { AreResults tys.now }
    ensures { OnOk result (out.new ≡ out.old ++ Mark (codes "(") ∷ joined_types 0 tys.now) }
{
    out.mark("(")?;
    print_joined_types(out, tys)
}

// Prints the type of an answer's results: the one, or a tuple of none or several.
#[tactic(auto, using(crate::proofs::Names::identifier_is_word))]
fn print_item(out: &mut Printer, tys: &[Text]) -> Result<(), AllocError>
    requires { AreResults tys.now }
    ensures { OnOk result (out.new ≡ out.old ++ item_tokens tys.now) }
{
    match tys {
        [ty] => out.word(ty.as_str()),
        [] | [_, _, ..] => print_tuple(out, tys),
    }
}

// Prints what a function of the trait gives.
fn print_results(out: &mut Printer, kind: ReturnKind, tys: &[Text]) -> Result<(), AllocError>
    requires { AreResults tys.now }
    ensures { OnOk result (out.new ≡ out.old ++ results_tokens kind tys.now) }
{
    match kind {
        ReturnKind::Plain => print_item(out, tys),
        ReturnKind::Option => {
            out.word("Option")?;
            out.mark("<")?;
            print_item(out, tys)?;
            out.mark(">")
        }
        ReturnKind::Iterator => {
            out.mark("(")?;
            out.mark(")")
        }
    }
}

// Prints `-> RESULT;`.
fn print_end(out: &mut Printer, kind: ReturnKind, tys: &[Text]) -> Result<(), AllocError>
    requires { AreResults tys.now }
    ensures { OnOk result (out.new ≡ out.old ++ trait_result kind tys.now) }
{
    out.space()?;
    out.mark("->")?;
    out.space()?;
    print_results(out, kind, tys)?;
    out.mark(";")
}

// Prints the type of the list that a function fills.
#[tactic(auto, using(crate::proofs::Names::identifier_is_word), unfolding(isle_printer::specs::Token::step, isle_printer::specs::Token::begun))]
fn print_list(out: &mut Printer, name: &str, tys: &[Text]) -> Result<(), AllocError>
    requires name { IsIdentifier name.now }
    requires results { AreResults tys.now }
    ensures { OnOk result (out.new ≡ out.old ++ list_type Iterator name.now tys.now) }
{
    out.piece("type ")?;
    out.prefixed(name, "_returns")?;
    out.piece(": Default + IntoContextIter<Context = Self, Output = ")?;
    print_item(out, tys)?;
    out.mark(">")?;
    out.mark(";")
}

// Prints this type on a line of its own, if the function answers several times.
fn print_list_type(
    out: &mut Printer,
    kind: ReturnKind,
    name: &str,
    tys: &[Text],
) -> Result<(), AllocError>
    requires name { IsIdentifier name.now }
    requires results { AreResults tys.now }
    ensures { OnOk result (out.new ≡ out.old ++ list_type kind name.now tys.now) }
{
    match kind {
        ReturnKind::Plain | ReturnKind::Option => Ok(()),
        ReturnKind::Iterator => {
            out.line()?;
            print_list(out, name, tys)
        }
    }
}

// Prints a function of the trait on a line of its own.
fn print_trait_fn(out: &mut Printer, f: &TraitFn) -> Result<(), AllocError>
    requires { IsTraitFn f.now }
    ensures { OnOk result (out.new ≡ out.old ++ trait_fn_tokens f.now) }
{
    let name = f.name.as_str();
    let params = f.params.as_slice();
    let results = f.results.as_slice();
    print_list_type(out, f.kind, name, results)?;
    out.line()?;
    print_name(out, name)?;
    print_joined(out, params)?;
    print_joined_end(out, f.kind, name, params.len())?;
    print_end(out, f.kind, results)
}

// Prints the functions of the trait, each on a line.
fn print_trait_fns(out: &mut Printer, fns: &[TraitFn]) -> Result<(), AllocError>
    requires { AllByRecursion IsTraitFn fns.now }
    ensures { OnOk result (out.new ≡ out.old ++ trait_fns_tokens fns.now) }
{
    out.indent();
    for f in fns {
        print_trait_fn(out, f)?;
    }
    out.dedent();
    out.line()
}

// Prints what the trait begins with.
#[tactic(auto, unfolding(isle_printer::specs::Token::step, isle_printer::specs::Token::begun))]
fn print_trait_head(out: &mut Printer) -> Result<(), AllocError>
    ensures { OnOk result (out.new ≡ out.old ++ trait_head) }
{
    out.piece("pub trait Context {")
}

/// Prints the trait that a program's functions are generic over. What is printed after an error is left open.
pub fn print_trait(out: &mut Printer, fns: &[TraitFn]) -> Result<(), AllocError>
    requires { AllByRecursion IsTraitFn fns.now }
    ensures { OnOk result (out.new ≡ out.old ++ trait_tokens fns.now) }
{
    print_trait_head(out)?;
    print_trait_fns(out, fns)?;
    out.mark("}")
}
