//! The text of patterns.

ghost use Rattle.std.specs.Prelude.{◌≡◌, ◌++◌, [], ◌∷◌, OnOk};
ghost use Rattle.std.specs.List.{AllByRecursion};
ghost use Rattle.isle_spelling.specs.Identifier.{IsIdentifier};
ghost use Rattle.isle_target.specs.StatementSpelling.{ref_part, bind_tokens, more_part};
ghost use Rattle.isle_target.specs.StatementSpelling.{binds_tokens};
ghost use Rattle.isle_target.specs.StatementSpelling.{braced_tokens, inner_token, pattern_tokens};
ghost use Rattle.isle_tree.specs.WellFormed.{IsBind, IsPattern};

use crate::function::print_colon;
use crate::operand::print_operand;
use isle_printer::Printer;
use isle_tree::{TBind, TPat};
use std::alloc::AllocError;

// Prints `ref`, if a field is bound by it.
fn print_ref(out: &mut Printer, by_ref: bool) -> Result<(), AllocError>
    ensures { OnOk result (out.new ≡ out.old ++ ref_part by_ref) }
{
    if by_ref { out.word("ref") } else { Ok(()) }
}

// Prints a field and its local.
#[tactic(auto, using(crate::proofs::Names::field_is_word))]
fn print_bind(out: &mut Printer, bind: &TBind) -> Result<(), AllocError>
    requires { IsBind bind.now }
    ensures { OnOk result (out.new ≡ out.old ++ bind_tokens bind.now) }
{
    out.word(bind.field.as_str())?;
    print_colon(out)?;
    print_ref(out, bind.by_ref)?;
    out.numbered("v", bind.local)?;
    out.mark(",")
}

// Prints `..`, if fields are left out.
fn print_more(out: &mut Printer, more: bool) -> Result<(), AllocError>
    ensures { OnOk result (out.new ≡ out.old ++ more_part more) }
{
    if more {
        out.space()?;
        return out.mark("..");
    }
    Ok(())
}

// Prints the fields, each after a blank, and what closes them.
fn print_binds(out: &mut Printer, binds: &[TBind], more: bool) -> Result<(), AllocError>
    requires { AllByRecursion IsBind binds.now }
    ensures { OnOk result (out.new ≡ out.old ++ binds_tokens binds.now more) }
{
    for bind in binds {
        out.space()?;
        print_bind(out, bind)?;
    }
    print_more(out, more)?;
    out.space()?;
    out.mark("}")
}

// Prints the fields between braces, if there are any or some are left out.
fn print_braced(out: &mut Printer, binds: &[TBind], more: bool) -> Result<(), AllocError>
    requires { AllByRecursion IsBind binds.now }
    ensures { OnOk result (out.new ≡ out.old ++ braced_tokens binds.now more) }
{
    if binds.is_empty() && !more {
        return Ok(());
    }
    out.space()?;
    out.mark("{")?;
    print_binds(out, binds, more)
}

// Prints a variant's pattern.
#[tactic(auto, using(crate::proofs::Names::identifier_is_word))]
fn print_variant_pattern(
    out: &mut Printer,
    ty: &str,
    variant: &str,
    binds: &[TBind],
    more: bool,
) -> Result<(), AllocError>
    requires ty { IsIdentifier ty.now }
    requires variant { IsIdentifier variant.now }
    requires binds { AllByRecursion IsBind binds.now }
    ensures { OnOk result
        (out.new ≡ out.old ++ pattern_tokens (TPat.Variant ty.now variant.now binds.now more)) }
{
    out.mark("&")?;
    out.word(ty)?;
    out.mark("::")?;
    out.word(variant)?;
    print_braced(out, binds, more)
}

// Prints a struct's pattern.
#[tactic(auto, using(crate::proofs::Names::identifier_is_word))]
fn print_struct_pattern(
    out: &mut Printer,
    ty: &str,
    binds: &[TBind],
    more: bool,
) -> Result<(), AllocError>
    requires ty { IsIdentifier ty.now }
    requires binds { AllByRecursion IsBind binds.now }
    ensures { OnOk result
        (out.new ≡ out.old ++ pattern_tokens (TPat.Struct ty.now binds.now more)) }
{
    out.mark("&")?;
    out.word(ty)?;
    print_braced(out, binds, more)
}

// Prints the local within `Some(..)`, or `_`.
fn print_inner(out: &mut Printer, local: Option<usize>) -> Result<(), AllocError>
    ensures { OnOk result (out.new ≡ out.old ++ inner_token local ∷ []) }
{
    match local {
        Some(n) => out.numbered("v", n),
        None => out.word("_"),
    }
}

// Prints the pattern of an option of something.
fn print_some_pattern(out: &mut Printer, local: Option<usize>) -> Result<(), AllocError>
    ensures { OnOk result (out.new ≡ out.old ++ pattern_tokens (TPat.Some local)) }
{
    out.word("Some")?;
    out.mark("(")?;
    print_inner(out, local)?;
    out.mark(")")
}

/// Prints a pattern. What is printed after an error is left open.
pub fn print_pattern(out: &mut Printer, pat: &TPat) -> Result<(), AllocError>
    requires { IsPattern pat.now }
    ensures { OnOk result (out.new ≡ out.old ++ pattern_tokens pat.now) }
{
    match pat {
        TPat::Const(o) => print_operand(out, o),
        TPat::Variant {
            ty,
            variant,
            binds,
            more,
        } => print_variant_pattern(out, ty.as_str(), variant.as_str(), binds.as_slice(), *more),
        TPat::Struct { ty, binds, more } => {
            print_struct_pattern(out, ty.as_str(), binds.as_slice(), *more)
        }
        TPat::Some(local) => print_some_pattern(out, *local),
    }
}
