//! The text of made values.

ghost use Rattle.std.specs.Prelude.{◌≡◌, ◌++◌, OnOk};
ghost use Rattle.std.specs.List.{AllByRecursion};
ghost use Rattle.isle_spelling.specs.Identifier.{IsIdentifier};
ghost use Rattle.isle_target.specs.StatementSpelling.{field_read_tokens, field_reads_tokens};
ghost use Rattle.isle_target.specs.StatementSpelling.{made_tokens, expr_tokens};
ghost use Rattle.isle_tree.specs.declared.tree.TExpr.TheVariants as computed;
ghost use Rattle.isle_tree.specs.WellFormed.{IsFieldRead};

use crate::function::print_colon;
use crate::operand::print_read;
use isle_core::Text;
use isle_printer::Printer;
use isle_tree::Read;
use std::alloc::AllocError;

// Prints a field and what is read for it.
#[tactic(auto, using(crate::proofs::Names::field_is_word))]
fn print_field_read(out: &mut Printer, field: &(Text, Read)) -> Result<(), AllocError>
    requires { IsFieldRead field.now }
    ensures { OnOk result (out.new ≡ out.old ++ field_read_tokens field.now) }
{
    out.word(field.0.as_str())?;
    print_colon(out)?;
    print_read(out, &field.1)?;
    out.mark(",")
}

// Prints the fields, each after a blank, and what closes them.
fn print_field_reads(out: &mut Printer, fields: &[(Text, Read)]) -> Result<(), AllocError>
    requires { AllByRecursion IsFieldRead fields.now }
    ensures { OnOk result (out.new ≡ out.old ++ field_reads_tokens fields.now) }
{
    for field in fields {
        out.space()?;
        print_field_read(out, field)?;
    }
    out.space()?;
    out.mark("}")
}

// Prints the fields between braces, if there are any.
fn print_made(out: &mut Printer, fields: &[(Text, Read)]) -> Result<(), AllocError>
    requires { AllByRecursion IsFieldRead fields.now }
    ensures { OnOk result (out.new ≡ out.old ++ made_tokens fields.now) }
{
    match fields {
        [] => Ok(()),
        [_, ..] => {
            out.space()?;
            out.mark("{")?;
            print_field_reads(out, fields)
        }
    }
}

/// Prints a value that a variant makes. What is printed after an error is left open.
#[tactic(auto, using(crate::proofs::Names::identifier_is_word))]
pub fn print_variant_made(
    out: &mut Printer,
    ty: &str,
    variant: &str,
    fields: &[(Text, Read)],
) -> Result<(), AllocError>
    requires ty { IsIdentifier ty.now }
    requires variant { IsIdentifier variant.now }
    requires fields { AllByRecursion IsFieldRead fields.now }
    ensures { OnOk result
        (out.new ≡ out.old ++ expr_tokens (computed.Variant ty.now variant.now fields.now)) }
{
    out.word(ty)?;
    out.mark("::")?;
    out.word(variant)?;
    print_made(out, fields)
}

/// Prints a value that a struct makes. What is printed after an error is left open.
#[tactic(auto, using(crate::proofs::Names::identifier_is_word))]
pub fn print_struct_made(
    out: &mut Printer,
    ty: &str,
    fields: &[(Text, Read)],
) -> Result<(), AllocError>
    requires ty { IsIdentifier ty.now }
    requires fields { AllByRecursion IsFieldRead fields.now }
    ensures { OnOk result (out.new ≡ out.old ++ expr_tokens (computed.Struct ty.now fields.now)) }
{
    out.word(ty)?;
    print_made(out, fields)
}
