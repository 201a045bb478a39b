//! The arguments of terms.

ghost use Rattle.std.specs.Prelude.{◌≡◌, ◌++◌, [], IfOk, OnOk, string_bytes};
ghost use Rattle.std.specs.List.{flat_map};
ghost use Rattle.isle_pulley.specs.Pieces.{arguments_piece};
ghost use Rattle.isle_pulley.specs.RuleFile.{argument_types, param_types as types_of};
ghost use Rattle.isle_meta.specs.TableNames.{texts};
ghost use Rattle.isle_writing.specs.Text.{spaced};

use isle_printer::push_two;
use isle_pulley_rows::Operand;
use std::alloc::{AllocError, Global};

// Puts the types of the arguments that an operand gives behind types.
fn push_types<'t>(types: &mut Vec<&'t str>, operand: &'t Operand<'_>) -> Result<(), AllocError>
    ensures { OnOk result
        (texts types.new.items ≡ texts types.old.items ++ argument_types operand.now) }
{
    match operand {
        Operand::Normal(_, ty) => types.push(ty.as_str())?,
        Operand::Writable(_, _) => {}
        Operand::Binop(_, src1, src2) => {
            types.push(src1.as_str())?;
            types.push(src2.as_str())?;
        }
        Operand::Trap => types.push("TrapCode")?,
    }
    Ok(())
}

/// Returns the types of the arguments of an operation's term. The only error is want of memory.
pub fn param_types<'t>(
    alloc: Global,
    operands: &'t [Operand<'_>],
) -> Result<Vec<&'t str>, AllocError>
    ensures { IfOk result (λ types. texts types.items ≡ types_of operands.now) }
{
    let mut types = Vec::new(alloc);
    for operand in operands {
        push_types(&mut types, operand)?;
    }
    Ok(types)
}

/// Appends types with blanks between them. The only error is want of memory.
pub fn push_spaced(text: &mut String, types: &[&str]) -> Result<(), AllocError>
    ensures { OnOk result
        (string_bytes text.new ≡ string_bytes text.old ++ spaced [] (texts types.now)) }
{
    let mut before = "";
    for ty in types {
        push_two(text, before, ty)?;
        before = " ";
    }
    Ok(())
}

// Appends the arguments of an operand, each after a blank.
fn push_arguments_of(text: &mut String, operand: &Operand<'_>) -> Result<(), AllocError>
    ensures { OnOk result
        (string_bytes text.new ≡ string_bytes text.old ++ arguments_piece operand.now) }
{
    match operand {
        Operand::Normal(name, _) => push_two(text, " ", name.as_str()),
        Operand::Writable(_, _) => Ok(()),
        Operand::Binop(_, _, _) => text.push_str(" src1 src2"),
        Operand::Trap => text.push_str(" code"),
    }
}

/// Appends the arguments of a term, each after a blank. The only error is want of memory.
pub fn push_arguments(text: &mut String, operands: &[Operand<'_>]) -> Result<(), AllocError>
    ensures { OnOk result
        (string_bytes text.new
        ≡ string_bytes text.old ++ flat_map arguments_piece operands.now) }
{
    for operand in operands {
        push_arguments_of(text, operand)?;
    }
    Ok(())
}
