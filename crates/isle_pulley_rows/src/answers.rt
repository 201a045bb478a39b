//! The results of operations.

ghost use Rattle.std.specs.Prelude.{◌≡◌, ◌++◌, IfOk, OnOk};
ghost use Rattle.isle_meta.specs.TableNames.{texts};
ghost use Rattle.isle_pulley_rows.specs.Results.{result_types, results as results_of};

use crate::operand::Operand;
use std::alloc::{AllocError, Global};

// Puts the type of what an operand writes behind types.
fn push_result<'t>(types: &mut Vec<&'t str>, operand: &'t Operand<'_>) -> Result<(), AllocError>
    ensures { OnOk result
        (texts types.new.items ≡ texts types.old.items ++ result_types operand.now) }
{
    match operand {
        Operand::Normal(_, _) => {}
        Operand::Writable(_, ty) => types.push(ty.as_str())?,
        Operand::Binop(dst, _, _) => types.push(dst.as_str())?,
        Operand::Trap => {}
    }
    Ok(())
}

/// Returns the types of the results of operands, in order. The only error is want of memory.
pub fn results<'t>(alloc: Global, operands: &'t [Operand<'_>]) -> Result<Vec<&'t str>, AllocError>
    ensures { IfOk result (λ types. texts types.items ≡ results_of operands.now) }
{
    let mut types = Vec::new(alloc);
    for operand in operands {
        push_result(&mut types, operand)?;
    }
    Ok(types)
}
