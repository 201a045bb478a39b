//! The text of a program.

ghost use Rattle.std.specs.Prelude.{◌≡◌, ◌++◌, OnOk, IfOk, string_bytes};
ghost use Rattle.isle_printer.specs.Token.{tokens_of, HasNoComment};
ghost use Rattle.isle_tree.specs.Views.{program};
ghost use Rattle.isle_tree.specs.WellFormed.{IsWellFormed};
ghost use Rattle.isle_spelling.specs.Fixed.{uses_tokens};
ghost use Rattle.isle_target.specs.Spelling.{allow_part, functions_tokens, program_tokens};
ghost use Rattle.isle_target.specs.Reading.{SpellsOnly};

use crate::context::print_trait;
use crate::function::print_function;
use crate::types::print_types;
use isle_core::OutOfMemory;
use isle_printer::Printer;
use isle_spelling::{print_allow, print_fixed, print_uses};
use isle_tree::Program;
use std::alloc::{AllocError, Global};

// The allow lines, if they are wanted, and the uses.
fn print_head(out: &mut Printer, allow: bool) -> Result<(), AllocError>
    ensures { OnOk result (out.new ≡ out.old ++ (allow_part allow ++ uses_tokens)) }
{
    if allow {
        print_allow(out)?;
    }
    print_uses(out)
}

// The functions of a program.
fn print_functions(out: &mut Printer, p: &Program) -> Result<(), AllocError>
    requires { IsWellFormed (program p.now) }
    ensures { OnOk result (out.new ≡ out.old ++ functions_tokens (program p.now).fns) }
{
    for f in p.fns.as_slice() {
        print_function(out, f)?;
    }
    Ok(())
}

/// Prints a well-formed program: the text spells it and no other, and no comment stands in it. The only error is want
/// of memory.
pub fn print_program(alloc: Global, p: &Program) -> Result<String, OutOfMemory>
    requires { IsWellFormed (program p.now) }
    ensures spells { IfOk result (λ text. SpellsOnly (string_bytes text) (program p.now)) }
    ensures tokens { IfOk result (λ text.
        tokens_of (string_bytes text) ≡ program_tokens (program p.now)) }
    ensures no_comment { IfOk result (λ text. HasNoComment (string_bytes text)) }
{
    let mut out = Printer::new(alloc);
    print_head(&mut out, p.allow)?;
    print_trait(&mut out, p.trait_fns.as_slice())?;
    print_fixed(&mut out)?;
    print_types(&mut out, p.types.as_slice())?;
    print_functions(&mut out, p)?;
    Ok(out.into_text())
}
