//! Definitions as the text that spells them.

ghost use Rattle.std.specs.Prelude.{◌≡◌, ◌++◌, OnOk, IfOk, string_bytes};
ghost use Rattle.isle_ast.specs.Views.{defs as seen};
ghost use Rattle.isle_writing.specs.Text.{def_texts};
ghost use Rattle.isle_writing.specs.Writable.{AreWritable};
ghost use Rattle.isle_writing.specs.Spelt.{AreSpelt};

use crate::definition::push_def;
use isle_ast::Def;
use isle_outside::OutOfMemory;
use std::alloc::{AllocError, Global};

/// Appends definitions in order, each on lines of its own. The only error is want of memory.
pub fn push_defs(text: &mut String, defs: &[Def<'_>]) -> Result<(), AllocError>
    ensures { OnOk result
        (string_bytes text.new ≡ string_bytes text.old ++ def_texts (seen defs.now)) }
{
    for def in defs {
        push_def(text, def)?;
    }
    Ok(())
}

/// Returns the text of definitions, each on lines of its own, which spells them: read as the file of any number, it
/// gives these definitions and no others, up to their places. If one of them declares a term that has the name of a
/// flag, it spells nothing. The only error is want of memory.
#[tactic(auto, using(crate::proofs::WrittenLaw::written_spelt))]
pub fn write_defs(alloc: Global, defs: &[Def<'_>]) -> Result<String, OutOfMemory>
    requires { AreWritable (seen defs.now) }
    ensures text { IfOk result (λ text. string_bytes text ≡ def_texts (seen defs.now)) }
    ensures spelt { IfOk result (λ text. AreSpelt (string_bytes text) (seen defs.now)) }
{
    let mut text = String::new(alloc);
    push_defs(&mut text, defs)?;
    Ok(text)
}
