//! The texts of an assembler, appended to a formatter.

ghost use Rattle.isle_assembler.specs.Generated.{Appends, IsMacroText, IsRuleText};

use crate::texts::{isle_text, rust_text};
use isle_meta::{Formatter, Inst, TableFail};
use std::alloc::Global;

/// Appends the rules of an assembler to a formatter's text, as `isle_text` gives them. A refusal leaves it as it was.
pub fn generate_isle(alloc: Global, f: &mut Formatter, insts: &[Inst]) -> Result<(), TableFail>
    ensures { Appends (IsRuleText insts.now) insts.now f.old f.new result }
{
    match isle_text(alloc, insts) {
        Ok(text) => match f.push_text(text.as_str()) {
            Ok(()) => Ok(()),
            Err(_) => Err(TableFail::Memory),
        },
        Err(fail) => Err(fail),
    }
}

/// Appends the macro of an assembler's methods to a formatter's text, as `rust_text` gives it. A refusal leaves it as
/// it was.
pub fn generate_rust_macro(
    alloc: Global,
    f: &mut Formatter,
    insts: &[Inst],
) -> Result<(), TableFail>
    ensures { Appends (IsMacroText insts.now) insts.now f.old f.new result }
{
    match rust_text(alloc, insts) {
        Ok(text) => match f.push_text(text.as_str()) {
            Ok(()) => Ok(()),
            Err(_) => Err(TableFail::Memory),
        },
        Err(fail) => Err(fail),
    }
}
