//! The two texts of an assembler.

ghost use Rattle.std.specs.Prelude.{◌≡◌, ℕ, List, [], None, IfOk, string_bytes};
ghost use Rattle.isle_assembler_rows.specs.AssemblerRows.{IsFirstInst};
ghost use Rattle.isle_assembler.specs.AssemblerDefs.{assembler_defs, assembler_layout};
ghost use Rattle.isle_assembler.specs.Generated.{Gives, IsMacroText, IsRuleText};
ghost use Rattle.isle_meta.specs.Checked.{Checks};
ghost use Rattle.isle_writing.specs.LaidDefs.{laid_texts};
ghost use Rattle.isle_writing.specs.Spelt.{SpellsOnly};

use crate::methods::methods_of;
use crate::rules::rule_text;
use isle_assembler_rows::unsupported_inst;
use isle_meta::{Inst, TableFail, checked};
use std::alloc::{AllocError, Global};

/// Returns the rules of an assembler: of each instruction whose mnemonic doesn't begin with `push` the term that Rust
/// gives, and one term for each of its constructors. If the instructions are supported after terms of any names, the
/// text spells these definitions and no others. The only error is want of memory.
#[tactic(auto, using(crate::proofs::TextLaws::rules_are, crate::proofs::RulesSpelt::rules_spelt))]
pub fn rules_of(alloc: Global, insts: &[Inst]) -> Result<String, AllocError>
    ensures written { IfOk result
        (λ text. string_bytes text ≡ laid_texts (assembler_layout insts.now)) }
    ensures spelt { (earlier : List (List ℕ)) → IsFirstInst earlier insts.now None
        → IfOk result (λ text. SpellsOnly (string_bytes text) (assembler_defs insts.now)) }
{
    rule_text(alloc, insts)
}

// Whether each instruction is supported, or else the first that isn't.
fn check_insts(alloc: Global, insts: &[Inst]) -> Result<(), TableFail>
    ensures { Checks (IsFirstInst [] insts.now) result }
{
    let found = unsupported_inst(alloc, &[], insts)?;
    checked(alloc, found)
}

/// Returns the rules of an assembler, as `rules_of` gives them, if each instruction is supported. `Unsupported` has the
/// first instruction that isn't, and the first shape that it breaks; `Memory` says that memory ran out.
pub fn isle_text(alloc: Global, insts: &[Inst]) -> Result<String, TableFail>
    ensures { Gives (IsRuleText insts.now) insts.now result }
{
    match check_insts(alloc, insts) {
        Ok(()) => {}
        Err(fail) => return Err(fail),
    }
    let text = rules_of(alloc, insts)?;
    Ok(text)
}

/// Returns the Rust text of an assembler, as `methods_of` gives it, if each instruction is supported. Its errors are as
/// with `isle_text`.
pub fn rust_text(alloc: Global, insts: &[Inst]) -> Result<String, TableFail>
    ensures { Gives (IsMacroText insts.now) insts.now result }
{
    match check_insts(alloc, insts) {
        Ok(()) => {}
        Err(fail) => return Err(fail),
    }
    let text = methods_of(alloc, insts)?;
    Ok(text)
}
