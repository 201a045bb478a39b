//! The two texts of the numeric prelude.

ghost use Rattle.std.specs.Prelude.{◌≡◌, IfOk, string_bytes};
ghost use Rattle.isle_numeric_methods.specs.Methods.{numeric_methods};
ghost use Rattle.isle_numerics.specs.Definitions.{numeric_defs};
ghost use Rattle.isle_writing.specs.Spelt.{SpellsOnly};
ghost use Rattle.isle_writing.specs.Text.{def_texts};

use isle_core::OutOfMemory;
use isle_numeric_methods::numerics_rust;
use isle_numeric_text::numerics_isle;
use std::alloc::Global;

/// Returns the numeric prelude in rules, and its methods in Rust. The only error is want of memory.
pub fn gen_numerics(alloc: Global) -> Result<(String, String), OutOfMemory>
    ensures rules { IfOk result (λ texts. string_bytes texts.0 ≡ def_texts numeric_defs) }
    ensures spelt { IfOk result (λ texts. SpellsOnly (string_bytes texts.0) numeric_defs) }
    ensures methods { IfOk result (λ texts. string_bytes texts.1 ≡ numeric_methods) }
{
    let rules = numerics_isle(alloc)?;
    let methods = numerics_rust(alloc)?;
    Ok((rules, methods))
}
