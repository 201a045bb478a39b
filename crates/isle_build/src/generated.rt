//! The texts of generated files.

ghost use Rattle.std.specs.Prelude.{◌≡◌, IfOk, string_bytes};
ghost use Rattle.isle_build.specs.GeneratedFiles.{generated_text};

use isle_core::OutOfMemory;
use isle_meta::Tables;
use isle_numeric_text::numerics_isle;
use isle_prelude::{lower_of, opt_of};
use std::alloc::Global;

/// Returns the text of the generated file of this name, whether the rows of the tables are supported or not
/// (`specs/GeneratedFiles.antt`); a file of any other name is empty. The only error is want of memory.
pub fn generated_text(alloc: Global, tables: &Tables, name: &str) -> Result<String, OutOfMemory>
    ensures { IfOk result (λ text. string_bytes text ≡ generated_text tables.now name.now) }
{
    let text = match name {
        "gen/numerics.isle" => numerics_isle(alloc)?,
        "gen/clif_opt.isle" => opt_of(alloc, tables)?,
        "gen/clif_lower.isle" => lower_of(alloc, tables)?,
        "gen/assembler.isle" => isle_assembler::rules_of(alloc, tables.x64.as_slice())?,
        "gen/pulley_gen.isle" => {
            isle_pulley::rules_of(alloc, tables.ops.as_slice(), tables.extended_ops.as_slice())?
        }
        _ => String::new(alloc),
    };
    Ok(text)
}
