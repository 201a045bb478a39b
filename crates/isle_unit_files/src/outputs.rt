//! The files that texts are written to, in order.

ghost use Rattle.std.specs.Prelude.{◌≡◌, string_bytes};
ghost use Rattle.isle_meta.specs.Layout.{joined_name};
ghost use Rattle.isle_prelude_files.specs.Outputs.{AddsNoSeconds, KeepsCounts, Writes, file_of};
ghost use Rattle.isle_prelude_files.specs.Outputs.{files_of};
ghost use Rattle.isle_unit_files.specs.Made.{all_with, build_with, isle_with, pulley_with};

use crate::texts::{AllTexts, BuildTexts, IsleTexts};
use isle_core::Dir;
use isle_meta::GenError;
use isle_prelude_files::{Output, write_files};
use std::alloc::Global;

/// The folder of Rust texts, and that of rules.
#[derive(Clone, Copy)]
pub struct Folders<'n> {
    pub out: &'n str,
    pub rules: &'n str,
}

// A text beside the name of its file.
fn output<'t>(folder: &'t str, name: &'t str, text: &'t String) -> Output<'t>
    ensures { file_of result ≡ (joined_name folder.now name.now, string_bytes text.now) }
{
    Output {
        folder,
        name,
        text: text.as_str(),
    }
}

/// Writes Pulley's instructions in Rust.
pub fn write_pulley<D: Dir>(
    alloc: Global,
    folder: &str,
    text: &String,
    dir: &mut D,
) -> Result<usize, GenError>
    ensures files { Writes (pulley_with folder.now (string_bytes text.now))
        (D.files dir.old) (D.files dir.new) result }
    ensures entries { AddsNoSeconds (D.files dir.old) (D.files dir.new) }
    ensures counts { KeepsCounts result (D.counts dir.old) (D.counts dir.new) }
{
    let pulley = output(folder, "pulley_inst_gen.rs", text);
    write_files(alloc, &[pulley], dir)
}

// The texts among rules beside the names of their files, in order.
fn isle_outputs<'t>(folder: &'t str, texts: &'t IsleTexts) -> [Output<'t>; 6]
    ensures { files_of result ≡ isle_with folder.now texts.now }
{
    [
        output(folder, "numerics.isle", &texts.numerics),
        output(folder, "isle_numerics.rs", &texts.methods),
        output(folder, "clif_opt.isle", &texts.opt),
        output(folder, "clif_lower.isle", &texts.lower),
        output(folder, "pulley_gen.isle", &texts.pulley),
        output(folder, "assembler.isle", &texts.assembler),
    ]
}

/// Writes the texts among rules, in order.
pub fn write_isle<D: Dir>(
    alloc: Global,
    folder: &str,
    texts: &IsleTexts,
    dir: &mut D,
) -> Result<usize, GenError>
    ensures files { Writes (isle_with folder.now texts.now) (D.files dir.old) (D.files dir.new)
        result }
    ensures entries { AddsNoSeconds (D.files dir.old) (D.files dir.new) }
    ensures counts { KeepsCounts result (D.counts dir.old) (D.counts dir.new) }
{
    write_files(alloc, &isle_outputs(folder, texts), dir)
}

/// Writes the texts of each build, in order.
pub fn write_build<D: Dir>(
    alloc: Global,
    folders: Folders<'_>,
    texts: &BuildTexts,
    dir: &mut D,
) -> Result<usize, GenError>
    ensures files { Writes (build_with folders.entry texts.now) (D.files dir.old) (D.files dir.new)
        result }
    ensures entries { AddsNoSeconds (D.files dir.old) (D.files dir.new) }
    ensures counts { KeepsCounts result (D.counts dir.old) (D.counts dir.new) }
{
    let [numerics, methods, opt, lower, pulley, assembler] = isle_outputs(
        folders.rules,
        &texts.rules,
    );
    let methods_macro = output(folders.out, "assembler-isle-macro.rs", &texts.assembler);
    write_files(
        alloc,
        &[
            numerics,
            methods,
            opt,
            lower,
            pulley,
            assembler,
            methods_macro,
        ],
        dir,
    )
}

/// Writes all texts, in order.
pub fn write_all<D: Dir>(
    alloc: Global,
    folders: Folders<'_>,
    texts: &AllTexts,
    dir: &mut D,
) -> Result<usize, GenError>
    ensures files { Writes (all_with folders.entry texts.now) (D.files dir.old) (D.files dir.new)
        result }
    ensures entries { AddsNoSeconds (D.files dir.old) (D.files dir.new) }
    ensures counts { KeepsCounts result (D.counts dir.old) (D.counts dir.new) }
{
    let rust = output(folders.out, "pulley_inst_gen.rs", &texts.pulley);
    let [numerics, methods, opt, lower, pulley, assembler] = isle_outputs(
        folders.rules,
        &texts.build.rules,
    );
    let methods_macro = output(
        folders.out,
        "assembler-isle-macro.rs",
        &texts.build.assembler,
    );
    write_files(
        alloc,
        &[
            rust,
            numerics,
            methods,
            opt,
            lower,
            pulley,
            assembler,
            methods_macro,
        ],
        dir,
    )
}
