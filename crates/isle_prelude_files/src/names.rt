//! The names of the four files.

ghost use Rattle.std.specs.Prelude.{◌≡◌, false};
ghost use Rattle.isle_meta.specs.Layout.{joined_name};
ghost use Rattle.isle_meta.specs.TableNames.{repeats};
ghost use Rattle.isle_prelude_files.specs.Made.{files_with, given_names};
ghost use Rattle.isle_prelude_files.specs.Outputs.{AddsNoSeconds, KeepsCounts, Writes, file_of};
ghost use Rattle.isle_prelude_files.specs.PreludeFiles.{WritesPreludes, prelude_files};

use crate::texts::{Texts, made_texts};
use crate::writing::{Output, write_files};
use isle_core::Dir;
use isle_meta::{GenError, Tables};
use std::alloc::Global;

/// The names of the four files, and the folder that they lie in.
#[derive(Drop)]
pub struct Names<'n> {
    pub numerics: &'n str,
    pub methods: &'n str,
    pub opt: &'n str,
    pub lower: &'n str,
    pub folder: &'n str,
}

impl Names<'_> {
    // A text beside the name of its file.
    fn output<'t>(&'t self, name: &'t str, text: &'t str) -> Output<'t>
        ensures { file_of result ≡ (joined_name self.now.folder.now name.now, text.now) }
    {
        Output {
            folder: self.folder,
            name,
            text,
        }
    }

    // Writes the texts in order.
    fn write<D: Dir>(&self, alloc: Global, texts: &Texts, dir: &mut D) -> Result<usize, GenError>
        requires { repeats (given_names self.now) ≡ false }
        ensures files { Writes (files_with self.now texts.now) (D.files dir.old) (D.files dir.new)
            result }
        ensures entries { AddsNoSeconds (D.files dir.old) (D.files dir.new) }
        ensures counts { KeepsCounts result (D.counts dir.old) (D.counts dir.new) }
    {
        let numerics = self.output(self.numerics, texts.numerics.as_str());
        let methods = self.output(self.methods, texts.methods.as_str());
        let opt = self.output(self.opt, texts.opt.as_str());
        let lower = self.output(self.lower, texts.lower.as_str());
        write_files(alloc, &[numerics, methods, opt, lower], dir)
    }

    /// Makes the four texts, and then writes them in order.
    pub fn generate<D: Dir>(
        &self,
        alloc: Global,
        tables: &Tables,
        dir: &mut D,
    ) -> Result<usize, GenError>
        requires { repeats (given_names self.now) ≡ false }
        ensures files { WritesPreludes tables.now
            (prelude_files self.now.folder.now self.now.numerics.now self.now.methods.now
            self.now.opt.now self.now.lower.now tables.now)
            (D.files dir.old) (D.files dir.new) result }
        ensures entries { AddsNoSeconds (D.files dir.old) (D.files dir.new) }
        ensures counts { KeepsCounts result (D.counts dir.old) (D.counts dir.new) }
    {
        match made_texts(alloc, tables) {
            Ok(texts) => self.write(alloc, &texts, dir),
            Err(fail) => Err(fail),
        }
    }
}
