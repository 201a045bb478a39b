ghost use Rattle.std.specs.Prelude.{◌≡◌, ◌≤◌, ◌<◌, ◌+◌, ◌-◌, ◌*◌, ◌^◌, Some, None, length, map, IfOk, IfErr};
ghost use Rattle.std.specs.Prelude.{IfSome, IsSomeAnd, slice_get};
ghost use Rattle.std.specs.String.{string_bytes};
ghost use Rattle.isle_core.specs.Inputs.{bytes_each, AreRead, Fails, IsTried};
ghost use Rattle.isle_core.specs.Printed.{shown};

use crate::options::Prefix;
use crate::printed::name_shown;
use crate::read_error::ReadError;
use isle_base::{List, Text};
use isle_outside::{Dir, OutOfMemory, read_text};
use std::alloc::Global;

/// The inputs: the names as printed, and the texts, in order.
#[derive(Debug, Drop)]
pub struct Files {
    pub file_names: List<Text>,
    pub file_texts: List<Text>,
}

impl Files {
    /// Reads the files of these names, in order, and notes the names as printed: of each the first prefix that
    /// begins it is replaced. `Io` gives the first input that was not read; see `IoCause` for its causes. Each name is
    /// looked up once, none after that input's, and of each input at most 2^24 + 1 bytes are taken.
    pub fn from_paths<D: Dir>(
        alloc: Global,
        dir: &mut D,
        names: &[String],
        prefixes: &[Prefix],
    ) -> Result<Files, ReadError>
        ensures names { IfOk result (λ files.
            files.file_names ≡ map (shown prefixes.now) (bytes_each names.now)) }
        ensures texts { IfOk result (λ files.
            IfSome (D.files dir.old) (λ fs. AreRead fs (bytes_each names.now) files.file_texts)) }
        ensures count { IfOk result (λ files. length files.file_texts ≡ length names.now) }
        ensures err { IfErr result (λ e.
            Fails e (D.files dir.old) (bytes_each names.now) (D.counts dir.old)
            (D.counts dir.new)) }
        ensures files { D.files dir.new ≡ D.files dir.old }
        ensures later { (D.counts dir.old).faults ≤ (D.counts dir.new).faults }
        ensures stays { (D.counts dir.old).faults ≡ 2 ^ 64 - 1
            → (D.counts dir.new).faults ≡ 2 ^ 64 - 1 }
        ensures tried { IfOk result (λ files.
            IsTried (length names.now) (D.counts dir.old) (D.counts dir.new)) }
        ensures steady { IfOk result (λ files.
            (D.counts dir.new).faults ≡ (D.counts dir.old).faults) }
        ensures given { (D.counts dir.new).given
            ≤ (D.counts dir.old).given + (2 ^ 24 + 1) * length names.now }
    {
        let file_texts = all_texts(alloc, dir, names)?;
        let file_names = all_shown(alloc, names, prefixes)?;
        Ok(Files {
            file_names: List::new(file_names),
            file_texts: List::new(file_texts),
        })
    }
}

// The texts of the files of these names, in order.
fn all_texts<D: Dir>(alloc: Global, dir: &mut D, names: &[String]) -> Result<Vec<Text>, ReadError>
    ensures texts { IfOk result (λ read.
        IfSome (D.files dir.old) (λ fs. AreRead fs (bytes_each names.now) read.items)) }
    ensures count { IfOk result (λ read. length read.items ≡ length names.now) }
    ensures err { IfErr result (λ e.
        Fails e (D.files dir.old) (bytes_each names.now) (D.counts dir.old) (D.counts dir.new)) }
    ensures files { D.files dir.new ≡ D.files dir.old }
    ensures later { (D.counts dir.old).faults ≤ (D.counts dir.new).faults }
    ensures stays { (D.counts dir.old).faults ≡ 2 ^ 64 - 1
        → (D.counts dir.new).faults ≡ 2 ^ 64 - 1 }
    ensures tried { IfOk result (λ read.
        IsTried (length names.now) (D.counts dir.old) (D.counts dir.new)) }
    ensures steady { IfOk result (λ read. (D.counts dir.new).faults ≡ (D.counts dir.old).faults) }
    ensures given { (D.counts dir.new).given
        ≤ (D.counts dir.old).given + (2 ^ 24 + 1) * length names.now }
{
    let mut read = Vec::new(alloc);
    for (index, name) in names.iter().enumerate() {
        let text = match read_text(alloc, dir, name.as_str()) {
            Ok(text) => Text::new(text),
            Err(fail) => return Err(ReadError::at(index, fail)),
        };
        read.push(text)?;
    }
    Ok(read)
}

// The names as printed, in order.
fn all_shown(alloc: Global, names: &[String], prefixes: &[Prefix]) -> Result<Vec<Text>, OutOfMemory>
    ensures { IfOk result (λ printed.
        printed.items ≡ map (shown prefixes.now) (bytes_each names.now)) }
{
    let mut printed = Vec::new(alloc);
    for name in names {
        printed.push(name_shown(alloc, name.as_str(), prefixes)?)?;
    }
    Ok(printed)
}
