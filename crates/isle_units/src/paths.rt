//! The files of a unit's inputs.

ghost use Rattle.std.specs.Prelude.{◌≡◌, ◌++◌, ◌∷◌, [], ◌-◌, ◌^◌};
ghost use Rattle.std.specs.Prelude.{◌≤◌, Err, false, IfOk, IfErr};
ghost use Rattle.std.specs.Prelude.{IfSome, IsPermutation, IsSorted, OnOk, filter, length, map};
ghost use Rattle.std.specs.Cmp.Lexicographic.{slice_cmp};
ghost use Rattle.std.specs.Ordering.{nat_cmp};
ghost use Rattle.isle_core.specs.Inputs.{IsTried, bytes_each};
ghost use Rattle.isle_meta.specs.Layout.{joined_name};
ghost use Rattle.isle_outside.specs.Directory.{InFolder, Rose, directly_in, raised};
ghost use Rattle.isle_outside.specs.Failures.{is_fault};
ghost use Rattle.isle_units.specs.Paths.{AddsFolder, AddsPaths, ArePaths, FailsFolder, FailsInput};
ghost use Rattle.isle_units.specs.Paths.{FailsPaths, is_isle_name};
ghost use Rattle.isle_units.specs.Units.{inputs_of};

use crate::compilation::IsleCompilation;
use crate::joining::joined_to;
use crate::paths_error::PathsError;
use isle_core::{Dir, DirFault, Found};
use std::alloc::{AllocError, Global};

impl IsleCompilation {
    /// Returns the paths of its inputs, in order: a file is its own, and a folder has those of the files directly in it
    /// whose names end in `.isle` after at least one byte, ascending by bytes, each joined to the folder. Each input is
    /// looked up once, and none behind the first that is absent or at which the directory fails.
    pub fn paths<D: Dir>(&self, alloc: Global, dir: &mut D) -> Result<Vec<String>, PathsError>
        ensures paths { IfOk result (λ paths.
            IfSome (D.files dir.old) (λ fs.
            ArePaths fs (inputs_of self.now) (bytes_each paths.items))) }
        ensures tried { IfOk result (λ paths.
            IsTried (length (inputs_of self.now)) (D.counts dir.old) (D.counts dir.new)) }
        ensures err { IfErr result (λ e.
            FailsPaths e (D.files dir.old) (inputs_of self.now) (D.counts dir.old)
            (D.counts dir.new)) }
        ensures files { D.files dir.new ≡ D.files dir.old }
        ensures later { (D.counts dir.old).faults ≤ (D.counts dir.new).faults }
        ensures stays { (D.counts dir.old).faults ≡ 2 ^ 64 - 1
            → (D.counts dir.new).faults ≡ 2 ^ 64 - 1 }
        ensures steady { IfOk result (λ paths.
            (D.counts dir.new).faults ≡ (D.counts dir.old).faults) }
        ensures given { (D.counts dir.new).given ≡ (D.counts dir.old).given }
    {
        let inputs = self.inputs(alloc)?;
        all_paths(alloc, inputs.as_slice(), dir)
    }
}

// The paths of inputs, in order.
fn all_paths<D: Dir>(
    alloc: Global,
    inputs: &[String],
    dir: &mut D,
) -> Result<Vec<String>, PathsError>
    ensures paths { IfOk result (λ paths.
        IfSome (D.files dir.old) (λ fs.
        ArePaths fs (bytes_each inputs.now) (bytes_each paths.items))) }
    ensures tried { IfOk result (λ paths.
        IsTried (length inputs.now) (D.counts dir.old) (D.counts dir.new)) }
    ensures err { IfErr result (λ e.
        FailsPaths e (D.files dir.old) (bytes_each inputs.now) (D.counts dir.old)
        (D.counts dir.new)) }
    ensures files { D.files dir.new ≡ D.files dir.old }
    ensures later { (D.counts dir.old).faults ≤ (D.counts dir.new).faults }
    ensures stays { (D.counts dir.old).faults ≡ 2 ^ 64 - 1
        → (D.counts dir.new).faults ≡ 2 ^ 64 - 1 }
    ensures steady { IfOk result (λ paths. (D.counts dir.new).faults ≡ (D.counts dir.old).faults) }
    ensures given { (D.counts dir.new).given ≡ (D.counts dir.old).given }
{
    let mut paths = Vec::new(alloc);
    for (index, input) in inputs.iter().enumerate() {
        push_input(alloc, &mut paths, index, input.as_str(), dir)?;
    }
    Ok(paths)
}

// Appends the paths of the input at a place.
fn push_input<D: Dir>(
    alloc: Global,
    paths: &mut Vec<String>,
    index: usize,
    input: &str,
    dir: &mut D,
) -> Result<(), PathsError>
    ensures paths { OnOk result
        (AddsPaths (D.files dir.old) input.now (bytes_each paths.old.items)
        (bytes_each paths.new.items)) }
    ensures err { IfErr result (λ e.
        FailsInput e (D.files dir.old) index input.now (D.counts dir.old) (D.counts dir.new)) }
    ensures files { D.files dir.new ≡ D.files dir.old }
    ensures later { (D.counts dir.old).faults ≤ (D.counts dir.new).faults }
    ensures stays { (D.counts dir.old).faults ≡ 2 ^ 64 - 1
        → (D.counts dir.new).faults ≡ 2 ^ 64 - 1 }
    ensures steady { OnOk result ((D.counts dir.new).faults ≡ (D.counts dir.old).faults) }
    ensures finds { (D.counts dir.new).finds ≡ raised 1 (D.counts dir.old).finds }
    ensures given { (D.counts dir.new).given ≡ (D.counts dir.old).given }
{
    match dir.find(input) {
        Ok(Found::File) => push_file(alloc, paths, input),
        Ok(Found::Folder) => push_folder(alloc, paths, input, dir),
        Ok(Found::Absent) => Err(PathsError::Absent { index }),
        Err(_) => Err(PathsError::Dir),
    }
}

// Appends the path of a file.
fn push_file(alloc: Global, paths: &mut Vec<String>, input: &str) -> Result<(), PathsError>
    ensures ok { OnOk result
        (bytes_each paths.new.items ≡ bytes_each paths.old.items ++ input.now ∷ []) }
    ensures err { IfErr result (λ e. e ≡ PathsError.Memory) }
{
    paths.push(String::from_str(alloc, input)?)?;
    Ok(())
}

// Appends the paths of the files directly in the folder, which is current.
fn push_folder<D: Dir>(
    alloc: Global,
    paths: &mut Vec<String>,
    folder: &str,
    dir: &mut D,
) -> Result<(), PathsError>
    requires { D.current dir.old ≡ InFolder folder.now }
    ensures paths { OnOk result
        (AddsFolder (D.files dir.old) folder.now (bytes_each paths.old.items)
        (bytes_each paths.new.items)) }
    ensures files { D.files dir.new ≡ D.files dir.old }
    ensures later { (D.counts dir.old).faults ≤ (D.counts dir.new).faults }
    ensures stays { (D.counts dir.old).faults ≡ 2 ^ 64 - 1
        → (D.counts dir.new).faults ≡ 2 ^ 64 - 1 }
    ensures err { IfErr result (λ e. FailsFolder e (D.counts dir.old) (D.counts dir.new)) }
    ensures steady { OnOk result ((D.counts dir.new).faults ≡ (D.counts dir.old).faults) }
    ensures finds { (D.counts dir.new).finds ≡ (D.counts dir.old).finds }
    ensures given { (D.counts dir.new).given ≡ (D.counts dir.old).given }
{
    let names = match sorted_names(alloc, folder, dir) {
        Ok(names) => names,
        Err(DirFault::Failed) => return Err(PathsError::Dir),
        Err(DirFault::Memory) => return Err(PathsError::Memory),
    };
    push_joined(alloc, paths, folder, names.as_slice())
}

// The names of the files directly in the folder, which is current, ascending by bytes.
fn sorted_names<D: Dir>(alloc: Global, folder: &str, dir: &mut D) -> Result<Vec<String>, DirFault>
    requires { D.current dir.old ≡ InFolder folder.now }
    ensures names { IfOk result (λ names.
        IfSome (D.files dir.old) (λ fs.
        IsPermutation (directly_in fs folder.now) (bytes_each names.items))) }
    ensures sorted { IfOk result (λ names.
        IsSorted (slice_cmp nat_cmp) (bytes_each names.items)) }
    ensures files { D.files dir.new ≡ D.files dir.old }
    ensures later { (D.counts dir.old).faults ≤ (D.counts dir.new).faults }
    ensures stays { (D.counts dir.old).faults ≡ 2 ^ 64 - 1
        → (D.counts dir.new).faults ≡ 2 ^ 64 - 1 }
    ensures failed { result ≡ Err DirFault.Failed
        → Rose (D.counts dir.old).faults (D.counts dir.new).faults }
    ensures steady { is_fault result ≡ false
        → (D.counts dir.new).faults ≡ (D.counts dir.old).faults }
    ensures finds { (D.counts dir.new).finds ≡ (D.counts dir.old).finds }
    ensures given { (D.counts dir.new).given ≡ (D.counts dir.old).given }
{
    let mut names = dir.list(alloc, folder)?;
    names.sort()?;
    Ok(names)
}

// Whether a name ends in `.isle` after at least one byte.
fn is_isle_name(name: &[u8]) -> bool
    ensures { result ≡ is_isle_name name.now }
{
    name.len() > 5 && &name[name.len() - 5..] == b".isle".as_slice()
}

// Appends those of the names that end so, joined to the folder.
fn push_joined(
    alloc: Global,
    paths: &mut Vec<String>,
    folder: &str,
    names: &[String],
) -> Result<(), PathsError>
    ensures ok { OnOk result
        (bytes_each paths.new.items
        ≡ bytes_each paths.old.items
        ++ map (joined_name folder.now) (filter is_isle_name (bytes_each names.now))) }
    ensures err { IfErr result (λ e. e ≡ PathsError.Memory) }
{
    for name in names {
        if is_isle_name(name.as_bytes()) {
            paths.push(joined_to(alloc, folder, name.as_str())?)?;
        }
    }
    Ok(())
}
