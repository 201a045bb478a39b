ghost use Rattle.std.specs.Prelude.{◌≡◌, ◌-◌, ◌^◌, ◌≤◌, ◌<◌, Option, None, Err, false, length, take, map};
ghost use Rattle.std.specs.Prelude.{IfOk, OnOk, OnErr};
ghost use Rattle.std.specs.String.{string_bytes};
ghost use Rattle.isle_outside.specs.Directory.{Contents, Current, Nothing, InFolder, Finds, IsReading};
ghost use Rattle.isle_outside.specs.Directory.{GivesNext, Lists, KeepsOthers, KeepsEntries, Holds, Counts};
ghost use Rattle.isle_outside.specs.Directory.{raised, Rose};
ghost use Rattle.isle_outside.specs.Failures.{is_fault};

use crate::errors::{DirFault, Failed};
use std::alloc::Global;

/// What stands under a name.
#[derive(Clone, Copy, Debug, PartialEq, Eq)]
pub enum Found {
    Absent,
    File,
    Folder,
}

/// A directory of files. A folder is a name that stands before a `/` in a file's name; a name that is both is a file.
///
/// The count of faults never falls, rises in no call that doesn't fail, and stays at 2^64 - 1 once it stands there.
/// `Failed` comes only where the count rose in that call, or stood there. After `Failed`, `Absent`, `list` and
/// `write_file` nothing is current.
pub trait Dir {
    /// The files, if it tells them.
    ghost files: { Self → Option Contents };

    /// What is current.
    ghost current: { Self → Current };

    /// How often it has failed, how often a name was looked up, and how many bytes it gave, each up to 2^64 - 1.
    ghost counts: { Self → Counts };

    /// Looks a name up, and makes the file or folder that has it current.
    fn find(&mut self, name: &str) -> Result<Found, Failed>
        ensures found { IfOk result (λ found.
            Finds (files self.old) name.now found (current self.new)) }
        ensures files { files self.new ≡ files self.old }
        ensures later { (counts self.old).faults ≤ (counts self.new).faults }
        ensures stays { (counts self.old).faults ≡ 2 ^ 64 - 1
            → (counts self.new).faults ≡ 2 ^ 64 - 1 }
        ensures failed { OnErr result (Rose (counts self.old).faults (counts self.new).faults) }
        ensures steady { OnOk result ((counts self.new).faults ≡ (counts self.old).faults) }
        ensures finds { (counts self.new).finds ≡ raised 1 (counts self.old).finds }
        ensures given { (counts self.new).given ≡ (counts self.old).given }
        ensures nothing { OnErr result (current self.new ≡ Nothing) };

    /// Puts the next bytes of the current file at the front of the buffer, and returns how many they are; 0 is the end.
    fn next(&mut self, buf: &mut [u8]) -> Result<usize, Failed>
        requires reading { IsReading (current self.old) }
        requires room { 0 < length buf.old }
        ensures within { IfOk result (λ n. n ≤ length buf.new) }
        ensures gives { IfOk result (λ n.
            GivesNext (current self.old) (current self.new) n buf.new) }
        ensures files { files self.new ≡ files self.old }
        ensures later { (counts self.old).faults ≤ (counts self.new).faults }
        ensures stays { (counts self.old).faults ≡ 2 ^ 64 - 1
            → (counts self.new).faults ≡ 2 ^ 64 - 1 }
        ensures failed { OnErr result (Rose (counts self.old).faults (counts self.new).faults) }
        ensures steady { OnOk result ((counts self.new).faults ≡ (counts self.old).faults) }
        ensures finds { (counts self.new).finds ≡ (counts self.old).finds }
        ensures given { IfOk result (λ n.
            (counts self.new).given ≡ raised n (counts self.old).given) }
        ensures ungiven { OnErr result ((counts self.new).given ≡ (counts self.old).given) }
        ensures nothing { OnErr result (current self.new ≡ Nothing) };

    /// Returns the names of the files directly in the current folder, in any order. A name that isn't UTF-8 is a fault.
    fn list(&mut self, alloc: Global, name: &str) -> Result<Vec<String>, DirFault>
        requires { current self.old ≡ InFolder name.now }
        ensures names { IfOk result (λ names.
            Lists (files self.old) name.now (map string_bytes names.items)) }
        ensures files { files self.new ≡ files self.old }
        ensures later { (counts self.old).faults ≤ (counts self.new).faults }
        ensures stays { (counts self.old).faults ≡ 2 ^ 64 - 1
            → (counts self.new).faults ≡ 2 ^ 64 - 1 }
        ensures failed { result ≡ Err DirFault.Failed
            → Rose (counts self.old).faults (counts self.new).faults }
        ensures steady { is_fault result ≡ false
            → (counts self.new).faults ≡ (counts self.old).faults }
        ensures finds { (counts self.new).finds ≡ (counts self.old).finds }
        ensures given { (counts self.new).given ≡ (counts self.old).given }
        ensures nothing { current self.new ≡ Nothing };

    /// Makes the file of the name hold these bytes. After `Failed` that file may hold anything, after `Memory` all
    /// files are as before.
    fn write_file(&mut self, name: &str, bytes: &[u8]) -> Result<(), DirFault>
        ensures holds { OnOk result (Holds (files self.new) name.now bytes.now) }
        ensures others { KeepsOthers (files self.old) (files self.new) name.now }
        ensures entries { KeepsEntries (files self.old) (files self.new) name.now }
        ensures memory { result ≡ Err DirFault.Memory → files self.new ≡ files self.old }
        ensures later { (counts self.old).faults ≤ (counts self.new).faults }
        ensures stays { (counts self.old).faults ≡ 2 ^ 64 - 1
            → (counts self.new).faults ≡ 2 ^ 64 - 1 }
        ensures failed { result ≡ Err DirFault.Failed
            → Rose (counts self.old).faults (counts self.new).faults }
        ensures steady { is_fault result ≡ false
            → (counts self.new).faults ≡ (counts self.old).faults }
        ensures finds { (counts self.new).finds ≡ (counts self.old).finds }
        ensures given { (counts self.new).given ≡ (counts self.old).given }
        ensures nothing { current self.new ≡ Nothing };
}
