ghost use Rattle.std.specs.Prelude.{◌≡◌, ◌-◌, ◌^◌, ◌≤◌, ◌↔◌, ◌⊎◌, IsTrue, true, None, IfOk, OnOk, OnErr, is_err};
ghost use Rattle.std.specs.String.{string_bytes};
ghost use Rattle.std.specs.Path.{path_buf_bytes, path_join};
ghost use Rattle.std.specs.IoError.{error_kind};
ghost use Rattle.isle_outside.specs.Directory.{Rose, Nothing, Finds, raised};
ghost use Rattle.isle_outside.specs.Failures.{counted};
ghost use Rattle.isle_outside.specs.Machine.{opened};

use crate::dir::{Dir, Found};
use crate::errors::{DirFault, Failed};
use std::alloc::{AllocError, Global};
use std::fs::File;
use std::io::{ErrorKind, Read};
use std::path::{Path, PathBuf};
use std::rt::Files;
use std::{fs, io};

/// The most entries of a folder that is listed.
const MAX_ENTRIES: usize = 1 << 24;

/// A directory of the machine, below one folder of it. It tells no files.
///
/// A link is followed. What is neither a folder nor absent, and can be opened, is a file.
#[derive(Drop)]
pub struct StdDir<R: Files> {
    rt: R,
    root: String,
    file: Option<R::File>,
    folder: Option<String>,
    faults: u64,
    finds: u64,
    given: u64,
}

impl<R: Files + AllocGlobal + Clone + Drop> StdDir<R> {
    /// Returns the directory below a folder of the machine; the empty name is the current folder. Nothing is opened
    /// yet.
    pub fn new(rt: R, folder: String) -> StdDir<R>
        ensures root { result.root ≡ folder }
        ensures file { result.file ≡ None }
        ensures folder { result.folder ≡ None }
        ensures faults { result.faults ≡ 0 }
    {
        StdDir {
            rt,
            root: folder,
            file: None,
            folder: None,
            faults: 0,
            finds: 0,
            given: 0,
        }
    }

    /// Returns how often it has failed, up to 2^64 - 1.
    pub fn faults(&self) -> u64
        ensures { result ≡ self.now.faults }
    {
        self.faults
    }

    // Makes nothing current.
    fn close(&mut self)
        ensures file { self.new.file ≡ None }
        ensures folder { self.new.folder ≡ None }
        ensures faults { self.new.faults ≡ self.old.faults }
        ensures finds { self.new.finds ≡ self.old.finds }
        ensures given { self.new.given ≡ self.old.given }
    {
        self.file = None;
        self.folder = None;
    }

    // Counts a fault, and makes nothing current.
    fn fault(&mut self) -> Failed
        ensures file { self.new.file ≡ None }
        ensures folder { self.new.folder ≡ None }
        ensures faults { self.new.faults ≡ counted true self.old.faults }
        ensures later { self.old.faults ≤ self.new.faults }
        ensures stays { self.old.faults ≡ 2 ^ 64 - 1 → self.new.faults ≡ 2 ^ 64 - 1 }
        ensures rose { Rose self.old.faults self.new.faults }
        ensures finds { self.new.finds ≡ self.old.finds }
        ensures given { self.new.given ≡ self.old.given }
    {
        self.file = None;
        self.folder = None;
        self.faults = self.faults.saturating_add(1);
        Failed
    }

    // Makes what stands at the path current, if nothing is. A file takes no memory.
    fn open(&mut self, path: Path<'_>, name: &str) -> Result<Found, Failed>
        requires { opened self.old.file self.old.folder ≡ Nothing }
        ensures found { IfOk result (λ found.
            Finds None name.now found (opened self.new.file self.new.folder)) }
        ensures later { self.old.faults ≤ self.new.faults }
        ensures stays { self.old.faults ≡ 2 ^ 64 - 1 → self.new.faults ≡ 2 ^ 64 - 1 }
        ensures failed { OnErr result (Rose self.old.faults self.new.faults) }
        ensures nothing { OnErr result (opened self.new.file self.new.folder ≡ Nothing) }
        ensures steady { OnOk result (self.new.faults ≡ self.old.faults) }
        ensures finds { self.new.finds ≡ self.old.finds }
        ensures given { self.new.given ≡ self.old.given }
        ensures counted { self.new.faults ≡ counted (is_err result) self.old.faults }
    {
        let found = match fs::metadata(&self.rt, path) {
            Ok(found) => found,
            Err(e) if is_absence(&e) => return Ok(Found::Absent),
            Err(_) => return Err(self.fault()),
        };
        if found.is_dir() {
            let Ok(name) = String::from_str(self.rt.alloc(), name) else {
                return Err(self.fault());
            };
            self.folder = Some(name);
            return Ok(Found::Folder);
        }
        match File::open(&self.rt, path) {
            Ok(file) => {
                self.file = Some(file);
                Ok(Found::File)
            }
            Err(e) if is_absence(&e) => Ok(Found::Absent),
            Err(_) => Err(self.fault()),
        }
    }

    // A name as a path of the machine.
    fn path(&self, name: &str) -> Result<PathBuf, AllocError>
        ensures { IfOk result (λ path.
            path_buf_bytes path ≡ path_join (string_bytes self.now.root) name.now) }
    {
        Path::new(self.root.as_str()).join(self.rt.alloc(), name)
    }
}

impl<R: Files + AllocGlobal + Clone + Drop> Dir for StdDir<R> {
    ghost use Rattle.std.specs.Prelude.{◌≤◌, ◌<◌, None, Err, false, length, take, is_err, IfSome, IfOk, OnOk, OnErr};
    ghost use Rattle.std.specs.Io.KnownBytes.{Consumes, IsAtEnd};
    ghost use Rattle.isle_outside.specs.Directory.{Nothing, InFolder, Finds, IsReading, GivesNext, raised};
    ghost use Rattle.isle_outside.specs.Failures.{counted, is_fault};
    ghost use Rattle.isle_outside.specs.Machine.{opened};

    ghost files = { λ d. None };

    ghost current = { λ d. opened d.file d.folder };

    ghost counts = { λ d. record { faults = d.faults; finds = d.finds; given = d.given } };

    fn find(&mut self, name: &str) -> Result<Found, Failed>
        ensures found { IfOk result (λ found.
            Finds None name.now found (opened self.new.file self.new.folder)) }
        ensures later { self.old.faults ≤ self.new.faults }
        ensures stays { self.old.faults ≡ 2 ^ 64 - 1 → self.new.faults ≡ 2 ^ 64 - 1 }
        ensures failed { OnErr result (Rose self.old.faults self.new.faults) }
        ensures steady { OnOk result (self.new.faults ≡ self.old.faults) }
        ensures finds { self.new.finds ≡ raised 1 self.old.finds }
        ensures given { self.new.given ≡ self.old.given }
        ensures nothing { OnErr result (opened self.new.file self.new.folder ≡ Nothing) }
        ensures counted { self.new.faults ≡ counted (is_err result) self.old.faults }
    {
        self.close();
        self.finds = self.finds.saturating_add(1);
        if self.root.is_empty() {
            return self.open(Path::new(name), name);
        }
        match self.path(name) {
            Ok(path) => self.open(path.as_path(), name),
            Err(_) => Err(self.fault()),
        }
    }

    fn next(&mut self, buf: &mut [u8]) -> Result<usize, Failed>
        requires reading { IsReading (opened self.old.file self.old.folder) }
        requires room { 0 < length buf.old }
        ensures within { IfOk result (λ n. n ≤ length buf.new) }
        ensures gives { IfOk result (λ n.
            GivesNext (opened self.old.file self.old.folder) (opened self.new.file self.new.folder)
            n buf.new) }
        ensures later { self.old.faults ≤ self.new.faults }
        ensures stays { self.old.faults ≡ 2 ^ 64 - 1 → self.new.faults ≡ 2 ^ 64 - 1 }
        ensures failed { OnErr result (Rose self.old.faults self.new.faults) }
        ensures steady { OnOk result (self.new.faults ≡ self.old.faults) }
        ensures finds { self.new.finds ≡ self.old.finds }
        ensures given { IfOk result (λ n. self.new.given ≡ raised n self.old.given) }
        ensures ungiven { OnErr result (self.new.given ≡ self.old.given) }
        ensures nothing { OnErr result (opened self.new.file self.new.folder ≡ Nothing) }
        ensures bytes { IfSome self.old.file (λ old. IfSome self.new.file
            (λ new. IfOk result
            (λ n. Consumes (R.File.remaining old) (R.File.remaining new) (take n buf.new)
            × (n ≡ 0 → IsAtEnd (R.File.remaining new))))) }
        ensures counted { self.new.faults ≡ counted (is_err result) self.old.faults }
    {
        let Some(file) = &mut self.file else {
            return Err(self.fault());
        };
        match file.read(buf) {
            Ok(n) => {
                self.given = self.given.saturating_add(n as u64);
                Ok(n)
            }
            Err(_) => Err(self.fault()),
        }
    }

    fn list(&mut self, alloc: Global, name: &str) -> Result<Vec<String>, DirFault>
        ensures later { self.old.faults ≤ self.new.faults }
        ensures stays { self.old.faults ≡ 2 ^ 64 - 1 → self.new.faults ≡ 2 ^ 64 - 1 }
        ensures failed { result ≡ Err DirFault.Failed → Rose self.old.faults self.new.faults }
        ensures steady { is_fault result ≡ false → self.new.faults ≡ self.old.faults }
        ensures finds { self.new.finds ≡ self.old.finds }
        ensures given { self.new.given ≡ self.old.given }
        ensures nothing { opened self.new.file self.new.folder ≡ Nothing }
        ensures counted { self.new.faults ≡ counted (is_fault result) self.old.faults }
    {
        self.close();
        let Ok(path) = self.path(name) else {
            return Err(DirFault::Memory);
        };
        match names_in(&self.rt, alloc, path.as_path()) {
            Ok(names) => Ok(names),
            Err(DirFault::Memory) => Err(DirFault::Memory),
            Err(DirFault::Failed) => {
                self.fault();
                Err(DirFault::Failed)
            }
        }
    }

    fn write_file(&mut self, name: &str, bytes: &[u8]) -> Result<(), DirFault>
        ensures later { self.old.faults ≤ self.new.faults }
        ensures stays { self.old.faults ≡ 2 ^ 64 - 1 → self.new.faults ≡ 2 ^ 64 - 1 }
        ensures failed { result ≡ Err DirFault.Failed → Rose self.old.faults self.new.faults }
        ensures steady { is_fault result ≡ false → self.new.faults ≡ self.old.faults }
        ensures finds { self.new.finds ≡ self.old.finds }
        ensures given { self.new.given ≡ self.old.given }
        ensures nothing { opened self.new.file self.new.folder ≡ Nothing }
        ensures counted { self.new.faults ≡ counted (is_fault result) self.old.faults }
    {
        self.close();
        let Ok(path) = self.path(name) else {
            return Err(DirFault::Memory);
        };
        match fs::write(&self.rt, path.as_path(), bytes) {
            Ok(()) => Ok(()),
            Err(_) => {
                self.fault();
                Err(DirFault::Failed)
            }
        }
    }
}

// The names of the files of a folder of the machine. A folder in it, and what is absent after a link, is left out.
fn names_in<R: Files + AllocGlobal + Clone + Drop>(
    rt: &R,
    alloc: Global,
    folder: Path<'_>,
) -> Result<Vec<String>, DirFault> {
    let entries = fs::read_dir(rt, folder).map_err(|e| fault_of(&e))?;
    let mut names = Vec::new(alloc);
    let mut seen = 0;
    for entry in entries {
        if seen == MAX_ENTRIES {
            return Err(DirFault::Failed);
        }
        seen += 1;
        let entry = entry.map_err(|e| fault_of(&e))?;
        if is_file(rt, entry.path())? {
            names.push(String::from_str(alloc, entry.file_name())?)?;
        }
    }
    Ok(names)
}

// Whether something other than a folder stands at the path.
fn is_file(rt: &impl Files, path: Path<'_>) -> Result<bool, DirFault> {
    match fs::metadata(rt, path) {
        Ok(found) => Ok(!found.is_dir()),
        Err(e) if is_absence(&e) => Ok(false),
        Err(e) => Err(fault_of(&e)),
    }
}

// Whether an error says that nothing stands at a path; a path that goes on after a file is one such.
fn is_absence(e: &io::Error) -> bool
    ensures { IsTrue result
        ↔ (error_kind e.now ≡ ErrorKind.NotFound) ⊎ (error_kind e.now ≡ ErrorKind.NotADirectory) }
{
    let kind = e.kind();
    kind == ErrorKind::NotFound || kind == ErrorKind::NotADirectory
}

// Want of memory, or a fault.
fn fault_of(e: &io::Error) -> DirFault
    ensures { (result ≡ DirFault.Memory) ↔ (error_kind e.now ≡ ErrorKind.OutOfMemory) }
{
    if e.kind() == ErrorKind::OutOfMemory {
        DirFault::Memory
    } else {
        DirFault::Failed
    }
}
