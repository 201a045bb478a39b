ghost use Rattle.std.specs.Prelude.{◌≡◌, ◌-◌, ◌^◌, ◌<◌};

use crate::dir::{Dir, Found};
use crate::errors::{DirFault, Failed};
use crate::failures::Failures;
use crate::kept::{entries, place_below, place_of, put_file};
use std::alloc::Global;

/// What is current, as numbers, so that nothing is copied.
#[derive(Clone, Copy, Debug)]
pub enum State {
    Nothing,
    /// A file by its place among the files, and how many of its bytes were given.
    Reading(usize, usize),
    /// A folder by the place of a file in it, and the length of the folder's name.
    Folder(usize, usize),
}

/// A directory in memory, with the numbers of the calls that fail, and the most bytes that `next` gives at once.
#[derive(Debug, Drop)]
pub struct MemDir {
    alloc: Global,
    files: Vec<(String, Vec<u8>)>,
    failures: Failures,
    piece: usize,
    faults: u64,
    finds: u64,
    given: u64,
    state: State,
    ghost some: { 0 < piece },
}

impl MemDir {
    ghost use Rattle.std.specs.Prelude.{◌≤◌, true, false};
    ghost use Rattle.isle_outside.specs.Directory.{Nothing, Rose};
    ghost use Rattle.isle_outside.specs.Memory.{IsCounted, IsUnused, current_in, faults_in, files_in};
    ghost use Rattle.isle_outside.specs.Memory.{files_of, piece_in};

    /// Makes a directory of these files, in which nothing is current. The first call of a method of `Dir` has number 1.
    pub fn new(
        alloc: Global,
        files: Vec<(String, Vec<u8>)>,
        fails: Vec<usize>,
        piece: usize,
    ) -> MemDir
        requires { 0 < piece }
        ensures files { files_in result ≡ files_of files.items }
        ensures nothing { current_in result ≡ Nothing }
        ensures fails { IsUnused result fails.items }
        ensures piece { piece_in result ≡ piece }
        ensures faults { faults_in result ≡ 0 }
    {
        MemDir {
            alloc,
            files,
            failures: Failures::new(fails),
            piece,
            faults: 0,
            finds: 0,
            given: 0,
            state: State::Nothing,
        }
    }

    /// Returns the files that it keeps, in their order.
    pub fn files(&self) -> &[(String, Vec<u8>)]
        ensures { files_of result.now ≡ files_in self.now }
    {
        &self.files
    }

    /// Returns how often it has failed, up to 2^64 - 1.
    pub fn faults(&self) -> u64
        ensures { result ≡ faults_in self.now }
    {
        self.faults
    }

    // Counts a call, and says whether it is to fail; then it is a fault, and nothing is current.
    fn fails_now(&mut self) -> bool
        ensures counts { IsCounted self.old self.new result }
        ensures files { self.new.files ≡ self.old.files }
        ensures state { result ≡ false → self.new.state ≡ self.old.state }
        ensures nothing { result ≡ true → self.new.state ≡ State.Nothing }
        ensures later { faults_in self.old ≤ faults_in self.new }
        ensures stays { faults_in self.old ≡ 2 ^ 64 - 1 → faults_in self.new ≡ 2 ^ 64 - 1 }
        ensures finds { self.new.finds ≡ self.old.finds }
        ensures given { self.new.given ≡ self.old.given }
        ensures rose { result ≡ true → Rose (faults_in self.old) (faults_in self.new) }
    {
        if !self.failures.next_fails() {
            return false;
        }
        self.state = State::Nothing;
        self.faults = self.faults.saturating_add(1);
        true
    }
}

impl Dir for MemDir {
    ghost use Rattle.std.specs.Prelude.{◌≤◌, Some, Err, false, min, length, map, is_err, IfOk, OnOk, OnErr};
    ghost use Rattle.std.specs.String.{string_bytes};
    ghost use Rattle.isle_outside.specs.Directory.{Nothing, InFolder, Finds, IsReading, GivesNext, Lists};
    ghost use Rattle.isle_outside.specs.Directory.{KeepsOthers, KeepsEntries, Holds, raised, Rose};
    ghost use Rattle.isle_outside.specs.Failures.{is_fault};
    ghost use Rattle.isle_outside.specs.Memory.{IsCounted, counts_in, current_in, files_in, left_in, piece_in, written};

    ghost files = { λ d. Some (files_in d) };

    ghost current = { λ d. current_in d };

    ghost counts = { λ d. counts_in d };

    fn find(&mut self, name: &str) -> Result<Found, Failed>
        ensures found { IfOk result (λ found.
            Finds (Some (files_in self.old)) name.now found (current_in self.new)) }
        ensures files { Some (files_in self.new) ≡ Some (files_in self.old) }
        ensures later { (counts_in self.old).faults ≤ (counts_in self.new).faults }
        ensures stays { (counts_in self.old).faults ≡ 2 ^ 64 - 1
            → (counts_in self.new).faults ≡ 2 ^ 64 - 1 }
        ensures failed { OnErr result
            (Rose ((counts_in self.old).faults) ((counts_in self.new).faults)) }
        ensures steady { OnOk result ((counts_in self.new).faults ≡ (counts_in self.old).faults) }
        ensures finds { (counts_in self.new).finds ≡ raised 1 (counts_in self.old).finds }
        ensures given { (counts_in self.new).given ≡ (counts_in self.old).given }
        ensures nothing { OnErr result (current_in self.new ≡ Nothing) }
        ensures counts { IsCounted self.old self.new (is_err result) }
    {
        self.finds = self.finds.saturating_add(1);
        if self.fails_now() {
            return Err(Failed);
        }
        if let Some(file) = place_of(&self.files, name) {
            self.state = State::Reading(file, 0);
            return Ok(Found::File);
        }
        if let Some(file) = place_below(&self.files, name) {
            self.state = State::Folder(file, name.len());
            return Ok(Found::Folder);
        }
        self.state = State::Nothing;
        Ok(Found::Absent)
    }

    fn next(&mut self, buf: &mut [u8]) -> Result<usize, Failed>
        requires reading { IsReading (current_in self.old) }
        requires room { 0 < length buf.old }
        ensures within { IfOk result (λ n. n ≤ length buf.new) }
        ensures gives { IfOk result (λ n.
            GivesNext (current_in self.old) (current_in self.new) n buf.new) }
        ensures files { Some (files_in self.new) ≡ Some (files_in self.old) }
        ensures later { (counts_in self.old).faults ≤ (counts_in self.new).faults }
        ensures stays { (counts_in self.old).faults ≡ 2 ^ 64 - 1
            → (counts_in self.new).faults ≡ 2 ^ 64 - 1 }
        ensures failed { OnErr result
            (Rose ((counts_in self.old).faults) ((counts_in self.new).faults)) }
        ensures steady { OnOk result ((counts_in self.new).faults ≡ (counts_in self.old).faults) }
        ensures finds { (counts_in self.new).finds ≡ (counts_in self.old).finds }
        ensures given { IfOk result (λ n.
            (counts_in self.new).given ≡ raised n (counts_in self.old).given) }
        ensures ungiven { OnErr result ((counts_in self.new).given ≡ (counts_in self.old).given) }
        ensures nothing { OnErr result (current_in self.new ≡ Nothing) }
        ensures counts { IsCounted self.old self.new (is_err result) }
        ensures most { IfOk result (λ n.
            n ≡ min (min (length buf.old) (piece_in self.old)) (left_in (current_in self.old))) }
    {
        if self.fails_now() {
            return Err(Failed);
        }
        let State::Reading(file, at) = self.state else {
            unreachable!()
        };
        let bytes = self.files[file].1.as_slice();
        if at >= bytes.len() {
            return Ok(0);
        }
        let n = buf.len().min(self.piece).min(bytes.len() - at);
        buf[..n].copy_from_slice(&bytes[at..at + n]);
        self.state = State::Reading(file, at + n);
        self.given = self.given.saturating_add(n as u64);
        Ok(n)
    }

    fn list(&mut self, alloc: Global, name: &str) -> Result<Vec<String>, DirFault>
        requires { current_in self.old ≡ InFolder name.now }
        ensures names { IfOk result (λ names.
            Lists (Some (files_in self.old)) name.now (map string_bytes names.items)) }
        ensures files { Some (files_in self.new) ≡ Some (files_in self.old) }
        ensures later { (counts_in self.old).faults ≤ (counts_in self.new).faults }
        ensures stays { (counts_in self.old).faults ≡ 2 ^ 64 - 1
            → (counts_in self.new).faults ≡ 2 ^ 64 - 1 }
        ensures failed { result ≡ Err DirFault.Failed
            → Rose ((counts_in self.old).faults) ((counts_in self.new).faults) }
        ensures steady { is_fault result ≡ false
            → (counts_in self.new).faults ≡ (counts_in self.old).faults }
        ensures finds { (counts_in self.new).finds ≡ (counts_in self.old).finds }
        ensures given { (counts_in self.new).given ≡ (counts_in self.old).given }
        ensures nothing { current_in self.new ≡ Nothing }
        ensures counts { IsCounted self.old self.new (is_fault result) }
    {
        if self.fails_now() {
            return Err(DirFault::Failed);
        }
        self.state = State::Nothing;
        entries(alloc, &self.files, name)
    }

    fn write_file(&mut self, name: &str, bytes: &[u8]) -> Result<(), DirFault>
        ensures holds { OnOk result (Holds (Some (files_in self.new)) name.now bytes.now) }
        ensures others { KeepsOthers (Some (files_in self.old)) (Some (files_in self.new))
            name.now }
        ensures entries { KeepsEntries (Some (files_in self.old)) (Some (files_in self.new))
            name.now }
        ensures memory { result ≡ Err DirFault.Memory
            → Some (files_in self.new) ≡ Some (files_in self.old) }
        ensures later { (counts_in self.old).faults ≤ (counts_in self.new).faults }
        ensures stays { (counts_in self.old).faults ≡ 2 ^ 64 - 1
            → (counts_in self.new).faults ≡ 2 ^ 64 - 1 }
        ensures failed { result ≡ Err DirFault.Failed
            → Rose ((counts_in self.old).faults) ((counts_in self.new).faults) }
        ensures steady { is_fault result ≡ false
            → (counts_in self.new).faults ≡ (counts_in self.old).faults }
        ensures finds { (counts_in self.new).finds ≡ (counts_in self.old).finds }
        ensures given { (counts_in self.new).given ≡ (counts_in self.old).given }
        ensures nothing { current_in self.new ≡ Nothing }
        ensures counts { IsCounted self.old self.new (is_fault result) }
        ensures exact { OnOk result
            (files_in self.new ≡ written (files_in self.old) name.now bytes.now) }
        ensures kept { OnErr result (files_in self.new ≡ files_in self.old) }
    {
        if self.fails_now() {
            return Err(DirFault::Failed);
        }
        self.state = State::Nothing;
        put_file(self.alloc, &mut self.files, name, bytes)
    }
}
