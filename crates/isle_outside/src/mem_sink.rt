ghost use Rattle.std.specs.Prelude.{◌≡◌, ◌≤◌, ◌<◌, ◌+◌, ◌-◌, ◌^◌, ◌&&◌, ◌||◌, ◌==◌, Some, [], length, take};
ghost use Rattle.std.specs.Prelude.{min, nat_lt, true, is_err, IsOk, IfOk, OnOk, OnErr, vec_len};
ghost use Rattle.std.specs.Prelude.{vec_capacity};
ghost use Rattle.isle_outside.specs.Directory.{Rose};
ghost use Rattle.isle_outside.specs.Failures.{counted, is_failing};
ghost use Rattle.isle_outside.specs.Sinks.{Took};

use crate::errors::{Failed, OutOfMemory};
use crate::failures::Failures;
use crate::sink::Sink;
use std::alloc::Global;

/// A sink in memory, with a room for what it takes, a most that it takes at once, and the numbers of the calls of
/// `put` that fail.
#[derive(Debug, Drop)]
pub struct MemSink {
    bytes: Vec<u8>,
    room: usize,
    failures: Failures,
    piece: usize,
    faults: u64,
    ghost some: { 0 < piece },
    ghost fits: { vec_len bytes ≤ room },
    ghost reserved: { room ≤ vec_capacity bytes },
}

impl MemSink {
    /// Makes an empty sink. Its room is reserved at once, so no `put` runs out of memory. The first `put` has number 1.
    pub fn new(
        alloc: Global,
        room: usize,
        fails: Vec<usize>,
        piece: usize,
    ) -> Result<MemSink, OutOfMemory>
        requires { 0 < piece }
        ensures succeeds { room ≡ 0 → IsOk result }
        ensures bytes { IfOk result (λ sink. sink.bytes.items ≡ []) }
        ensures room { IfOk result (λ sink. sink.room ≡ room) }
        ensures piece { IfOk result (λ sink. sink.piece ≡ piece) }
        ensures fails { IfOk result (λ sink. sink.failures.numbers ≡ fails) }
        ensures calls { IfOk result (λ sink. sink.failures.calls ≡ 0) }
        ensures faults { IfOk result (λ sink. sink.faults ≡ 0) }
    {
        Ok(MemSink {
            bytes: Vec::with_capacity(alloc, room)?,
            room,
            failures: Failures::new(fails),
            piece,
            faults: 0,
        })
    }

    /// Returns the bytes taken.
    pub fn bytes(&self) -> &[u8]
        ensures { result.now ≡ self.now.bytes.items }
    {
        self.bytes.as_slice()
    }

    /// Returns how often it has failed, up to 2^64 - 1.
    pub fn faults(&self) -> u64
        ensures { result ≡ self.now.faults }
    {
        self.faults
    }

    // Counts a fault.
    fn fault(&mut self) -> Failed
        ensures bytes { self.new.bytes ≡ self.old.bytes }
        ensures faults { self.new.faults ≡ counted true self.old.faults }
        ensures later { self.old.faults ≤ self.new.faults }
        ensures stays { self.old.faults ≡ 2 ^ 64 - 1 → self.new.faults ≡ 2 ^ 64 - 1 }
        ensures rose { Rose self.old.faults self.new.faults }
    {
        self.faults = self.faults.saturating_add(1);
        Failed
    }

    // How many bytes of a piece of this length are taken now.
    fn taken_of(&self, len: usize) -> usize
        ensures { result ≡ min (min len self.now.piece) (self.now.room - vec_len self.now.bytes) }
    {
        len.min(self.piece).min(self.room - self.bytes.len())
    }
}

/// A `put` fails if its number is among those that fail, and if no room is left for a piece that isn't empty.
impl Sink for MemSink {
    ghost taken = { λ s. Some s.bytes.items };

    ghost faults = { λ s. s.faults };

    fn put(&mut self, bytes: &[u8]) -> Result<usize, Failed>
        ensures within { IfOk result (λ n. n ≤ length bytes.now) }
        ensures some { IfOk result (λ n. 0 < length bytes.now → 0 < n) }
        ensures taken { IfOk result (λ n.
            Took (Some self.old.bytes.items) (Some self.new.bytes.items) (take n bytes.now)) }
        ensures untouched { OnErr result (Some self.new.bytes.items ≡ Some self.old.bytes.items) }
        ensures later { self.old.faults ≤ self.new.faults }
        ensures stays { self.old.faults ≡ 2 ^ 64 - 1 → self.new.faults ≡ 2 ^ 64 - 1 }
        ensures failed { OnErr result (Rose self.old.faults self.new.faults) }
        ensures steady { OnOk result (self.new.faults ≡ self.old.faults) }
        ensures fails { is_err result
            ≡ (is_failing self.old.failures.calls self.old.failures.numbers.items
            || (nat_lt 0 (length bytes.now) && (self.old.room == vec_len self.old.bytes))) }
        ensures most { IfOk result (λ n.
            n ≡ min (min (length bytes.now) self.old.piece)
            (self.old.room - vec_len self.old.bytes)) }
        ensures counted { self.new.faults ≡ counted (is_err result) self.old.faults }
    {
        if self.failures.next_fails() {
            return Err(self.fault());
        }
        let n = self.taken_of(bytes.len());
        if n == 0 && !bytes.is_empty() {
            return Err(self.fault());
        }
        match self.bytes.extend_from_slice(&bytes[..n]) {
            Ok(()) => Ok(n),
            Err(_) => unreachable!(),
        }
    }
}
