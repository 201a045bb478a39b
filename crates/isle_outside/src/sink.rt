ghost use Rattle.std.specs.Prelude.{◌≡◌, ℕ, ◌-◌, ◌^◌, ◌≤◌, ◌<◌, List, Option, length, take, IfOk, OnOk, OnErr};
ghost use Rattle.isle_outside.specs.Directory.{Rose};
ghost use Rattle.isle_outside.specs.Sinks.{Took};

use crate::errors::Failed;

/// What takes bytes. The count of faults is as that of a `Dir`.
pub trait Sink {
    /// The bytes taken, if it tells them.
    ghost taken: { Self → Option (List ℕ) };

    /// How often it has failed, up to 2^64 - 1.
    ghost faults: { Self → ℕ };

    /// Takes a first part of the piece, at least one byte of a piece that isn't empty. A refusal takes nothing.
    fn put(&mut self, bytes: &[u8]) -> Result<usize, Failed>
        ensures within { IfOk result (λ n. n ≤ length bytes.now) }
        ensures some { IfOk result (λ n. 0 < length bytes.now → 0 < n) }
        ensures taken { IfOk result (λ n.
            Took (taken self.old) (taken self.new) (take n bytes.now)) }
        ensures untouched { OnErr result (taken self.new ≡ taken self.old) }
        ensures later { faults self.old ≤ faults self.new }
        ensures stays { faults self.old ≡ 2 ^ 64 - 1 → faults self.new ≡ 2 ^ 64 - 1 }
        ensures failed { OnErr result (Rose (faults self.old) (faults self.new)) }
        ensures steady { OnOk result (faults self.new ≡ faults self.old) };
}
