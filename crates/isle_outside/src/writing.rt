ghost use Rattle.std.specs.Prelude.{◌≡◌, ◌-◌, ◌^◌, ◌≤◌, ◌<◌, length, take, OnOk, OnErr};
ghost use Rattle.isle_outside.specs.Directory.{Rose};
ghost use Rattle.isle_outside.specs.Sinks.{Took, TookPart};

use crate::errors::Failed;
use crate::sink::Sink;

/// Writes all the bytes, piece by piece. `Failed` comes if a piece was refused, and leaves a front of them taken.
pub fn write_all<S: Sink>(sink: &mut S, bytes: &[u8]) -> Result<(), Failed>
    ensures ok { OnOk result (Took (S.taken sink.old) (S.taken sink.new) bytes.now) }
    ensures part { OnErr result (TookPart (S.taken sink.old) (S.taken sink.new) bytes.now) }
    ensures failed { OnErr result (Rose (S.faults sink.old) (S.faults sink.new)) }
    ensures steady { OnOk result (S.faults sink.new ≡ S.faults sink.old) }
    ensures later { S.faults sink.old ≤ S.faults sink.new }
    ensures stays { S.faults sink.old ≡ 2 ^ 64 - 1 → S.faults sink.new ≡ 2 ^ 64 - 1 }
{
    let mut at = 0;
    while at < bytes.len() {
        match sink.put(&bytes[at..]) {
            Ok(n) => at += n,
            Err(e) => return Err(e),
        }
    }
    Ok(())
}
