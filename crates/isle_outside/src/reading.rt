ghost use Rattle.std.specs.Prelude.{◌≡◌, ◌≤◌, ◌^◌, ◌+◌, ◌-◌, IfSome};
ghost use Rattle.std.specs.String.{string_bytes};
ghost use Rattle.isle_outside.specs.Directory.{IsReading, bytes_of, raised};
ghost use Rattle.isle_outside.specs.Reading.{ReadsFile, CountsFault, TakenAtMost, ReadsRest, left_of};

use crate::dir::{Dir, Found};
use crate::errors::{IoCause, ReadFail};
use std::alloc::Global;

/// The most bytes of an input.
const MAX_BYTES: usize = 1 << 24;

/// Reads the text of the file of a name. The name is looked up once, and at most 2^24 + 1 bytes are taken, at least one
/// a turn.
///
/// `Io` gives the cause; `Fault` comes only where the directory's count of faults rose, and at every other answer that
/// count is what it was.
#[tactic(auto, using(crate::proofs::ReadLaws::texts))]
pub fn read_text<D: Dir>(alloc: Global, dir: &mut D, name: &str) -> Result<String, ReadFail>
    ensures exact { IfSome (D.files dir.old)
        (λ files. ReadsFile string_bytes result (bytes_of files name.now)) }
    ensures bounded { IfSome (D.files dir.old)
        (λ files. TakenAtMost (2 ^ 24 + 1) (bytes_of files name.now) (D.current dir.new)) }
    ensures faults { CountsFault result (D.counts dir.old).faults (D.counts dir.new).faults }
    ensures files { D.files dir.new ≡ D.files dir.old }
    ensures later { (D.counts dir.old).faults ≤ (D.counts dir.new).faults }
    ensures stays { (D.counts dir.old).faults ≡ 2 ^ 64 - 1
        → (D.counts dir.new).faults ≡ 2 ^ 64 - 1 }
    ensures finds { (D.counts dir.new).finds ≡ raised 1 (D.counts dir.old).finds }
    ensures given { (D.counts dir.new).given ≤ (D.counts dir.old).given + (2 ^ 24 + 1) }
{
    match dir.find(name) {
        Err(_) => Err(ReadFail::Io(IoCause::Fault)),
        Ok(Found::File) => {
            let bytes = rest(alloc, dir)?;
            match String::from_utf8(bytes) {
                Ok(text) => Ok(text),
                Err(_) => Err(ReadFail::Io(IoCause::NotUtf8)),
            }
        }
        Ok(_) => Err(ReadFail::Io(IoCause::Absent)),
    }
}

// What is left of the current file. It takes at most 2^24 + 1 bytes.
fn rest<D: Dir>(alloc: Global, dir: &mut D) -> Result<Vec<u8>, ReadFail>
    requires { IsReading (D.current dir.old) }
    ensures exact { IfSome (left_of (D.current dir.old)) (ReadsRest (λ bytes. bytes.items) result) }
    ensures bounded { TakenAtMost (2 ^ 24 + 1) (left_of (D.current dir.old)) (D.current dir.new) }
    ensures faults { CountsFault result (D.counts dir.old).faults (D.counts dir.new).faults }
    ensures files { D.files dir.new ≡ D.files dir.old }
    ensures later { (D.counts dir.old).faults ≤ (D.counts dir.new).faults }
    ensures stays { (D.counts dir.old).faults ≡ 2 ^ 64 - 1
        → (D.counts dir.new).faults ≡ 2 ^ 64 - 1 }
    ensures finds { (D.counts dir.new).finds ≡ (D.counts dir.old).finds }
    ensures given { (D.counts dir.new).given ≤ (D.counts dir.old).given + (2 ^ 24 + 1) }
{
    let mut buf = [0u8; 4096];
    let mut bytes = Vec::new(alloc);
    'read: loop {
        let most = buf.len().min(MAX_BYTES + 1 - bytes.len());
        let n = match dir.next(&mut buf[..most]) {
            Ok(n) => n,
            Err(_) => return Err(ReadFail::Io(IoCause::Fault)),
        };
        let is_end = n == 0;
        if is_end {
            return Ok(bytes);
        }
        if n > MAX_BYTES - bytes.len() {
            return Err(ReadFail::Io(IoCause::TooLong));
        }
        bytes.extend_from_slice(&buf[..n])?;
    }
}
