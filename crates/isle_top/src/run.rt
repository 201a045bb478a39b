ghost use Rattle.std.specs.Prelude.{◌≡◌, ◌≢◌, ◌≤◌, ◌+◌, ◌-◌, ◌*◌, ◌^◌, ◌⊎◌};
ghost use Rattle.std.specs.Prelude.{[], ◌∷◌, ℕ, List, Some, false};
ghost use Rattle.std.specs.Prelude.{length, slice_get, OnOk, OnErr};
ghost use Rattle.isle_outside.specs.Directory.{Rose};
ghost use Rattle.isle_core.specs.Inputs.{bytes_each};
ghost use Rattle.isle_command_line.specs.Request.{Request, Compile};
ghost use Rattle.isle_command_line.specs.Lines.{LineS};
ghost use Rattle.isle_command_line.specs.Views.{seen_command};
ghost use Rattle.isle_top.specs.Job.{surroundings, TookReply, TookPartOfReply};
ghost use Rattle.isle_top.specs.Jobs.{Asks, job_asked, job_of};
ghost use Rattle.isle_outside.specs.Sinks.{Took, TookPart};
ghost use Rattle.isle_top.specs.Lines.{bad_line, is_target_place, Wrote};
ghost use Rattle.isle_top.specs.Statuses.{IsNoLine, Says};

use crate::asked::Asked;
use crate::lines::{MISSING_WORD, OUT_OF_MEMORY, WRITE_FAULT, write_bad_word, write_unknown_isa};
use crate::reply::reply;
use crate::status::{Exit, complain, refuse};
use isle_command_line::{LineFail, command};
use isle_core::{Dir, Failed, Sink, write_all};
use isle_meta::Tables;
use std::alloc::Global;

/// Runs the program: does what the words ask for, over these tables of instructions, and writes the text that answers
/// them to `out`. Every status but 0 writes its line to `err`. Statuses 3 and 4 come before any call of the directory.
/// Writing takes no memory. `specs/Jobs.antt` says what each line is.
pub fn run_words<D: Dir, O: Sink, E: Sink>(
    alloc: Global,
    words: &[String],
    tables: &Tables,
    dir: &mut D,
    out: &mut O,
    err: &mut E,
) -> Exit
    // At status 0 `out` took the reply, and nothing else, and its count stands; each input was asked for once.
    ensures done { let around = surroundings (D.files dir.old) (D.counts dir.old) (D.counts dir.new)
        in
        result.0 ≡ 0 → (request : Request) × Asks (bytes_each words.now) request
        × (O.faults out.new ≡ O.faults out.old)
        × TookReply (job_of tables.now request) around (O.taken out.old) (O.taken out.new) }
    // At status 11 its count rose, and it took a part of the reply.
    ensures part { let around = surroundings (D.files dir.old) (D.counts dir.old) (D.counts dir.new)
        in
        result.0 ≡ 11 → (request : Request) × Asks (bytes_each words.now) request
        × Rose (O.faults out.old) (O.faults out.new)
        × TookPartOfReply (job_of tables.now request) around (O.taken out.old) (O.taken out.new) }
    // At every other status it was not touched.
    ensures untouched { result.0 ≢ 0 → result.0 ≢ 11 → out.new ≡ out.old }
    // Each other status has its cause, and its line on `err`; at status 0 nothing stands there.
    ensures says { let around = surroundings (D.files dir.old) (D.counts dir.old) (D.counts dir.new)
        in
        let wrote = Wrote (E.taken err.old) (E.taken err.new) (E.faults err.old) (E.faults err.new) in
        Says tables.now (Asks (bytes_each words.now)) (IsNoLine (bytes_each words.now) wrote) around
        (err.new ≡ err.old) wrote result.0 }
    // Words that are no line end in 2, or in 12.
    ensures no_line { ((request : Request) → LineS (bytes_each words.now) request → ⊥)
        → (result.0 ≡ 2) ⊎ (result.0 ≡ 12) }
    // A valid line has its reply, if nothing fails and memory suffices.
    ensures complete { (request : Request) → LineS (bytes_each words.now) request
        → (job_of tables.now request).valid (D.files dir.old)
        → (Rose (D.counts dir.old).faults (D.counts dir.new).faults → ⊥)
        → (result.0 ≡ 0) ⊎ (result.0 ≡ 11) ⊎ (result.0 ≡ 12) }
    ensures files { D.files dir.new ≡ D.files dir.old }
    // The directory is as it was if no line reads files; no count falls; an input takes at most 2^24 + 1 bytes.
    ensures untried { ((request : Request) → LineS (bytes_each words.now) request
        → (job_of tables.now request).reads ≡ false) → dir.new ≡ dir.old }
    ensures unlisted { result.0 ≡ 3 → dir.new ≡ dir.old }
    ensures unsupported { result.0 ≡ 4 → dir.new ≡ dir.old }
    ensures later { (D.counts dir.old).faults ≤ (D.counts dir.new).faults }
    ensures stays { (D.counts dir.old).faults ≡ 2 ^ 64 - 1
        → (D.counts dir.new).faults ≡ 2 ^ 64 - 1 }
    ensures out_later { O.faults out.old ≤ O.faults out.new }
    ensures err_later { E.faults err.old ≤ E.faults err.new }
    ensures given { (request : Request) → LineS (bytes_each words.now) request
        → (D.counts dir.new).given
        ≤ (D.counts dir.old).given + (2 ^ 24 + 1) * length (job_of tables.now request).inputs }
{
    match command(alloc, words) {
        Ok(command) => {
            let line = Asked {
                command: &command,
                tables,
            };
            run_command(alloc, &line, dir, out, err)
        }
        Err(LineFail::Bad(index)) => {
            let _ = write_bad(err, words, index);
            Exit(2)
        }
        Err(LineFail::Missing) => {
            complain(err, MISSING_WORD);
            Exit(2)
        }
        Err(LineFail::Memory) => {
            complain(err, OUT_OF_MEMORY);
            Exit(12)
        }
    }
}

// Whether the word of this number stands where a target is wanted.
fn is_target_place(words: &[String], index: usize) -> bool
    ensures { result ≡ is_target_place (bytes_each words.now) index }
{
    match words.get(0) {
        Some(first) => index == 1 && first.as_str() == "isa",
        None => false,
    }
}

// Writes the line of the word of this number, with which no line goes on. It takes no memory.
fn write_bad<E: Sink>(err: &mut E, words: &[String], index: usize) -> Result<(), Failed>
    ensures ok { (word : List ℕ) → slice_get (bytes_each words.now) index ≡ Some word
        → OnOk result (Took (E.taken err.old) (E.taken err.new)
        (bad_line (bytes_each words.now) index word)) }
    ensures part { (word : List ℕ) → slice_get (bytes_each words.now) index ≡ Some word
        → OnErr result (TookPart (E.taken err.old) (E.taken err.new)
        (bad_line (bytes_each words.now) index word)) }
    ensures failed { OnErr result (Rose (E.faults err.old) (E.faults err.new)) }
    ensures later { E.faults err.old ≤ E.faults err.new }
{
    if is_target_place(words, index) {
        write_unknown_isa(err, word_at(words, index))
    } else {
        write_bad_word(err, word_at(words, index))
    }
}

// The word of this number.
fn word_at(words: &[String], index: usize) -> &str
    ensures { (word : List ℕ) → slice_get (bytes_each words.now) index ≡ Some word
        → result.now ≡ word }
{
    match words.get(index) {
        Some(word) => word.as_str(),
        None => "",
    }
}

// Does what a line asks for.
fn run_command<D: Dir, O: Sink, E: Sink>(
    alloc: Global,
    line: &Asked<'_>,
    dir: &mut D,
    out: &mut O,
    err: &mut E,
) -> Exit
    ensures done { let around = surroundings (D.files dir.old) (D.counts dir.old) (D.counts dir.new)
        in
        result.0 ≡ 0 → (O.faults out.new ≡ O.faults out.old)
        × TookReply (job_asked line.now) around (O.taken out.old) (O.taken out.new) }
    ensures part { let around = surroundings (D.files dir.old) (D.counts dir.old) (D.counts dir.new)
        in
        result.0 ≡ 11 → Rose (O.faults out.old) (O.faults out.new)
        × TookPartOfReply (job_asked line.now) around (O.taken out.old) (O.taken out.new) }
    ensures untouched { result.0 ≢ 0 → result.0 ≢ 11 → out.new ≡ out.old }
    ensures says { let around = surroundings (D.files dir.old) (D.counts dir.old) (D.counts dir.new)
        in
        let wrote = Wrote (E.taken err.old) (E.taken err.new) (E.faults err.old) (E.faults err.new) in
        Says line.now.tables.now (λ a. a ≡ seen_command line.now.command.now) ⊥ around
        (err.new ≡ err.old) wrote result.0 }
    ensures untried { (job_asked line.now).reads ≡ false → dir.new ≡ dir.old }
    ensures unlisted { result.0 ≡ 3 → dir.new ≡ dir.old }
    ensures unsupported { result.0 ≡ 4 → dir.new ≡ dir.old }
    ensures complete { (job_asked line.now).valid (D.files dir.old)
        → (Rose (D.counts dir.old).faults (D.counts dir.new).faults → ⊥)
        → (result.0 ≡ 0) ⊎ (result.0 ≡ 11) ⊎ (result.0 ≡ 12) }
    ensures files { D.files dir.new ≡ D.files dir.old }
    ensures later { (D.counts dir.old).faults ≤ (D.counts dir.new).faults }
    ensures stays { (D.counts dir.old).faults ≡ 2 ^ 64 - 1
        → (D.counts dir.new).faults ≡ 2 ^ 64 - 1 }
    ensures out_later { O.faults out.old ≤ O.faults out.new }
    ensures err_later { E.faults err.old ≤ E.faults err.new }
    ensures given { let names = (job_asked line.now).inputs in
        (D.counts dir.new).given ≤ (D.counts dir.old).given + (2 ^ 24 + 1) * length names }
{
    match reply(alloc, line, dir) {
        Ok(text) => match write_all(out, text.as_bytes()) {
            Ok(()) => Exit(0),
            Err(_) => {
                complain(err, WRITE_FAULT);
                Exit(11)
            }
        },
        Err(refusal) => refuse(alloc, err, line, &refusal),
    }
}
