//! The file of a run's answers, which is read after its source.

ghost use Rattle.std.specs.Prelude.{◌≡◌, ◌≤◌, ◌+◌, ◌-◌, ◌*◌, ◌^◌, length, IfOk, IfErr};
ghost use Rattle.std.specs.Prelude.{IfSome, IsSomeAnd};
ghost use Rattle.std.specs.Option.{option_copied};
ghost use Rattle.isle_outside.specs.Directory.{bytes_of, raised};
ghost use Rattle.isle_outside.specs.Reading.{IsText};
ghost use Rattle.isle_top.specs.Inputs.{FailsTo, LooksUp};
ghost use Rattle.isle_top.specs.RunLine.{answers_names, IsAnswersText};

use isle_core::{Dir, ReadError, ReadFail, Text, read_text};
use std::alloc::Global;

// The text of the input of this number and name.
fn text_at<D: Dir>(alloc: Global, index: usize, name: &str, dir: &mut D) -> Result<Text, ReadError>
    ensures ok { IfOk result (λ text.
        IfSome (D.files dir.old) (λ fs. IsText text (bytes_of fs name.now))) }
    ensures err { IfErr result (λ e.
        FailsTo e index (D.files dir.old) name.now (D.counts dir.old) (D.counts dir.new)) }
    ensures files { D.files dir.new ≡ D.files dir.old }
    ensures later { (D.counts dir.old).faults ≤ (D.counts dir.new).faults }
    ensures stays { (D.counts dir.old).faults ≡ 2 ^ 64 - 1
        → (D.counts dir.new).faults ≡ 2 ^ 64 - 1 }
    ensures find { IfOk result (λ text.
        (D.counts dir.new).finds ≡ raised 1 (D.counts dir.old).finds) }
    ensures steady { IfOk result (λ text. (D.counts dir.new).faults ≡ (D.counts dir.old).faults) }
    ensures given { (D.counts dir.new).given ≤ (D.counts dir.old).given + (2 ^ 24 + 1) }
{
    match read_text(alloc, dir, name) {
        Ok(text) => Ok(Text::new(text)),
        Err(ReadFail::Io(cause)) => Err(ReadError::Io { index, cause }),
        Err(ReadFail::Memory) => Err(ReadError::Memory),
    }
}

/// Returns the text of the answers, which are the input of this number; without a file of them it is empty.
pub fn answers_text<D: Dir>(
    alloc: Global,
    index: usize,
    answers: Option<&str>,
    dir: &mut D,
) -> Result<Text, ReadError>
    ensures ok { IfOk result (λ text.
        IsAnswersText (D.files dir.old) (option_copied answers.entry) text) }
    ensures err { IfErr result (λ e. IsSomeAnd (option_copied answers.entry)
        (λ file. FailsTo e index (D.files dir.old) file (D.counts dir.old) (D.counts dir.new))) }
    ensures files { D.files dir.new ≡ D.files dir.old }
    ensures later { (D.counts dir.old).faults ≤ (D.counts dir.new).faults }
    ensures stays { (D.counts dir.old).faults ≡ 2 ^ 64 - 1
        → (D.counts dir.new).faults ≡ 2 ^ 64 - 1 }
    ensures looks { IfOk result (λ text.
        LooksUp (option_copied answers.entry) (D.counts dir.old) (D.counts dir.new)) }
    ensures steady { IfOk result (λ text. (D.counts dir.new).faults ≡ (D.counts dir.old).faults) }
    ensures given { let names = answers_names (option_copied answers.entry) in
        (D.counts dir.new).given ≤ (D.counts dir.old).given + (2 ^ 24 + 1) * length names }
{
    match answers {
        Some(file) => text_at(alloc, index, file, dir),
        None => Ok(Text::new(String::new(alloc))),
    }
}
