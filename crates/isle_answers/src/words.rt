ghost use Rattle.std.specs.Prelude.{◌≡◌, IfOk};
ghost use Rattle.std.specs.Option.{option_copied};
ghost use Rattle.isle_answers.specs.Words.{count_of, name_after, callee_of, is_reserved};

use isle_core::{Callee, Text};
use std::alloc::{AllocError, Global};

/// The most digits of a count.
const MOST_DIGITS: usize = 18;

/// Returns the number that 1 to 18 decimal digits spell.
#[tactic(auto, unfolding(crate::specs::Words::count_of))]
pub fn count_of(word: &str) -> Option<usize>
    ensures { result ≡ count_of word.now }
{
    let digits = word.as_bytes();
    if digits.is_empty() || digits.len() > MOST_DIGITS {
        return None;
    }
    let mut count: usize = 0;
    for digit in digits {
        if !digit.is_ascii_digit() {
            return None;
        }
        count = count
            .checked_mul(10)?
            .checked_add(usize::from(*digit - b'0'))?;
    }
    Some(count)
}

// What stands after the prefix of a word that is longer.
fn name_after<'a>(word: &'a str, prefix: &str) -> Option<&'a str>
    ensures { option_copied result ≡ name_after prefix.now word.now }
{
    let name = word.strip_prefix(prefix)?;
    if name.is_empty() { None } else { Some(name) }
}

/// Returns what is called, if the word is `C::F` or `constructor_T`.
#[tactic(auto, unfolding(crate::specs::Words::callee_of))]
pub fn callee_of(alloc: Global, word: &str) -> Result<Option<Callee>, AllocError>
    ensures { IfOk result (λ callee. callee ≡ callee_of word.now) }
{
    if let Some(name) = name_after(word, "C::") {
        return Ok(Some(Callee::External(Text::copied(alloc, name)?)));
    }
    if let Some(name) = name_after(word, "constructor_") {
        return Ok(Some(Callee::Internal(Text::copied(alloc, name)?)));
    }
    Ok(None)
}

/// Tells whether a list that begins with the word is a form of its own where an answer or a result stands.
pub fn is_reserved(word: &str) -> bool
    ensures { result ≡ is_reserved word.now }
{
    matches!(word, "some" | "none" | "list" | "tuple")
}
