ghost use Rattle.std.specs.Prelude.{◌≡◌, ℕ, List, Err, IfOk};
ghost use Rattle.isle_reading.specs.Places.{IsFaultAt};
ghost use Rattle.isle_reading.specs.Views.{left};
ghost use Rattle.isle_answers.specs.Form.{Form as PureForm};
ghost use Rattle.isle_answers.specs.Places.{AreForms, IsFault};
ghost use Rattle.isle_answers.specs.Spelling.{SpellsTokens, SpellsForms};
ghost use Rattle.isle_answers.specs.Views.{forms_seen};
ghost use Rattle.isle_answers.specs.declared.texts.AnswersFail.TheVariants.{At};

use crate::form::Form;
use crate::reading::all_forms;
use isle_core::List;
use isle_reading::{Fail, Tokens};
use std::alloc::Global;

/// Why a text gives no forms.
#[derive(Clone, Copy, Debug, PartialEq, Eq)]
pub enum AnswersFail {
    /// The start of a comment that never ends, or else the place of the first token with which no answers file begins,
    /// or the length of the text if a token is missing.
    At(usize),
    Memory,
}

// The forms that these tokens of a text of that length spell.
fn of_tokens(alloc: Global, tokens: &Tokens<'_>, end: usize) -> Result<Vec<Form>, AnswersFail>
    ensures spelt { IfOk result (λ read. SpellsTokens (left tokens.now) (forms_seen read.items)) }
    ensures fault { (at : ℕ) → result ≡ Err (At at)
        → IsFaultAt AreForms (left tokens.now) end at }
{
    let mut cursor = *tokens;
    match all_forms(&mut cursor, alloc, tokens.len()) {
        Ok(read) => Ok(read),
        Err(Fail::At(count)) => Err(AnswersFail::At(tokens.at_left(count).place(end))),
        Err(Fail::Memory) => Err(AnswersFail::Memory),
    }
}

/// Returns the forms of the answers file that a text spells, in order. `At` comes exactly if it spells none, with
/// the place where it goes wrong.
pub fn forms(alloc: Global, text: &str) -> Result<List<Form>, AnswersFail>
    ensures spelt { IfOk result (λ read. SpellsForms text.now (forms_seen read)) }
    ensures only { IfOk result (λ read.
        (others : List PureForm) → SpellsForms text.now others → others ≡ forms_seen read) }
    ensures fault { (at : ℕ) → result ≡ Err (At at) → IsFault text.now at }
{
    match Tokens::new(text) {
        Ok(tokens) => Ok(List::new(of_tokens(alloc, &tokens, text.len())?)),
        Err(at) => Err(AnswersFail::At(at)),
    }
}
