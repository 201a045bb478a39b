ghost use Rattle.std.specs.Prelude.{◌≡◌, ◌≤◌, Ok, None, IfOk, IfErr, IfSome};
ghost use Rattle.isle_reading.specs.Nesting.{depth, most_open};
ghost use Rattle.isle_reading.specs.Views.{left, Refuses};
ghost use Rattle.isle_values.specs.Reading.{values_of};
ghost use Rattle.isle_values.specs.Spelling.{ListS, SpellsValues};
ghost use Rattle.isle_values.specs.Views.{seen};
ghost use Rattle.isle_values.specs.Written.{Writtens};

use crate::reading::whole;
use crate::written::Written;
use isle_core::{List, OutOfMemory};
use isle_reading::{Fail, Tokens};
use std::alloc::Global;

// The list that tokens spell.
fn listed(alloc: Global, tokens: &mut Tokens<'_>) -> Result<Vec<Written>, Fail>
    ensures got { IfOk result (λ read.
        ListS (seen read.items) (left tokens.old) × (depth (left tokens.old) ≤ most_open)) }
    ensures refused { IfErr result (λ fail. Refuses fail (values_of (left tokens.old))) }
{
    let most = tokens.len();
    whole(tokens, alloc, most)
}

/// Returns the list of values that a text spells, `( V* )` and nothing after it. A V is `true`, `false`, an integer,
/// or `( N V* )` with a name N. None comes exactly if the text spells no such list with at most 256 parentheses open
/// at once.
pub fn values(alloc: Global, text: &str) -> Result<Option<List<Written>>, OutOfMemory>
    ensures some { IfOk result (λ read. IfSome read (λ vs. SpellsValues text.now (seen vs))) }
    ensures only { IfOk result (λ read.
        IfSome read (λ vs. (others : Writtens) → SpellsValues text.now others → others ≡ seen vs)) }
    ensures none { result ≡ Ok None → (others : Writtens) → SpellsValues text.now others → ⊥ }
{
    let mut tokens = match Tokens::new(text) {
        Ok(tokens) => tokens,
        Err(_) => return Ok(None),
    };
    match listed(alloc, &mut tokens) {
        Ok(read) => Ok(Some(List::new(read))),
        Err(Fail::At(_)) => Ok(None),
        Err(Fail::Memory) => Err(OutOfMemory),
    }
}
