//! Texts of tables.

ghost use Rattle.std.specs.Prelude.{◌≡◌, ℕ, Err, IfOk};
ghost use Rattle.isle_reading.specs.Views.{left};
ghost use Rattle.isle_meta.specs.declared.tables.Tables.{Tables as Records};
ghost use Rattle.isle_tables.specs.Grammar.{ItemsS};
ghost use Rattle.isle_tables.specs.Places.{GoesWrongAt, IsTablesFault};
ghost use Rattle.isle_tables.specs.Spelling.{SpellsTables};
ghost use Rattle.isle_tables.specs.declared.fail.TablesFail.TheVariants.{At};

use crate::fail::TablesFail;
use crate::item::Item;
use crate::reading::items;
use crate::resolved::tables;
use isle_meta::Tables;
use isle_reading::{Fail, Tokens};
use std::alloc::Global;

// The items that these tokens of a text of that length spell.
fn of_tokens(alloc: Global, tokens: &Tokens<'_>, end: usize) -> Result<Vec<Item>, TablesFail>
    ensures spelt { IfOk result (λ read. ItemsS read.items (left tokens.now)) }
    ensures fault { (at : ℕ) → result ≡ Err (At at) → GoesWrongAt (left tokens.now) end at }
{
    let mut cursor = *tokens;
    match items(&mut cursor, alloc, tokens.len()) {
        Ok(read) => Ok(read),
        Err(Fail::At(count)) => Err(TablesFail::At(tokens.at_left(count).place(end))),
        Err(Fail::Memory) => Err(TablesFail::Memory),
    }
}

/// Returns the tables that a text spells. `At` comes exactly if it spells none, with the place where it goes wrong.
pub fn parse_tables(alloc: Global, text: &str) -> Result<Tables, TablesFail>
    ensures spelt { IfOk result (λ t. SpellsTables text.now t) }
    ensures only { IfOk result (λ t.
        (others : Records) → SpellsTables text.now others → others ≡ t) }
    ensures none { (at : ℕ) → result ≡ Err (At at)
        → (t : Records) → SpellsTables text.now t → ⊥ }
    ensures fault { (at : ℕ) → result ≡ Err (At at) → IsTablesFault text.now at }
{
    let tokens = match Tokens::new(text) {
        Ok(tokens) => tokens,
        Err(at) => return Err(TablesFail::At(at)),
    };
    match of_tokens(alloc, &tokens, text.len()) {
        Ok(read) => tables(alloc, read),
        Err(fail) => Err(fail),
    }
}
