//! Items of written tables.

ghost use Rattle.std.specs.Prelude.{◌≡◌};
ghost use Rattle.isle_reading.specs.Combinators.{next_word};
ghost use Rattle.isle_reading.specs.Views.{left, Reads};
ghost use Rattle.isle_tables.specs.Reading.{item_head_of, read_item_head, read_item_after};
ghost use Rattle.isle_tables.specs.Reading.{read_item, read_items};
ghost use Rattle.isle_tables.specs.declared.item.ItemHead.TheVariants.{Op, ExtOp};

use crate::assembler::x64;
use crate::formats::format;
use crate::instructions::inst;
use crate::item::{Item, ItemHead};
use crate::operations::op;
use isle_reading::{Fail, Tokens};
use std::alloc::Global;

// What the item is that is next.
#[tactic(auto, using(isle_reading::proofs::Steps::next))]
fn next_head(tokens: &Tokens<'_>) -> Option<ItemHead>
    ensures { result ≡ next_word item_head_of (left tokens.now) }
{
    match tokens.word()? {
        "format" => Some(ItemHead::Format),
        "inst" => Some(ItemHead::Inst),
        "x64" => Some(ItemHead::X64),
        "op" => Some(ItemHead::Op),
        "ext-op" => Some(ItemHead::ExtOp),
        _ => None,
    }
}

// What an item is, by its first word.
#[tactic(auto, using(isle_reading::proofs::Steps::words), unfolding(crate::specs::Reading::read_item_head))]
fn item_head(tokens: &mut Tokens<'_>) -> Result<ItemHead, Fail>
    ensures { Reads (λ read. read) result read_item_head (left tokens.old) (left tokens.new) }
{
    match next_head(tokens) {
        Some(head) => {
            tokens.skip();
            Ok(head)
        }
        None => Err(Fail::At(tokens.len())),
    }
}

// What stands after the first word of an operation.
#[tactic(auto, using(isle_reading::proofs::Steps::chain), unfolding(crate::specs::Reading::read_item_after))]
fn plain_op(tokens: &mut Tokens<'_>, alloc: Global, most: usize) -> Result<Item, Fail>
    ensures { Reads (λ read. read) result (read_item_after most Op) (left tokens.old)
        (left tokens.new) }
{
    let inst = op(tokens, alloc, most)?;
    Ok(Item::Op(inst))
}

// What stands after the first word of an extended operation.
#[tactic(auto, using(isle_reading::proofs::Steps::chain), unfolding(crate::specs::Reading::read_item_after))]
fn extended_op(tokens: &mut Tokens<'_>, alloc: Global, most: usize) -> Result<Item, Fail>
    ensures { Reads (λ read. read) result (read_item_after most ExtOp) (left tokens.old)
        (left tokens.new) }
{
    let inst = op(tokens, alloc, most)?;
    Ok(Item::ExtOp(inst))
}

// What stands after the first word of an item.
#[tactic(auto, unfolding(crate::specs::Reading::read_item_after))]
fn item_after(
    tokens: &mut Tokens<'_>,
    alloc: Global,
    most: usize,
    head: ItemHead,
) -> Result<Item, Fail>
    ensures { Reads (λ read. read) result (read_item_after most head) (left tokens.old)
        (left tokens.new) }
{
    match head {
        ItemHead::Format => format(tokens, alloc, most),
        ItemHead::Inst => inst(tokens, alloc, most),
        ItemHead::X64 => x64(tokens, alloc, most),
        ItemHead::Op => plain_op(tokens, alloc, most),
        ItemHead::ExtOp => extended_op(tokens, alloc, most),
    }
}

// An item.
#[tactic(auto, using(isle_reading::proofs::Steps::chain), unfolding(crate::specs::Reading::read_item))]
fn item(tokens: &mut Tokens<'_>, alloc: Global, most: usize) -> Result<Item, Fail>
    ensures { Reads (λ read. read) result (read_item most) (left tokens.old) (left tokens.new) }
{
    tokens.open()?;
    let head = item_head(tokens)?;
    item_after(tokens, alloc, most, head)
}

/// Reads the items of a text of at most `most` tokens, up to its end.
#[tactic(auto, using(isle_reading::proofs::ListSteps::alls), unfolding(crate::specs::Reading::read_items))]
pub fn items(tokens: &mut Tokens<'_>, alloc: Global, most: usize) -> Result<Vec<Item>, Fail>
    ensures { Reads (λ read. read.items) result (read_items most) (left tokens.old)
        (left tokens.new) }
{
    let mut items = Vec::new(alloc);
    for _ in 0..most {
        if tokens.len() == 0 {
            return Ok(items);
        }
        items.push(item(tokens, alloc, most)?)?;
    }
    if tokens.len() == 0 {
        return Ok(items);
    }
    Err(Fail::At(tokens.len()))
}
