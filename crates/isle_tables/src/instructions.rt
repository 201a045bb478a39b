//! Instructions as they are written.

ghost use Rattle.std.specs.Prelude.{◌≡◌};
ghost use Rattle.isle_reading.specs.Combinators.{next_word, many};
ghost use Rattle.isle_reading.specs.Views.{left, Reads};
ghost use Rattle.isle_tables.specs.Reading.{opnd_head_of, read_opnd_head, read_class, read_opnd};
ghost use Rattle.isle_tables.specs.Reading.{read_opnds, read_inst_names, read_effects, read_inst};

use crate::item::{InstRow, Item};
use crate::pieces::{counted, flag, keyword, placed, symbol};
use crate::words::class_of;
use isle_core::{List, Text};
use isle_meta::{ClifOperand, OperandClass};
use isle_reading::{Fail, Tokens};
use std::alloc::Global;

// What the operand is that is next; of an immediate none is given.
#[tactic(auto, using(isle_reading::proofs::Steps::next))]
fn next_opnd(tokens: &Tokens<'_>) -> Option<Option<OperandClass>>
    ensures { result ≡ next_word opnd_head_of (left tokens.now) }
{
    let word = tokens.word()?;
    if word == "imm" {
        return Some(None);
    }
    Some(Some(class_of(word)?))
}

// What an operand is, by its first word.
#[tactic(auto, using(isle_reading::proofs::Steps::words), unfolding(crate::specs::Reading::read_opnd_head))]
fn opnd_head(tokens: &mut Tokens<'_>) -> Result<Option<OperandClass>, Fail>
    ensures { Reads (λ read. read) result read_opnd_head (left tokens.old) (left tokens.new) }
{
    match next_opnd(tokens) {
        Some(head) => {
            tokens.skip();
            Ok(head)
        }
        None => Err(Fail::At(tokens.len())),
    }
}

// What an operand is, an immediate by its type, which is read.
#[tactic(auto, using(isle_reading::proofs::Steps::chain), unfolding(crate::specs::Reading::read_class))]
fn class(
    tokens: &mut Tokens<'_>,
    alloc: Global,
    head: Option<OperandClass>,
) -> Result<OperandClass, Fail>
    ensures { Reads (λ read. read) result (read_class head) (left tokens.old) (left tokens.new) }
{
    match head {
        Some(class) => Ok(class),
        None => {
            let rust_type = symbol(tokens, alloc)?;
            Ok(OperandClass::Imm(rust_type))
        }
    }
}

// An operand.
#[tactic(auto, using(isle_reading::proofs::Steps::chain), unfolding(crate::specs::Reading::read_opnd))]
fn opnd(tokens: &mut Tokens<'_>, alloc: Global) -> Result<ClifOperand, Fail>
    ensures { Reads (λ read. read) result read_opnd (left tokens.old) (left tokens.new) }
{
    tokens.open()?;
    let head = opnd_head(tokens)?;
    let name = symbol(tokens, alloc)?;
    let class = class(tokens, alloc, head)?;
    tokens.close()?;
    Ok(ClifOperand { name, class })
}

// Operands up to a closing parenthesis, which is taken.
#[tactic(auto, using(isle_reading::proofs::ListSteps::lists))]
fn opnd_list(tokens: &mut Tokens<'_>, alloc: Global, most: usize) -> Result<Vec<ClifOperand>, Fail>
    ensures { Reads (λ read. read.items) result (many most read_opnd) (left tokens.old)
        (left tokens.new) }
{
    let mut opnds = Vec::new(alloc);
    for _ in 0..most {
        match tokens.closes() {
            Some(_) => {
                tokens.skip();
                return Ok(opnds);
            }
            None => opnds.push(opnd(tokens, alloc)?)?,
        }
    }
    Err(Fail::At(tokens.len()))
}

// The operands of an instruction.
#[tactic(auto, using(isle_reading::proofs::Steps::chain), unfolding(crate::specs::Reading::read_opnds))]
fn opnds(tokens: &mut Tokens<'_>, alloc: Global, most: usize) -> Result<Vec<ClifOperand>, Fail>
    ensures { Reads (λ read. read.items) result (read_opnds most) (left tokens.old)
        (left tokens.new) }
{
    tokens.open()?;
    keyword(tokens, "in")?;
    opnd_list(tokens, alloc, most)
}

// The names of an instruction, the last with its place.
#[tactic(auto, using(isle_reading::proofs::Steps::chain), unfolding(crate::specs::Reading::read_inst_names))]
fn inst_names(tokens: &mut Tokens<'_>, alloc: Global) -> Result<(Text, Text, Text, usize), Fail>
    ensures { Reads (λ read. read) result read_inst_names (left tokens.old) (left tokens.new) }
{
    let name = symbol(tokens, alloc)?;
    let camel_name = symbol(tokens, alloc)?;
    let format = placed(tokens, alloc)?;
    Ok((name, camel_name, format.0, format.1))
}

// The number of results, and the two flags.
#[tactic(auto, using(isle_reading::proofs::Steps::chain), unfolding(crate::specs::Reading::read_effects))]
fn effects(tokens: &mut Tokens<'_>) -> Result<(usize, bool, bool), Fail>
    ensures { Reads (λ read. read) result read_effects (left tokens.old) (left tokens.new) }
{
    let results = counted(tokens, "out")?;
    let trap = flag(tokens, "trap")?;
    let effect = flag(tokens, "effect")?;
    tokens.close()?;
    Ok((results, trap, effect))
}

/// Reads what stands after the first word of an instruction.
#[tactic(auto, using(isle_reading::proofs::Steps::chain), unfolding(crate::specs::Reading::read_inst))]
pub fn inst(tokens: &mut Tokens<'_>, alloc: Global, most: usize) -> Result<Item, Fail>
    ensures { Reads (λ read. read) result (read_inst most) (left tokens.old) (left tokens.new) }
{
    let (name, camel_name, format, format_at) = inst_names(tokens, alloc)?;
    let opnds = opnds(tokens, alloc, most)?;
    let effects = effects(tokens)?;
    Ok(Item::Inst(InstRow {
        name,
        camel_name,
        format,
        format_at,
        operands_in: List::new(opnds),
        value_results: effects.0,
        can_trap: effects.1,
        other_side_effects: effects.2,
    }))
}
