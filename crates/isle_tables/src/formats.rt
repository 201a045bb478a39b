//! Formats as they are written.

ghost use Rattle.std.specs.Prelude.{◌≡◌, true, false};
ghost use Rattle.isle_reading.specs.Combinators.{next_word, many};
ghost use Rattle.isle_reading.specs.Views.{left, Reads};
ghost use Rattle.isle_tables.specs.Reading.{part_of, read_one_of, read_values, read_imm_after};
ghost use Rattle.isle_tables.specs.Reading.{read_imm, read_part_head, read_parts_after};
ghost use Rattle.isle_tables.specs.Reading.{read_some_parts, read_parts, read_counts, read_format};

use crate::item::Item;
use crate::pieces::{count, counted, flag, keyword, symbol, symbols};
use isle_core::{List, Text};
use isle_meta::{ImmField, InstructionFormat};
use isle_reading::{Fail, Tokens};
use std::alloc::Global;

// The values of an immediate, and the closing parentheses after them and it.
#[tactic(auto, using(isle_reading::proofs::Steps::chain), unfolding(crate::specs::Reading::read_one_of))]
fn one_of(tokens: &mut Tokens<'_>, alloc: Global, most: usize) -> Result<Option<List<Text>>, Fail>
    ensures { Reads (λ read. read) result (read_one_of most) (left tokens.old)
        (left tokens.new) }
{
    tokens.open()?;
    keyword(tokens, "one-of")?;
    let values = symbols(tokens, alloc, most)?;
    tokens.close()?;
    Ok(Some(List::new(values)))
}

// The values of an immediate, if they are there, and its closing parenthesis.
#[tactic(auto, using(crate::proofs::Steps::endings))]
fn values(tokens: &mut Tokens<'_>, alloc: Global, most: usize) -> Result<Option<List<Text>>, Fail>
    ensures { Reads (λ read. read) result (read_values most) (left tokens.old)
        (left tokens.new) }
{
    if tokens.len() == 0 {
        return Err(Fail::At(tokens.len()));
    }
    match tokens.closes() {
        Some(_) => {
            tokens.skip();
            Ok(None)
        }
        None => one_of(tokens, alloc, most),
    }
}

// What stands after the first word of an immediate.
#[tactic(auto, using(isle_reading::proofs::Steps::chain), unfolding(crate::specs::Reading::read_imm_after))]
fn imm_after(tokens: &mut Tokens<'_>, alloc: Global, most: usize) -> Result<ImmField, Fail>
    ensures { Reads (λ read. read) result (read_imm_after most) (left tokens.old)
        (left tokens.new) }
{
    let member = symbol(tokens, alloc)?;
    let rust_type = symbol(tokens, alloc)?;
    let values = values(tokens, alloc, most)?;
    Ok(ImmField {
        member,
        rust_type,
        values,
    })
}

// An immediate.
#[tactic(auto, using(isle_reading::proofs::Steps::chain), unfolding(crate::specs::Reading::read_imm))]
fn imm(tokens: &mut Tokens<'_>, alloc: Global, most: usize) -> Result<ImmField, Fail>
    ensures { Reads (λ read. read) result (read_imm most) (left tokens.old) (left tokens.new) }
{
    tokens.open()?;
    keyword(tokens, "imm")?;
    imm_after(tokens, alloc, most)
}

// Immediates up to a closing parenthesis, which is taken, after those in front.
#[tactic(auto, using(isle_reading::proofs::ListSteps::lists))]
fn imms(tokens: &mut Tokens<'_>, alloc: Global, most: usize) -> Result<Vec<ImmField>, Fail>
    ensures { Reads (λ read. read.items) result (many most (read_imm most)) (left tokens.old)
        (left tokens.new) }
{
    let mut imms = Vec::new(alloc);
    for _ in 0..most {
        match tokens.closes() {
            Some(_) => {
                tokens.skip();
                return Ok(imms);
            }
            None => imms.push(imm(tokens, alloc, most)?)?,
        }
    }
    Err(Fail::At(tokens.len()))
}

// Whether the list that is next is the typevar operand.
#[tactic(auto, using(isle_reading::proofs::Steps::next))]
fn next_part(tokens: &Tokens<'_>) -> Option<bool>
    ensures { result ≡ next_word part_of (left tokens.now) }
{
    match tokens.word()? {
        "typevar" => Some(true),
        "imm" => Some(false),
        _ => None,
    }
}

// Whether a list in a format is the typevar operand, by its first word.
#[tactic(auto, using(isle_reading::proofs::Steps::words), unfolding(crate::specs::Reading::read_part_head))]
fn part_head(tokens: &mut Tokens<'_>) -> Result<bool, Fail>
    ensures { Reads (λ read. read) result read_part_head (left tokens.old) (left tokens.new) }
{
    match next_part(tokens) {
        Some(part) => {
            tokens.skip();
            Ok(part)
        }
        None => Err(Fail::At(tokens.len())),
    }
}

// What stands after the word of the typevar operand: it and the immediates.
#[tactic(auto, using(isle_reading::proofs::Steps::chain), unfolding(crate::specs::Reading::read_parts_after))]
fn typevar_parts(
    tokens: &mut Tokens<'_>,
    alloc: Global,
    most: usize,
) -> Result<(Option<usize>, Vec<ImmField>), Fail>
    ensures { Reads (λ read. (read.0, read.1.items)) result (read_parts_after most true)
        (left tokens.old) (left tokens.new) }
{
    let operand = count(tokens)?;
    tokens.close()?;
    let imms = imms(tokens, alloc, most)?;
    Ok((Some(operand), imms))
}

// What stands after the word of the first immediate: all of them.
#[tactic(auto, using(isle_reading::proofs::Steps::chain), unfolding(crate::specs::Reading::read_parts_after))]
fn imm_parts(
    tokens: &mut Tokens<'_>,
    alloc: Global,
    most: usize,
) -> Result<(Option<usize>, Vec<ImmField>), Fail>
    ensures { Reads (λ read. (read.0, read.1.items)) result (read_parts_after most false)
        (left tokens.old) (left tokens.new) }
{
    let first = imm_after(tokens, alloc, most)?;
    let mut imms = imms(tokens, alloc, most)?;
    imms.insert(0, first)?;
    Ok((None, imms))
}

// The lists of a format from the first one on.
#[tactic(auto, using(isle_reading::proofs::Steps::chain), unfolding(crate::specs::Reading::read_some_parts))]
fn some_parts(
    tokens: &mut Tokens<'_>,
    alloc: Global,
    most: usize,
) -> Result<(Option<usize>, Vec<ImmField>), Fail>
    ensures { Reads (λ read. (read.0, read.1.items)) result (read_some_parts most)
        (left tokens.old) (left tokens.new) }
{
    tokens.open()?;
    let is_typevar = part_head(tokens)?;
    if is_typevar {
        typevar_parts(tokens, alloc, most)
    } else {
        imm_parts(tokens, alloc, most)
    }
}

// The typevar operand, if it is there, the immediates, and the closing parenthesis.
#[tactic(auto, using(crate::proofs::Steps::endings))]
fn parts(
    tokens: &mut Tokens<'_>,
    alloc: Global,
    most: usize,
) -> Result<(Option<usize>, Vec<ImmField>), Fail>
    ensures { Reads (λ read. (read.0, read.1.items)) result (read_parts most) (left tokens.old)
        (left tokens.new) }
{
    if tokens.len() == 0 {
        return Err(Fail::At(tokens.len()));
    }
    match tokens.closes() {
        Some(_) => {
            tokens.skip();
            Ok((None, Vec::new(alloc)))
        }
        None => some_parts(tokens, alloc, most),
    }
}

// The numbers of operands: values, blocks, raw blocks.
#[tactic(auto, using(isle_reading::proofs::Steps::chain), unfolding(crate::specs::Reading::read_counts))]
fn counts(tokens: &mut Tokens<'_>) -> Result<(usize, usize, usize), Fail>
    ensures { Reads (λ read. read) result read_counts (left tokens.old) (left tokens.new) }
{
    let values = counted(tokens, "values")?;
    let blocks = counted(tokens, "blocks")?;
    let raw = counted(tokens, "raw")?;
    Ok((values, blocks, raw))
}

/// Reads what stands after the first word of a format.
#[tactic(auto, using(isle_reading::proofs::Steps::chain), unfolding(crate::specs::Reading::read_format))]
pub fn format(tokens: &mut Tokens<'_>, alloc: Global, most: usize) -> Result<Item, Fail>
    ensures { Reads (λ read. read) result (read_format most) (left tokens.old)
        (left tokens.new) }
{
    let name = symbol(tokens, alloc)?;
    let list = flag(tokens, "list")?;
    let counts = counts(tokens)?;
    let (typevar, imms) = parts(tokens, alloc, most)?;
    Ok(Item::Format(InstructionFormat {
        name,
        has_value_list: list,
        num_value_operands: counts.0,
        num_block_operands: counts.1,
        num_raw_block_operands: counts.2,
        imm_fields: List::new(imms),
        typevar_operand: typevar,
    }))
}
