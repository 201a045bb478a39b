//! Instructions of the assembler as they are written.

ghost use Rattle.std.specs.Prelude.{◌≡◌};
ghost use Rattle.isle_reading.specs.Combinators.{next_word, many};
ghost use Rattle.isle_reading.specs.Views.{left, Reads};
ghost use Rattle.isle_tables.specs.Words.{bits_of, kind_of, mutability_of};
ghost use Rattle.isle_tables.specs.Reading.{read_bits, read_kind, read_mutability, read_xop_form};
ghost use Rattle.isle_tables.specs.Reading.{read_xop_flags, read_xop, read_xops, read_x64_flags};
ghost use Rattle.isle_tables.specs.Reading.{read_alternate, read_some_alt, read_alt};
ghost use Rattle.isle_tables.specs.Reading.{read_x64_front, read_x64};

use crate::item::Item;
use crate::pieces::{flag, keyword, symbol};
use crate::words::{bits_of, kind_of, mutability_of};
use isle_core::{List, Text};
use isle_meta::{Alternate, Inst, Mutability, Operand, OperandKind};
use isle_reading::{Fail, Tokens};
use std::alloc::Global;

// A number of bits that is next.
#[tactic(auto, using(isle_reading::proofs::Steps::next))]
fn next_bits(tokens: &Tokens<'_>) -> Option<u16>
    ensures { result ≡ next_word bits_of (left tokens.now) }
{
    bits_of(tokens.word()?)
}

// A number of bits.
#[tactic(auto, using(isle_reading::proofs::Steps::words), unfolding(crate::specs::Reading::read_bits))]
fn bits(tokens: &mut Tokens<'_>) -> Result<u16, Fail>
    ensures { Reads (λ read. read) result read_bits (left tokens.old) (left tokens.new) }
{
    match next_bits(tokens) {
        Some(bits) => {
            tokens.skip();
            Ok(bits)
        }
        None => Err(Fail::At(tokens.len())),
    }
}

// A kind of operands that is next.
#[tactic(auto, using(isle_reading::proofs::Steps::next))]
fn next_kind(tokens: &Tokens<'_>) -> Option<OperandKind>
    ensures { result ≡ next_word kind_of (left tokens.now) }
{
    kind_of(tokens.word()?)
}

// A kind of operands.
#[tactic(auto, using(isle_reading::proofs::Steps::words), unfolding(crate::specs::Reading::read_kind))]
fn kind(tokens: &mut Tokens<'_>) -> Result<OperandKind, Fail>
    ensures { Reads (λ read. read) result read_kind (left tokens.old) (left tokens.new) }
{
    match next_kind(tokens) {
        Some(kind) => {
            tokens.skip();
            Ok(kind)
        }
        None => Err(Fail::At(tokens.len())),
    }
}

// What is done with an operand, by the word that is next.
#[tactic(auto, using(isle_reading::proofs::Steps::next))]
fn next_mutability(tokens: &Tokens<'_>) -> Option<Mutability>
    ensures { result ≡ next_word mutability_of (left tokens.now) }
{
    mutability_of(tokens.word()?)
}

// What is done with an operand.
#[tactic(auto, using(isle_reading::proofs::Steps::words), unfolding(crate::specs::Reading::read_mutability))]
fn mutability(tokens: &mut Tokens<'_>) -> Result<Mutability, Fail>
    ensures { Reads (λ read. read) result read_mutability (left tokens.old) (left tokens.new) }
{
    match next_mutability(tokens) {
        Some(mutability) => {
            tokens.skip();
            Ok(mutability)
        }
        None => Err(Fail::At(tokens.len())),
    }
}

// What an operand is: its bits, its kind, and what is done with it.
#[tactic(auto, using(isle_reading::proofs::Steps::chain), unfolding(crate::specs::Reading::read_xop_form))]
fn xop_form(tokens: &mut Tokens<'_>) -> Result<(u16, OperandKind, Mutability), Fail>
    ensures { Reads (λ read. read) result read_xop_form (left tokens.old) (left tokens.new) }
{
    let bits = bits(tokens)?;
    let kind = kind(tokens)?;
    let mutability = mutability(tokens)?;
    Ok((bits, kind, mutability))
}

// The flags of an operand, and its closing parenthesis.
#[tactic(auto, using(isle_reading::proofs::Steps::chain), unfolding(crate::specs::Reading::read_xop_flags))]
fn xop_flags(tokens: &mut Tokens<'_>) -> Result<(bool, bool), Fail>
    ensures { Reads (λ read. read) result read_xop_flags (left tokens.old) (left tokens.new) }
{
    let signed = flag(tokens, "signed")?;
    let align = flag(tokens, "align")?;
    tokens.close()?;
    Ok((signed, align))
}

// An operand.
#[tactic(auto, using(isle_reading::proofs::Steps::chain), unfolding(crate::specs::Reading::read_xop))]
fn xop(tokens: &mut Tokens<'_>, alloc: Global) -> Result<Operand, Fail>
    ensures { Reads (λ read. read) result read_xop (left tokens.old) (left tokens.new) }
{
    tokens.open()?;
    let location = symbol(tokens, alloc)?;
    let form = xop_form(tokens)?;
    let flags = xop_flags(tokens)?;
    Ok(Operand {
        location,
        bits: form.0,
        kind: form.1,
        mutability: form.2,
        sign_extended: flags.0,
        align: flags.1,
    })
}

// Operands up to a closing parenthesis, which is taken.
#[tactic(auto, using(isle_reading::proofs::ListSteps::lists))]
fn xop_list(tokens: &mut Tokens<'_>, alloc: Global, most: usize) -> Result<Vec<Operand>, Fail>
    ensures { Reads (λ read. read.items) result (many most read_xop) (left tokens.old)
        (left tokens.new) }
{
    let mut xops = Vec::new(alloc);
    for _ in 0..most {
        match tokens.closes() {
            Some(_) => {
                tokens.skip();
                return Ok(xops);
            }
            None => xops.push(xop(tokens, alloc)?)?,
        }
    }
    Err(Fail::At(tokens.len()))
}

// The operands of an instruction.
#[tactic(auto, using(isle_reading::proofs::Steps::chain), unfolding(crate::specs::Reading::read_xops))]
fn xops(tokens: &mut Tokens<'_>, alloc: Global, most: usize) -> Result<Vec<Operand>, Fail>
    ensures { Reads (λ read. read.items) result (read_xops most) (left tokens.old)
        (left tokens.new) }
{
    tokens.open()?;
    xop_list(tokens, alloc, most)
}

// The flags of an instruction.
#[tactic(auto, using(isle_reading::proofs::Steps::chain), unfolding(crate::specs::Reading::read_x64_flags))]
fn x64_flags(tokens: &mut Tokens<'_>) -> Result<(bool, bool, bool), Fail>
    ensures { Reads (λ read. read) result read_x64_flags (left tokens.old) (left tokens.new) }
{
    let reads = flag(tokens, "reads")?;
    let writes = flag(tokens, "writes")?;
    let trap = flag(tokens, "trap")?;
    Ok((reads, writes, trap))
}

// An alternate.
#[tactic(auto, using(isle_reading::proofs::Steps::chain), unfolding(crate::specs::Reading::read_alternate))]
fn alternate(tokens: &mut Tokens<'_>, alloc: Global) -> Result<Alternate, Fail>
    ensures { Reads (λ read. read) result read_alternate (left tokens.old) (left tokens.new) }
{
    tokens.open()?;
    keyword(tokens, "alt")?;
    let name = symbol(tokens, alloc)?;
    let feature = symbol(tokens, alloc)?;
    tokens.close()?;
    Ok(Alternate { name, feature })
}

// An alternate, and the closing parenthesis after it.
#[tactic(auto, using(isle_reading::proofs::Steps::chain), unfolding(crate::specs::Reading::read_some_alt))]
fn some_alt(tokens: &mut Tokens<'_>, alloc: Global) -> Result<Option<Alternate>, Fail>
    ensures { Reads (λ read. read) result read_some_alt (left tokens.old) (left tokens.new) }
{
    let alternate = alternate(tokens, alloc)?;
    tokens.close()?;
    Ok(Some(alternate))
}

// An alternate, if it is there, and the closing parenthesis of the instruction.
#[tactic(auto, using(crate::proofs::Steps::endings))]
fn alt(tokens: &mut Tokens<'_>, alloc: Global) -> Result<Option<Alternate>, Fail>
    ensures { Reads (λ read. read) result read_alt (left tokens.old) (left tokens.new) }
{
    if tokens.len() == 0 {
        return Err(Fail::At(tokens.len()));
    }
    match tokens.closes() {
        Some(_) => {
            tokens.skip();
            Ok(None)
        }
        None => some_alt(tokens, alloc),
    }
}

// The names of an instruction, and its operands.
#[tactic(auto, using(isle_reading::proofs::Steps::chain), unfolding(crate::specs::Reading::read_x64_front))]
fn x64_front(
    tokens: &mut Tokens<'_>,
    alloc: Global,
    most: usize,
) -> Result<(Text, Text, List<Operand>), Fail>
    ensures { Reads (λ read. read) result (read_x64_front most) (left tokens.old)
        (left tokens.new) }
{
    let mnemonic = symbol(tokens, alloc)?;
    let name = symbol(tokens, alloc)?;
    let xops = xops(tokens, alloc, most)?;
    Ok((mnemonic, name, List::new(xops)))
}

/// Reads what stands after the first word of an instruction of the assembler.
#[tactic(auto, using(isle_reading::proofs::Steps::chain), unfolding(crate::specs::Reading::read_x64))]
pub fn x64(tokens: &mut Tokens<'_>, alloc: Global, most: usize) -> Result<Item, Fail>
    ensures { Reads (λ read. read) result (read_x64 most) (left tokens.old) (left tokens.new) }
{
    let (mnemonic, name, operands) = x64_front(tokens, alloc, most)?;
    let flags = x64_flags(tokens)?;
    let alternate = alt(tokens, alloc)?;
    Ok(Item::X64(Inst {
        mnemonic,
        name,
        operands,
        reads_flags: flags.0,
        writes_flags: flags.1,
        has_trap: flags.2,
        alternate,
    }))
}
