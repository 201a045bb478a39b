//! Operations of the interpreter as they are written.

ghost use Rattle.std.specs.Prelude.{◌≡◌, ◌++◌, false, codes, OnOk, string_bytes};
ghost use Rattle.isle_reading.specs.Combinators.{next_word, many, words_from};
ghost use Rattle.isle_reading.specs.Views.{left, Reads};
ghost use Rattle.isle_tables.specs.Reading.{more_operands, read_first, read_binary, shape_of};
ghost use Rattle.isle_tables.specs.Reading.{read_shape_head, read_shape_after, read_shape};
ghost use Rattle.isle_tables.specs.Reading.{read_field_type};
ghost use Rattle.isle_tables.specs.Reading.{read_field, read_op};

use crate::pieces::{next_symbol, symbol, symbol_word};
use isle_core::{List, Text};
use isle_meta::PulleyInst;
use isle_reading::{Fail, Tokens};
use std::alloc::{AllocError, Global};

// Appends an operand.
fn push_operand(text: &mut String, word: &str) -> Result<(), AllocError>
    ensures { OnOk result
        (string_bytes text.new ≡ string_bytes text.old ++ codes ", " ++ word.now) }
{
    text.push_str(", ")?;
    text.push_str(word)
}

// One or two operands more, after the text of those before.
#[tactic(auto, using(isle_reading::proofs::Steps::states))]
fn push_operands(tokens: &mut Tokens<'_>, text: &mut String) -> Result<(), Fail>
    ensures { Reads (λ _. string_bytes text.new) result
        (words_from 2 more_operands (string_bytes text.old)) (left tokens.old) (left tokens.new) }
{
    for _ in 0..2usize {
        if tokens.len() == 0 {
            return Err(Fail::At(tokens.len()));
        }
        match next_symbol(tokens) {
            Some(word) => {
                push_operand(text, word)?;
                tokens.skip();
            }
            None => return Ok(()),
        }
    }
    Ok(())
}

// The first operand, as the text begins.
#[tactic(auto, using(isle_reading::proofs::Steps::chain), unfolding(crate::specs::Reading::read_first))]
fn first_operand(tokens: &mut Tokens<'_>, alloc: Global) -> Result<String, Fail>
    ensures { Reads (λ text. string_bytes text) result read_first (left tokens.old)
        (left tokens.new) }
{
    let word = symbol_word(tokens)?;
    let mut text = String::from_str(alloc, "BinaryOperands < ")?;
    text.push_str(word)?;
    Ok(text)
}

// The operands of a binary operation, as a text, and the closing parenthesis after them.
#[tactic(auto, using(isle_reading::proofs::Steps::chain), unfolding(crate::specs::Reading::read_binary))]
fn binary(tokens: &mut Tokens<'_>, alloc: Global) -> Result<Text, Fail>
    ensures { Reads (λ read. read) result read_binary (left tokens.old) (left tokens.new) }
{
    let mut text = first_operand(tokens, alloc)?;
    push_operands(tokens, &mut text)?;
    tokens.close()?;
    text.push_str(" >")?;
    Ok(Text::new(text))
}

// Whether the type in parentheses that is next is a binary one.
#[tactic(auto, using(isle_reading::proofs::Steps::next))]
fn next_shape(tokens: &Tokens<'_>) -> Option<bool>
    ensures { result ≡ next_word shape_of (left tokens.now) }
{
    match tokens.word()? {
        "binary" => Some(true),
        "upper" => Some(false),
        _ => None,
    }
}

// Whether a type in parentheses is a binary one, by its first word.
#[tactic(auto, using(isle_reading::proofs::Steps::words), unfolding(crate::specs::Reading::read_shape_head))]
fn shape_head(tokens: &mut Tokens<'_>) -> Result<bool, Fail>
    ensures { Reads (λ read. read) result read_shape_head (left tokens.old) (left tokens.new) }
{
    match next_shape(tokens) {
        Some(shape) => {
            tokens.skip();
            Ok(shape)
        }
        None => Err(Fail::At(tokens.len())),
    }
}

// The text of the upper registers, and the closing parenthesis after their word.
#[tactic(auto, using(isle_reading::proofs::Steps::chain), unfolding(crate::specs::Reading::read_shape_after))]
fn upper(tokens: &mut Tokens<'_>, alloc: Global) -> Result<Text, Fail>
    ensures { Reads (λ read. read) result (read_shape_after false) (left tokens.old)
        (left tokens.new) }
{
    tokens.close()?;
    Ok(Text::copied(alloc, "UpperRegSet < XReg >")?)
}

// A type in parentheses.
#[tactic(auto, using(isle_reading::proofs::Steps::chain), unfolding(crate::specs::Reading::read_shape))]
fn shape(tokens: &mut Tokens<'_>, alloc: Global) -> Result<Text, Fail>
    ensures { Reads (λ read. read) result read_shape (left tokens.old) (left tokens.new) }
{
    tokens.open()?;
    let is_binary = shape_head(tokens)?;
    if is_binary {
        binary(tokens, alloc)
    } else {
        upper(tokens, alloc)
    }
}

// A field's type.
#[tactic(auto, using(crate::proofs::Steps::types))]
fn field_type(tokens: &mut Tokens<'_>, alloc: Global) -> Result<Text, Fail>
    ensures { Reads (λ read. read) result read_field_type (left tokens.old) (left tokens.new) }
{
    match tokens.opens() {
        Some(_) => shape(tokens, alloc),
        None => symbol(tokens, alloc),
    }
}

// A field.
#[tactic(auto, using(isle_reading::proofs::Steps::chain), unfolding(crate::specs::Reading::read_field))]
fn field(tokens: &mut Tokens<'_>, alloc: Global) -> Result<(Text, Text), Fail>
    ensures { Reads (λ read. read) result read_field (left tokens.old) (left tokens.new) }
{
    tokens.open()?;
    let name = symbol(tokens, alloc)?;
    let rust_type = field_type(tokens, alloc)?;
    tokens.close()?;
    Ok((name, rust_type))
}

// Fields up to a closing parenthesis, which is taken.
#[tactic(auto, using(isle_reading::proofs::ListSteps::lists))]
fn fields(tokens: &mut Tokens<'_>, alloc: Global, most: usize) -> Result<Vec<(Text, Text)>, Fail>
    ensures { Reads (λ read. read.items) result (many most read_field) (left tokens.old)
        (left tokens.new) }
{
    let mut fields = Vec::new(alloc);
    for _ in 0..most {
        match tokens.closes() {
            Some(_) => {
                tokens.skip();
                return Ok(fields);
            }
            None => fields.push(field(tokens, alloc)?)?,
        }
    }
    Err(Fail::At(tokens.len()))
}

/// Reads what stands after the first word of an operation.
#[tactic(auto, using(isle_reading::proofs::Steps::chain), unfolding(crate::specs::Reading::read_op))]
pub fn op(tokens: &mut Tokens<'_>, alloc: Global, most: usize) -> Result<PulleyInst, Fail>
    ensures { Reads (λ read. read) result (read_op most) (left tokens.old) (left tokens.new) }
{
    let snake_name = symbol(tokens, alloc)?;
    let name = symbol(tokens, alloc)?;
    let fields = fields(tokens, alloc, most)?;
    Ok(PulleyInst {
        snake_name,
        name,
        fields: List::new(fields),
    })
}
