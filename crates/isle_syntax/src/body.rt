ghost use Rattle.std.specs.Prelude.{◌≡◌, map, option_map};
ghost use Rattle.isle_reading.specs.Combinators.{next_word, many};
ghost use Rattle.isle_reading.specs.Names.{read_name};
ghost use Rattle.isle_reading.specs.Views.{left, Reads};
ghost use Rattle.isle_grammar.specs.Grammar.{body_head};
ghost use Rattle.isle_grammar.specs.Reading.{read_field, read_shape, read_shaped, read_variant};
ghost use Rattle.isle_grammar.specs.Reading.{read_body_head, body_behind, read_body};
ghost use Rattle.isle_syntax.specs.ReadingViews.{body_head_seen};

use isle_ast::{AstBody, AstFields, AstVariant};
use isle_core::{List, Name};
use isle_reading::{Expected, Fail, Tokens};
use std::alloc::Global;

/// What a body is, by its first word.
#[derive(Clone, Copy)]
enum BodyHead {
    Primitive,
    Enum,
    Struct,
}

// What a body is that begins with the word.
fn body_head_of(word: &str) -> Option<BodyHead>
    ensures { option_map body_head_seen result ≡ body_head word.now }
{
    match word {
        "primitive" => Some(BodyHead::Primitive),
        "enum" => Some(BodyHead::Enum),
        "struct" => Some(BodyHead::Struct),
        _ => None,
    }
}

// What a body is, by the word that is next.
#[tactic(auto, using(isle_reading::proofs::Steps::next))]
fn next_body_head(tokens: &Tokens<'_>) -> Option<BodyHead>
    ensures { option_map body_head_seen result ≡ next_word body_head (left tokens.now) }
{
    body_head_of(tokens.word()?)
}

// What a body is.
#[tactic(auto, using(isle_reading::proofs::Steps::words), unfolding(isle_grammar::specs::Reading::read_body_head))]
fn read_head(tokens: &mut Tokens<'_>) -> Result<BodyHead, Fail>
    ensures { Reads body_head_seen result read_body_head (left tokens.old) (left tokens.new) }
{
    match next_body_head(tokens) {
        Some(head) => {
            tokens.skip();
            Ok(head)
        }
        None => Err(tokens.miss(Expected::Body)),
    }
}

// A field with its type.
#[tactic(auto, using(isle_reading::proofs::Steps::chain), unfolding(isle_grammar::specs::Reading::read_field))]
fn field<'t>(tokens: &mut Tokens<'t>) -> Result<(Name<'t>, Name<'t>), Fail>
    ensures { Reads (λ field. field) result read_field (left tokens.old) (left tokens.new) }
{
    tokens.open()?;
    let name = tokens.name_as(Expected::Name)?;
    let ty = tokens.name_as(Expected::Type)?;
    tokens.close()?;
    Ok((name, ty))
}

// Fields up to a closing parenthesis, which is taken, of at most `most` tokens.
#[tactic(auto, using(isle_reading::proofs::ListSteps::lists))]
fn fields<'t>(
    tokens: &mut Tokens<'t>,
    alloc: Global,
    most: usize,
) -> Result<Vec<(Name<'t>, Name<'t>)>, Fail>
    ensures { Reads (λ fields. fields.items) result (many most read_field) (left tokens.old)
        (left tokens.new) }
{
    let mut fields = Vec::new(alloc);
    for _ in 0..most {
        match tokens.closes() {
            Some(_) => {
                tokens.skip();
                return Ok(fields);
            }
            None => fields.push(field(tokens)?)?,
        }
    }
    Err(tokens.miss(Expected::Field))
}

/// Reads names up to a closing parenthesis, which is taken, of at most `most` tokens.
#[tactic(auto, using(isle_reading::proofs::ListSteps::lists))]
pub fn names<'t>(
    tokens: &mut Tokens<'t>,
    alloc: Global,
    most: usize,
    expected: Expected,
) -> Result<Vec<Name<'t>>, Fail>
    ensures { Reads (λ names. names.items) result (many most read_name) (left tokens.old)
        (left tokens.new) }
{
    let mut names = Vec::new(alloc);
    for _ in 0..most {
        match tokens.closes() {
            Some(_) => {
                tokens.skip();
                return Ok(names);
            }
            None => names.push(tokens.name_as(expected)?)?,
        }
    }
    Err(tokens.miss(expected))
}

// The fields of a struct or a variant, up to the closing parenthesis, which is taken.
#[tactic(auto, using(crate::proofs::TypeSteps::shapes))]
fn shape<'t>(tokens: &mut Tokens<'t>, alloc: Global, most: usize) -> Result<AstFields<'t>, Fail>
    ensures { Reads (λ shape. shape) result (read_shape most) (left tokens.old) (left tokens.new) }
{
    if most == 0 {
        return Err(tokens.miss(Expected::Field));
    }
    if tokens.len() == 0 {
        return Err(tokens.miss(Expected::Field));
    }
    match tokens.closes() {
        Some(_) => {
            tokens.skip();
            Ok(AstFields::Unit)
        }
        None => match tokens.opens() {
            Some(_) => Ok(AstFields::Named(List::new(fields(tokens, alloc, most)?))),
            None => {
                let types = names(tokens, alloc, most, Expected::Type)?;
                Ok(AstFields::Tuple(List::new(types)))
            }
        },
    }
}

// A variant with fields.
#[tactic(auto, using(isle_reading::proofs::Steps::chain), unfolding(isle_grammar::specs::Reading::read_shaped))]
fn shaped<'t>(tokens: &mut Tokens<'t>, alloc: Global, most: usize) -> Result<AstVariant<'t>, Fail>
    ensures { Reads (λ variant. variant) result (read_shaped most) (left tokens.old)
        (left tokens.new) }
{
    tokens.open()?;
    let name = tokens.name_as(Expected::Name)?;
    let fields = shape(tokens, alloc, most)?;
    Ok(AstVariant { name, fields })
}

// A variant.
#[tactic(auto, using(crate::proofs::TypeSteps::variant_steps))]
fn variant<'t>(tokens: &mut Tokens<'t>, alloc: Global, most: usize) -> Result<AstVariant<'t>, Fail>
    ensures { Reads (λ variant. variant) result (read_variant most) (left tokens.old)
        (left tokens.new) }
{
    match tokens.opens() {
        Some(_) => shaped(tokens, alloc, most),
        None => {
            let name = tokens.name_as(Expected::Variant)?;
            Ok(AstVariant {
                name,
                fields: AstFields::Unit,
            })
        }
    }
}

// Variants up to a closing parenthesis, which is taken, of at most `most` tokens.
#[tactic(auto, using(isle_reading::proofs::ListSteps::lists))]
fn variants<'t>(
    tokens: &mut Tokens<'t>,
    alloc: Global,
    most: usize,
) -> Result<Vec<AstVariant<'t>>, Fail>
    ensures { Reads (λ variants. variants.items) result (many most (read_variant most))
        (left tokens.old) (left tokens.new) }
{
    let mut variants = Vec::new(alloc);
    for _ in 0..most {
        match tokens.closes() {
            Some(_) => {
                tokens.skip();
                return Ok(variants);
            }
            None => variants.push(variant(tokens, alloc, most)?)?,
        }
    }
    Err(tokens.miss(Expected::Variant))
}

// What stands after the first word of a body.
#[tactic(auto, using(isle_reading::proofs::Steps::chain))]
fn body_behind<'t>(
    tokens: &mut Tokens<'t>,
    alloc: Global,
    most: usize,
    head: BodyHead,
) -> Result<AstBody<'t>, Fail>
    ensures { Reads (λ body. body) result (body_behind most (body_head_seen head)) (left tokens.old)
        (left tokens.new) }
{
    match head {
        BodyHead::Primitive => {
            let name = tokens.name_as(Expected::Type)?;
            tokens.close()?;
            Ok(AstBody::Primitive(name))
        }
        BodyHead::Enum => Ok(AstBody::Enum(List::new(variants(tokens, alloc, most)?))),
        BodyHead::Struct => Ok(AstBody::Struct(shape(tokens, alloc, most)?)),
    }
}

/// Reads what a type is declared as, its lists of at most `most` tokens.
#[tactic(auto, using(isle_reading::proofs::Steps::chain), unfolding(isle_grammar::specs::Reading::read_body))]
pub fn body<'t>(tokens: &mut Tokens<'t>, alloc: Global, most: usize) -> Result<AstBody<'t>, Fail>
    ensures { Reads (λ body. body) result (read_body most) (left tokens.old) (left tokens.new) }
{
    tokens.open()?;
    let head = read_head(tokens)?;
    body_behind(tokens, alloc, most, head)
}
