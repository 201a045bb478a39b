ghost use Rattle.std.specs.Prelude.{◌≡◌, ◌-◌, map, option_map};
ghost use Rattle.isle_lexer.specs.Word.{kind};
ghost use Rattle.isle_reading.specs.Combinators.{next_word, many};
ghost use Rattle.isle_reading.specs.Nesting.{most_open};
ghost use Rattle.isle_reading.specs.Views.{left, Reads};
ghost use Rattle.isle_ast.specs.Views.{pattern, patterns_of};
ghost use Rattle.isle_grammar.specs.Grammar.{pattern_head, listed};
ghost use Rattle.isle_grammar.specs.Reading.{constant_of, constant_first, first_of, read_first, symbol_of};
ghost use Rattle.isle_grammar.specs.Reading.{read_pattern_head, read_pattern, read_symbol, read_worded};
ghost use Rattle.isle_grammar.specs.Reading.{read_listed, read_template, read_argument};
ghost use Rattle.isle_expressions.specs.ReadingViews.{first_seen, pattern_head_seen};

use crate::words::constant_of;
use isle_ast::AstPattern;
use isle_core::{Boxed, List, Name};
use isle_lexer::{Kind, is_name, kind_of};
use isle_reading::{Expected, Fail, Tokens, most_inside};
use std::alloc::Global;

/// What a pattern's first word is.
#[derive(Drop)]
enum First<'t> {
    /// A pattern after which no `@` may stand.
    Leaf(AstPattern<'t>),
    Symbol(Name<'t>),
}

/// What a pattern's list is, by its first word.
#[derive(Drop)]
enum PatternHead<'t> {
    And,
    Term(Name<'t>),
}

// The constant that a word is, which begins with `$`.
#[tactic(auto, using(isle_ast::proofs::Sees::pattern_sees))]
fn constant_pattern<'t>(word: &'t str) -> Option<First<'t>>
    ensures { option_map first_seen result ≡ constant_first (constant_of (kind word.now)) }
{
    match constant_of(word) {
        Some(name) => Some(First::Leaf(AstPattern::Const(Name::new(name)))),
        None => None,
    }
}

// What a word is that begins a pattern.
#[tactic(auto, using(isle_ast::proofs::Sees::pattern_sees))]
fn first_of<'t>(word: &'t str) -> Option<First<'t>>
    ensures { option_map first_seen result ≡ first_of word.now (kind word.now) }
{
    match kind_of(word) {
        Kind::Number(value) => Some(First::Leaf(AstPattern::Int(value))),
        Kind::Dollar => constant_pattern(word),
        Kind::Truth(_) | Kind::Underscore | Kind::Plain => Some(First::Symbol(Name::new(word))),
        Kind::Malformed => None,
    }
}

// What begins a pattern and is next.
#[tactic(auto, using(isle_reading::proofs::Steps::next))]
fn next_first<'t>(tokens: &Tokens<'t>) -> Option<First<'t>>
    ensures { option_map first_seen result
        ≡ next_word (λ w. first_of w (kind w)) (left tokens.now) }
{
    first_of(tokens.word()?)
}

// A pattern's first word.
#[tactic(auto, using(isle_reading::proofs::Steps::words), unfolding(isle_grammar::specs::Reading::read_first))]
fn first_word<'t>(tokens: &mut Tokens<'t>) -> Result<First<'t>, Fail>
    ensures { Reads first_seen result read_first (left tokens.old) (left tokens.new) }
{
    match next_first(tokens) {
        Some(first) => {
            tokens.skip();
            Ok(first)
        }
        None => Err(tokens.miss(Expected::Pattern)),
    }
}

// The pattern that a symbol is by itself.
#[tactic(auto, using(isle_ast::proofs::Sees::pattern_sees))]
fn symbol_of<'t>(name: Name<'t>) -> AstPattern<'t>
    ensures { pattern result ≡ symbol_of name.entry (kind name.entry) }
{
    match kind_of(name.as_str()) {
        Kind::Truth(truth) => AstPattern::Bool(truth),
        Kind::Underscore => AstPattern::Wildcard,
        _ => AstPattern::Var(name),
    }
}

// What a pattern's list is that begins with the word.
fn pattern_head_of<'t>(word: &'t str) -> Option<PatternHead<'t>>
    ensures { option_map pattern_head_seen result ≡ pattern_head word.now }
{
    if word == "and" {
        return Some(PatternHead::And);
    }
    if is_name(word) {
        return Some(PatternHead::Term(Name::new(word)));
    }
    None
}

// What a pattern's list is, by the word that is next.
#[tactic(auto, using(isle_reading::proofs::Steps::next))]
fn next_pattern_head<'t>(tokens: &Tokens<'t>) -> Option<PatternHead<'t>>
    ensures { option_map pattern_head_seen result ≡ next_word pattern_head (left tokens.now) }
{
    pattern_head_of(tokens.word()?)
}

// What a pattern's list is.
#[tactic(auto, using(isle_reading::proofs::Steps::words), unfolding(isle_grammar::specs::Reading::read_pattern_head))]
fn read_head<'t>(tokens: &mut Tokens<'t>) -> Result<PatternHead<'t>, Fail>
    ensures { Reads pattern_head_seen result read_pattern_head (left tokens.old) (left tokens.new) }
{
    match next_pattern_head(tokens) {
        Some(head) => {
            tokens.skip();
            Ok(head)
        }
        None => Err(tokens.miss(Expected::Name)),
    }
}

// The pattern of a list.
#[tactic(auto, using(isle_ast::proofs::Sees::pattern_sees))]
fn listed<'t>(head: PatternHead<'t>, args: Vec<AstPattern<'t>>) -> AstPattern<'t>
    ensures { pattern result
        ≡ listed (pattern_head_seen head.entry) (patterns_of (map pattern args.entry.items)) }
{
    match head {
        PatternHead::And => AstPattern::And(List::new(args)),
        PatternHead::Term(name) => AstPattern::Term(name, List::new(args)),
    }
}

/// Reads a pattern inside which `depth` more may be open, its lists of at most `most` tokens.
#[cycle(patterns)]
#[tactic(auto, using(crate::proofs::PatternSteps::pattern_steps))]
pub fn pattern<'t>(
    tokens: &mut Tokens<'t>,
    alloc: Global,
    most: usize,
    depth: usize,
) -> Result<AstPattern<'t>, Fail>
    ensures { Reads pattern result (read_pattern most depth) (left tokens.old) (left tokens.new) }
{
    match tokens.opens() {
        None => worded(tokens, alloc, most, depth),
        Some(_) => {
            if depth == 0 {
                return Err(tokens.miss(Expected::Shallower));
            }
            list(tokens, alloc, most, depth - 1)
        }
    }
}

// A pattern that begins with a word.
#[cycle(patterns)]
#[tactic(auto, using(isle_reading::proofs::Steps::chain), unfolding(isle_grammar::specs::Reading::read_worded))]
fn worded<'t>(
    tokens: &mut Tokens<'t>,
    alloc: Global,
    most: usize,
    depth: usize,
) -> Result<AstPattern<'t>, Fail>
    ensures { Reads pattern result (read_worded most depth) (left tokens.old) (left tokens.new) }
{
    let first = first_word(tokens)?;
    match first {
        First::Leaf(leaf) => Ok(leaf),
        First::Symbol(name) => symbol(tokens, alloc, most, depth, name),
    }
}

// A pattern after the symbol that it begins with.
#[cycle(patterns)]
#[tactic(auto, using(crate::proofs::PatternSteps::symbol_steps, isle_ast::proofs::Sees::pattern_sees))]
fn symbol<'t>(
    tokens: &mut Tokens<'t>,
    alloc: Global,
    most: usize,
    depth: usize,
    name: Name<'t>,
) -> Result<AstPattern<'t>, Fail>
    ensures { Reads pattern result (read_symbol most depth name.entry) (left tokens.old)
        (left tokens.new) }
{
    if tokens.len() == 0 {
        return Err(tokens.miss(Expected::Close));
    }
    match tokens.signs() {
        None => Ok(symbol_of(name)),
        Some(_) => {
            if depth == 0 {
                return Err(tokens.miss(Expected::Shallower));
            }
            tokens.skip();
            let inner = pattern(tokens, alloc, most, depth - 1)?;
            Ok(AstPattern::Bind(name, Boxed::new(alloc, inner)?))
        }
    }
}

// A pattern's list, inside whose parenthesis `depth` more may be open.
#[cycle(patterns)]
#[tactic(auto, using(isle_reading::proofs::Steps::chain), unfolding(isle_grammar::specs::Reading::read_listed))]
fn list<'t>(
    tokens: &mut Tokens<'t>,
    alloc: Global,
    most: usize,
    depth: usize,
) -> Result<AstPattern<'t>, Fail>
    ensures { Reads pattern result (read_listed most (read_pattern most depth)) (left tokens.old)
        (left tokens.new) }
{
    tokens.open()?;
    let head = read_head(tokens)?;
    let args = patterns(tokens, alloc, most, depth)?;
    Ok(listed(head, args))
}

// Patterns up to a closing parenthesis, which is taken, of at most `most` tokens.
#[cycle(patterns)]
#[tactic(auto, using(crate::proofs::PatternSteps::lists))]
fn patterns<'t>(
    tokens: &mut Tokens<'t>,
    alloc: Global,
    most: usize,
    depth: usize,
) -> Result<Vec<AstPattern<'t>>, Fail>
    ensures { Reads (λ args. map pattern args.items) result (many most (read_pattern most depth))
        (left tokens.old) (left tokens.new) }
{
    let mut args = Vec::new(alloc);
    for _ in 0..most {
        match tokens.closes() {
            Some(_) => {
                tokens.skip();
                return Ok(args);
            }
            None => args.push(pattern(tokens, alloc, most, depth)?)?,
        }
    }
    Err(tokens.miss(Expected::Pattern))
}

/// Returns how many may be open inside a list of a definition.
#[tactic(auto, unfolding(isle_reading::specs::Nesting::most_open))]
pub fn inside_list() -> usize
    ensures { result ≡ most_open - 2 }
{
    most_inside() - 1
}

/// Reads a pattern inside a definition's parenthesis, its lists of at most `most` tokens.
#[tactic(auto, unfolding(isle_grammar::specs::Reading::read_template))]
pub fn template<'t>(
    tokens: &mut Tokens<'t>,
    alloc: Global,
    most: usize,
) -> Result<AstPattern<'t>, Fail>
    ensures { Reads pattern result (read_template most) (left tokens.old) (left tokens.new) }
{
    pattern(tokens, alloc, most, most_inside())
}

/// Reads the patterns of a rule's head up to the closing parenthesis, which is taken, of at most `most` tokens.
#[tactic(auto, unfolding(isle_grammar::specs::Reading::read_argument))]
pub fn arguments<'t>(
    tokens: &mut Tokens<'t>,
    alloc: Global,
    most: usize,
) -> Result<Vec<AstPattern<'t>>, Fail>
    ensures { Reads (λ args. map pattern args.items) result (many most (read_argument most))
        (left tokens.old) (left tokens.new) }
{
    patterns(tokens, alloc, most, inside_list())
}
