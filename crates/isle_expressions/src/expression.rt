ghost use Rattle.std.specs.Prelude.{◌≡◌, length, map, option_map};
ghost use Rattle.isle_lexer.specs.Word.{kind};
ghost use Rattle.isle_reading.specs.Combinators.{next_word, many};
ghost use Rattle.isle_reading.specs.Views.{left, Reads};
ghost use Rattle.isle_reading.specs.declared.cursor.Fail.TheVariants.{At};
ghost use Rattle.isle_ast.specs.Tree as tree;
ghost use Rattle.isle_ast.specs.Views.{expr};
ghost use Rattle.isle_grammar.specs.Grammar.{expr_of, expr_head};
ghost use Rattle.isle_grammar.specs.Reading.{constant_of, read_leaf, read_expr_head, read_expr};
ghost use Rattle.isle_grammar.specs.Reading.{read_form_list, read_let, read_bindings, read_binding};
ghost use Rattle.isle_expressions.specs.ReadingViews.{expr_head_seen, binding_seen};

use crate::words::constant_of;
use isle_ast::{AstExpr, AstLet};
use isle_core::{Boxed, List, Name};
use isle_lexer::{Kind, is_let, is_name, kind_of};
use isle_reading::{Expected, Fail, Tokens};
use std::alloc::Global;

/// What an expression's list is, by its first word.
#[derive(Drop)]
enum ExprHead<'t> {
    Let,
    Call(Name<'t>),
}

// The constant that a word is, which begins with `$`.
#[tactic(auto, using(isle_ast::proofs::Sees::expr_sees))]
fn constant_expr<'t>(word: &'t str) -> Option<AstExpr<'t>>
    ensures { option_map expr result
        ≡ option_map (λ name. tree.Constant name) (constant_of (kind word.now)) }
{
    match constant_of(word) {
        Some(name) => Some(AstExpr::Const(Name::new(name))),
        None => None,
    }
}

// The expression that a word is.
#[tactic(auto, using(isle_ast::proofs::Sees::expr_sees))]
fn expr_of<'t>(word: &'t str) -> Option<AstExpr<'t>>
    ensures { option_map expr result ≡ expr_of word.now (kind word.now) }
{
    match kind_of(word) {
        Kind::Number(value) => Some(AstExpr::Int(value)),
        Kind::Truth(truth) => Some(AstExpr::Bool(truth)),
        Kind::Dollar => constant_expr(word),
        Kind::Underscore | Kind::Plain => Some(AstExpr::Var(Name::new(word))),
        Kind::Malformed => None,
    }
}

// An expression of one word that is next.
#[tactic(auto, using(isle_reading::proofs::Steps::next))]
fn next_leaf<'t>(tokens: &Tokens<'t>) -> Option<AstExpr<'t>>
    ensures { option_map expr result ≡ next_word (λ w. expr_of w (kind w)) (left tokens.now) }
{
    expr_of(tokens.word()?)
}

// An expression of one word.
#[tactic(auto, using(isle_reading::proofs::Steps::words), unfolding(isle_grammar::specs::Reading::read_leaf))]
fn leaf<'t>(tokens: &mut Tokens<'t>) -> Result<AstExpr<'t>, Fail>
    ensures { Reads expr result read_leaf (left tokens.old) (left tokens.new) }
{
    match next_leaf(tokens) {
        Some(expr) => {
            tokens.skip();
            Ok(expr)
        }
        None => Err(tokens.miss(Expected::Expression)),
    }
}

// What an expression's list is that begins with the word.
fn expr_head_of<'t>(word: &'t str) -> Option<ExprHead<'t>>
    ensures { option_map expr_head_seen result ≡ expr_head word.now }
{
    if is_let(word) {
        return Some(ExprHead::Let);
    }
    if is_name(word) {
        return Some(ExprHead::Call(Name::new(word)));
    }
    None
}

// What an expression's list is, by the word that is next.
#[tactic(auto, using(isle_reading::proofs::Steps::next))]
fn next_expr_head<'t>(tokens: &Tokens<'t>) -> Option<ExprHead<'t>>
    ensures { option_map expr_head_seen result ≡ next_word expr_head (left tokens.now) }
{
    expr_head_of(tokens.word()?)
}

// What an expression's list is.
#[tactic(auto, using(isle_reading::proofs::Steps::words), unfolding(isle_grammar::specs::Reading::read_expr_head))]
fn read_head<'t>(tokens: &mut Tokens<'t>) -> Result<ExprHead<'t>, Fail>
    ensures { Reads expr_head_seen result read_expr_head (left tokens.old) (left tokens.new) }
{
    match next_expr_head(tokens) {
        Some(head) => {
            tokens.skip();
            Ok(head)
        }
        None => Err(tokens.miss(Expected::Name)),
    }
}

/// Reads an expression inside which `depth` more may be open, its lists of at most `most` tokens.
#[cycle(expressions)]
#[tactic(auto, using(crate::proofs::ExpressionSteps::expr_steps))]
pub fn expression<'t>(
    tokens: &mut Tokens<'t>,
    alloc: Global,
    most: usize,
    depth: usize,
) -> Result<AstExpr<'t>, Fail>
    ensures { Reads expr result (read_expr most depth) (left tokens.old) (left tokens.new) }
{
    match tokens.opens() {
        None => leaf(tokens),
        Some(_) => {
            if depth == 0 {
                return Err(tokens.miss(Expected::Shallower));
            }
            list(tokens, alloc, most, depth - 1)
        }
    }
}

// An expression's list, inside whose parenthesis `depth` more may be open.
#[cycle(expressions)]
#[tactic(auto, using(isle_reading::proofs::Steps::chain, isle_ast::proofs::Sees::expr_sees), unfolding(isle_grammar::specs::Reading::read_form_list))]
fn list<'t>(
    tokens: &mut Tokens<'t>,
    alloc: Global,
    most: usize,
    depth: usize,
) -> Result<AstExpr<'t>, Fail>
    ensures { Reads expr result (read_form_list most depth) (left tokens.old) (left tokens.new) }
{
    tokens.open()?;
    let head = read_head(tokens)?;
    match head {
        ExprHead::Let => let_in(tokens, alloc, most, depth),
        ExprHead::Call(name) => {
            let args = arguments(tokens, alloc, most, depth)?;
            Ok(AstExpr::Term(name, List::new(args)))
        }
    }
}

// Expressions up to a closing parenthesis, which is taken, of at most `most` tokens.
#[cycle(expressions)]
#[tactic(auto, using(crate::proofs::ExpressionSteps::lists))]
fn arguments<'t>(
    tokens: &mut Tokens<'t>,
    alloc: Global,
    most: usize,
    depth: usize,
) -> Result<Vec<AstExpr<'t>>, Fail>
    ensures { Reads (λ args. map expr args.items) result (many most (read_expr most depth))
        (left tokens.old) (left tokens.new) }
{
    let mut args = Vec::new(alloc);
    for _ in 0..most {
        match tokens.closes() {
            Some(_) => {
                tokens.skip();
                return Ok(args);
            }
            None => args.push(expression(tokens, alloc, most, depth)?)?,
        }
    }
    Err(tokens.miss(Expected::Expression))
}

// What stands after `( let`.
#[cycle(expressions)]
#[tactic(auto, using(isle_reading::proofs::Steps::chain, isle_ast::proofs::Sees::expr_sees), unfolding(isle_grammar::specs::Reading::read_let))]
fn let_in<'t>(
    tokens: &mut Tokens<'t>,
    alloc: Global,
    most: usize,
    depth: usize,
) -> Result<AstExpr<'t>, Fail>
    ensures { Reads expr result (read_let most depth) (left tokens.old) (left tokens.new) }
{
    let lets = bindings(tokens, alloc, most, depth)?;
    let value = expression(tokens, alloc, most, depth)?;
    tokens.close()?;
    Ok(AstExpr::Let(List::new(lets), Boxed::new(alloc, value)?))
}

// The failure if a parenthesis is wanted, and none more may be open.
fn too_deep(tokens: &mut Tokens<'_>) -> Fail
    ensures { result ≡ At (length (left tokens.old)) }
{
    match tokens.opens() {
        Some(_) => tokens.miss(Expected::Shallower),
        None => tokens.miss(Expected::Open),
    }
}

// The variables of a `let`, with the parentheses round them.
#[cycle(expressions)]
#[tactic(auto, using(crate::proofs::ExpressionSteps::binding_steps))]
fn bindings<'t>(
    tokens: &mut Tokens<'t>,
    alloc: Global,
    most: usize,
    depth: usize,
) -> Result<Vec<AstLet<'t>>, Fail>
    ensures { Reads (λ lets. map binding_seen lets.items) result (read_bindings most depth)
        (left tokens.old) (left tokens.new) }
{
    if depth == 0 {
        return Err(too_deep(tokens));
    }
    tokens.open()?;
    binding_list(tokens, alloc, most, depth - 1)
}

// The variables of a `let` up to the closing parenthesis, which is taken, of at most `most` tokens.
#[cycle(expressions)]
#[tactic(auto, using(crate::proofs::ExpressionSteps::binding_lists))]
fn binding_list<'t>(
    tokens: &mut Tokens<'t>,
    alloc: Global,
    most: usize,
    depth: usize,
) -> Result<Vec<AstLet<'t>>, Fail>
    ensures { Reads (λ lets. map binding_seen lets.items) result
        (many most (read_binding most depth)) (left tokens.old) (left tokens.new) }
{
    let mut lets = Vec::new(alloc);
    for _ in 0..most {
        match tokens.closes() {
            Some(_) => {
                tokens.skip();
                return Ok(lets);
            }
            None => lets.push(binding(tokens, alloc, most, depth)?)?,
        }
    }
    Err(tokens.miss(Expected::Open))
}

// A variable of a `let`, with its type and its value.
#[cycle(expressions)]
#[tactic(auto, using(crate::proofs::ExpressionSteps::binding_steps))]
fn binding<'t>(
    tokens: &mut Tokens<'t>,
    alloc: Global,
    most: usize,
    depth: usize,
) -> Result<AstLet<'t>, Fail>
    ensures { Reads binding_seen result (read_binding most depth) (left tokens.old)
        (left tokens.new) }
{
    if depth == 0 {
        return Err(too_deep(tokens));
    }
    tokens.open()?;
    let var = tokens.name_as(Expected::Name)?;
    let ty = tokens.name_as(Expected::Type)?;
    let val = expression(tokens, alloc, most, depth - 1)?;
    tokens.close()?;
    Ok(AstLet { var, ty, val })
}
