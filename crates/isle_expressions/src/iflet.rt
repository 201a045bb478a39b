ghost use Rattle.std.specs.Prelude.{◌≡◌, ◌-◌, ◌≤◌, length, map, option_map};
ghost use Rattle.isle_reading.specs.Combinators.{next_word};
ghost use Rattle.isle_reading.specs.Nesting.{most_open};
ghost use Rattle.isle_reading.specs.Views.{left, Reads};
ghost use Rattle.isle_ast.specs.Views.{iflet, expr};
ghost use Rattle.isle_grammar.specs.Grammar.{if_head};
ghost use Rattle.isle_grammar.specs.Reading.{read_if_head, if_behind, read_expr, read_iflet, read_form};
ghost use Rattle.isle_grammar.specs.Reading.{settled, read_step, read_tail};
ghost use Rattle.isle_expressions.specs.ReadingViews.{if_head_seen, form_seen, step_seen};

use crate::expression::expression;
use crate::pattern::{inside_list, pattern};
use isle_ast::{AstExpr, AstIfLet, AstPattern};
use isle_reading::{Expected, Fail, Tokens, most_inside};
use std::alloc::Global;

/// What a condition is, by its first word.
#[derive(Clone, Copy)]
enum IfHead {
    IfLet,
    If,
}

/// What a form after a rule's head may be.
#[derive(Drop)]
enum Form<'t> {
    Right(AstExpr<'t>),
    Condition(AstIfLet<'t>),
    Either(AstExpr<'t>, AstIfLet<'t>),
}

/// What a form after a rule's head is, by what follows it.
#[derive(Drop)]
enum Step<'t> {
    Last(AstExpr<'t>),
    More(AstIfLet<'t>),
}

// What a condition is that begins with the word.
fn if_head_of(word: &str) -> Option<IfHead>
    ensures { option_map if_head_seen result ≡ if_head word.now }
{
    match word {
        "if-let" => Some(IfHead::IfLet),
        "if" => Some(IfHead::If),
        _ => None,
    }
}

// What a condition is, by the word that is next.
#[tactic(auto, using(isle_reading::proofs::Steps::next))]
fn next_if_head(tokens: &Tokens<'_>) -> Option<IfHead>
    ensures { option_map if_head_seen result ≡ next_word if_head (left tokens.now) }
{
    if_head_of(tokens.word()?)
}

// What a condition is.
#[tactic(auto, using(isle_reading::proofs::Steps::words), unfolding(isle_grammar::specs::Reading::read_if_head))]
fn read_head(tokens: &mut Tokens<'_>) -> Result<IfHead, Fail>
    ensures { Reads if_head_seen result read_if_head (left tokens.old) (left tokens.new) }
{
    match next_if_head(tokens) {
        Some(head) => {
            tokens.skip();
            Ok(head)
        }
        None => Err(tokens.miss(Expected::Name)),
    }
}

// What stands after the first word of a condition.
#[tactic(auto, using(isle_reading::proofs::Steps::chain, isle_ast::proofs::Sees::pattern_sees))]
fn if_behind<'t>(
    tokens: &mut Tokens<'t>,
    alloc: Global,
    most: usize,
    depth: usize,
    head: IfHead,
) -> Result<AstIfLet<'t>, Fail>
    ensures { Reads iflet result (if_behind most depth (if_head_seen head)) (left tokens.old)
        (left tokens.new) }
{
    match head {
        IfHead::IfLet => {
            let lhs = pattern(tokens, alloc, most, depth)?;
            let rhs = expression(tokens, alloc, most, depth)?;
            tokens.close()?;
            Ok(AstIfLet { lhs, rhs })
        }
        IfHead::If => {
            let rhs = expression(tokens, alloc, most, depth)?;
            tokens.close()?;
            Ok(AstIfLet {
                lhs: AstPattern::Wildcard,
                rhs,
            })
        }
    }
}

// A condition, inside whose parenthesis `depth` more may be open.
#[tactic(auto, using(isle_reading::proofs::Steps::chain), unfolding(isle_grammar::specs::Reading::read_iflet))]
fn condition<'t>(
    tokens: &mut Tokens<'t>,
    alloc: Global,
    most: usize,
    depth: usize,
) -> Result<AstIfLet<'t>, Fail>
    ensures { Reads iflet result (read_iflet most depth) (left tokens.old) (left tokens.new) }
{
    tokens.open()?;
    let head = read_head(tokens)?;
    if_behind(tokens, alloc, most, depth, head)
}

// A rule's right side.
fn right_side<'t>(tokens: &mut Tokens<'t>, alloc: Global, most: usize) -> Result<AstExpr<'t>, Fail>
    ensures { Reads expr result (read_expr most (most_open - 1)) (left tokens.old)
        (left tokens.new) }
{
    expression(tokens, alloc, most, most_inside())
}

// A condition of a rule.
fn rule_condition<'t>(
    tokens: &mut Tokens<'t>,
    alloc: Global,
    most: usize,
) -> Result<AstIfLet<'t>, Fail>
    ensures { Reads iflet result (read_iflet most (most_open - 2)) (left tokens.old)
        (left tokens.new) }
{
    condition(tokens, alloc, most, inside_list())
}

// A form that is a rule's right side, a condition, or may be either: both are read over the same tokens.
#[tactic(auto, using(crate::proofs::FormSteps::forms))]
fn rule_form<'t>(tokens: &mut Tokens<'t>, alloc: Global, most: usize) -> Result<Form<'t>, Fail>
    requires { length (left tokens.old) ≤ most }
    ensures { Reads form_seen result (read_form most) (left tokens.old) (left tokens.new) }
{
    let mut other = *tokens;
    let right = right_side(tokens, alloc, most);
    let condition = rule_condition(&mut other, alloc, most);
    match right {
        Ok(right) => match condition {
            Ok(condition) => Ok(Form::Either(right, condition)),
            Err(Fail::At(_)) => Ok(Form::Right(right)),
            Err(Fail::Memory) => Err(Fail::Memory),
        },
        Err(Fail::At(place)) => match condition {
            Ok(condition) => {
                *tokens = other;
                Ok(Form::Condition(condition))
            }
            Err(Fail::At(further)) if further < place => {
                *tokens = other;
                Err(Fail::At(further))
            }
            Err(Fail::At(_)) => Err(Fail::At(place)),
            Err(Fail::Memory) => Err(Fail::Memory),
        },
        Err(Fail::Memory) => Err(Fail::Memory),
    }
}

// What a form is: a rule's right side, whose parenthesis is taken, or a condition.
#[tactic(auto, using(crate::proofs::TailSteps::step_steps))]
fn settled<'t>(tokens: &mut Tokens<'t>, form: Form<'t>) -> Result<Step<'t>, Fail>
    ensures { Reads step_seen result (settled (form_seen form.entry)) (left tokens.old)
        (left tokens.new) }
{
    match form {
        Form::Right(right) => {
            tokens.close()?;
            Ok(Step::Last(right))
        }
        Form::Condition(condition) => Ok(Step::More(condition)),
        Form::Either(right, condition) => {
            if tokens.len() == 0 {
                return Err(tokens.miss(Expected::Expression));
            }
            match tokens.closes() {
                Some(_) => {
                    tokens.skip();
                    Ok(Step::Last(right))
                }
                None => Ok(Step::More(condition)),
            }
        }
    }
}

// A condition, or a rule's right side and the parenthesis after it.
#[tactic(auto, using(isle_reading::proofs::Steps::chain), unfolding(isle_grammar::specs::Reading::read_step))]
fn next_step<'t>(tokens: &mut Tokens<'t>, alloc: Global, most: usize) -> Result<Step<'t>, Fail>
    requires { length (left tokens.old) ≤ most }
    ensures { Reads step_seen result (read_step most) (left tokens.old) (left tokens.new) }
{
    let form = rule_form(tokens, alloc, most)?;
    settled(tokens, form)
}

/// Reads a rule's conditions and its right side up to the closing parenthesis, which is taken, of at most `most`
/// tokens.
#[tactic(auto, using(crate::proofs::TailSteps::tails))]
pub fn tail<'t>(
    tokens: &mut Tokens<'t>,
    alloc: Global,
    most: usize,
) -> Result<(Vec<AstIfLet<'t>>, AstExpr<'t>), Fail>
    requires { length (left tokens.old) ≤ most }
    ensures { Reads (λ x. (map iflet x.0.items, expr x.1)) result (read_tail most most)
        (left tokens.old) (left tokens.new) }
{
    let mut iflets = Vec::new(alloc);
    for _ in 0..most {
        let next = next_step(tokens, alloc, most)?;
        match next {
            Step::Last(right) => return Ok((iflets, right)),
            Step::More(condition) => iflets.push(condition)?,
        }
    }
    Err(tokens.miss(Expected::Expression))
}
