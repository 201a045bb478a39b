ghost use Rattle.std.specs.Prelude.{◌≡◌, ◌-◌, is_some};
ghost use Rattle.isle_reading.specs.Combinators.{many};
ghost use Rattle.isle_reading.specs.Views.{left};
ghost use Rattle.isle_grammar.specs.Grammar.{any_of};
ghost use Rattle.isle_grammar.specs.Reading.{next_any, read_token, read_any};
ghost use Rattle.isle_lexer.specs.TokenViews.{token_seen};
ghost use Rattle.isle_reading.specs.Nesting.{most_open};
ghost use Rattle.isle_syntax.specs.Skipping.{Skips};

use isle_lexer::Token;
use isle_reading::{Expected, Fail, Tokens, most_inside};

// Whether a token is a thing by itself, as all are but parentheses.
fn is_thing(token: Token<'_>) -> bool
    ensures { result ≡ is_some (any_of (token_seen token.entry)) }
{
    match token {
        Token::Open(_) | Token::Close(_) => false,
        Token::At(_) | Token::Less(_) | Token::Greater(_) | Token::Word(_, _) => true,
    }
}

// Whether a thing of one token is next.
#[tactic(auto, using(crate::proofs::PassedSteps::nexts))]
fn has_thing(tokens: &Tokens<'_>) -> bool
    ensures { result ≡ is_some (next_any (left tokens.now)) }
{
    match tokens.token() {
        Some(token) => is_thing(token),
        None => false,
    }
}

// Goes on after a thing of one token.
#[tactic(auto, using(crate::proofs::PassedSteps::things))]
fn skip_thing(tokens: &mut Tokens<'_>) -> Result<(), Fail>
    ensures { Skips result read_token (left tokens.old) (left tokens.new) }
{
    if !has_thing(tokens) {
        return Err(tokens.miss(Expected::Close));
    }
    tokens.skip();
    Ok(())
}

// Goes on after a thing inside which `depth` more parentheses may be open, its lists of at most `most` tokens.
#[cycle(passed)]
#[tactic(auto, using(crate::proofs::PassedSteps::any_steps))]
fn skip_any(tokens: &mut Tokens<'_>, most: usize, depth: usize) -> Result<(), Fail>
    ensures { Skips result (read_any most depth) (left tokens.old) (left tokens.new) }
{
    match tokens.opens() {
        None => skip_thing(tokens),
        Some(_) => {
            if depth == 0 {
                return Err(tokens.miss(Expected::Shallower));
            }
            tokens.open()?;
            skip_anys(tokens, most, depth - 1)
        }
    }
}

// Goes on after things up to a closing parenthesis, which is taken, of at most `most` tokens.
#[cycle(passed)]
#[tactic(auto, using(crate::proofs::PassedSteps::lists))]
fn skip_anys(tokens: &mut Tokens<'_>, most: usize, depth: usize) -> Result<(), Fail>
    ensures { Skips result (many most (read_any most depth)) (left tokens.old) (left tokens.new) }
{
    for _ in 0..most {
        match tokens.closes() {
            Some(_) => {
                tokens.skip();
                return Ok(());
            }
            None => skip_any(tokens, most, depth)?,
        }
    }
    Err(tokens.miss(Expected::Close))
}

/// Goes on after what stands in a list that is passed over, and after its closing parenthesis.
pub fn skip_passed(tokens: &mut Tokens<'_>, most: usize) -> Result<(), Fail>
    ensures { Skips result (many most (read_any most (most_open - 1))) (left tokens.old)
        (left tokens.new) }
{
    skip_anys(tokens, most, most_inside())
}
