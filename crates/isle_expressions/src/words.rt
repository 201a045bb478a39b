ghost use Rattle.std.specs.Prelude.{◌≡◌, option_map};
ghost use Rattle.isle_lexer.specs.Word.{kind};
ghost use Rattle.isle_reading.specs.Combinators.{next_word};
ghost use Rattle.isle_reading.specs.Views.{left, Reads};
ghost use Rattle.isle_grammar.specs.Reading.{read_rule_name, prio_of, read_prio, decl_name_of};
ghost use Rattle.isle_grammar.specs.Reading.{read_decl_name, constant_of, read_constant};

use isle_core::Name;
use isle_lexer::{Kind, is_flag, is_name, kind_of};
use isle_reading::{Expected, Fail, Tokens};

/// Reads the name of a rule, or none.
#[tactic(auto, using(crate::proofs::WordSteps::rule_names), unfolding(isle_grammar::specs::Reading::read_rule_name))]
pub fn rule_name<'t>(tokens: &mut Tokens<'t>) -> Result<Option<Name<'t>>, Fail>
    ensures { Reads (λ name. name) result read_rule_name (left tokens.old) (left tokens.new) }
{
    if tokens.len() == 0 {
        return Err(tokens.miss(Expected::Open));
    }
    match tokens.next_name() {
        Some(word) => {
            tokens.skip();
            Ok(Some(Name::new(word)))
        }
        None => Ok(None),
    }
}

// The priority that a word is.
fn prio_of(word: &str) -> Option<i64>
    ensures { result ≡ prio_of (kind word.now) }
{
    match kind_of(word) {
        Kind::Number(value) => i64::try_from(value).ok(),
        _ => None,
    }
}

// A priority that is next.
#[tactic(auto, using(isle_reading::proofs::Steps::next))]
fn next_prio(tokens: &Tokens<'_>) -> Option<i64>
    ensures { result ≡ next_word (λ w. prio_of (kind w)) (left tokens.now) }
{
    prio_of(tokens.word()?)
}

/// Reads a priority, or 0.
#[tactic(auto, using(isle_reading::proofs::Steps::optionals), unfolding(isle_grammar::specs::Reading::read_prio))]
pub fn prio(tokens: &mut Tokens<'_>) -> Result<i64, Fail>
    ensures { Reads (λ prio. prio) result read_prio (left tokens.old) (left tokens.new) }
{
    if tokens.len() == 0 {
        return Err(tokens.miss(Expected::Open));
    }
    match next_prio(tokens) {
        Some(prio) => {
            tokens.skip();
            Ok(prio)
        }
        None => Ok(0),
    }
}

// A name that is next and no flag.
#[tactic(auto, using(isle_reading::proofs::Steps::next))]
fn next_decl_name<'t>(tokens: &Tokens<'t>) -> Option<&'t str>
    ensures { option_map (λ word. word.now) result ≡ next_word decl_name_of (left tokens.now) }
{
    let word = tokens.word()?;
    if is_flag(word) || !is_name(word) {
        return None;
    }
    Some(word)
}

/// Reads a name that is no flag.
#[tactic(auto, using(isle_reading::proofs::Steps::words), unfolding(isle_grammar::specs::Reading::read_decl_name))]
pub fn decl_name<'t>(tokens: &mut Tokens<'t>) -> Result<Name<'t>, Fail>
    ensures { Reads (λ name. name) result read_decl_name (left tokens.old) (left tokens.new) }
{
    match next_decl_name(tokens) {
        Some(word) => {
            tokens.skip();
            Ok(Name::new(word))
        }
        None => Err(tokens.miss(Expected::Name)),
    }
}

/// Returns the name of a constant, which stands after a `$`.
pub fn constant_of(word: &str) -> Option<&str>
    ensures { option_map (λ name. name.now) result ≡ constant_of (kind word.now) }
{
    word.strip_prefix('$')
}

// The name of a constant that is next.
#[tactic(auto, using(isle_reading::proofs::Steps::next))]
fn next_constant<'t>(tokens: &Tokens<'t>) -> Option<&'t str>
    ensures { option_map (λ name. name.now) result
        ≡ next_word (λ w. constant_of (kind w)) (left tokens.now) }
{
    constant_of(tokens.word()?)
}

/// Reads a `$` and the name of a constant.
#[tactic(auto, using(isle_reading::proofs::Steps::words), unfolding(isle_grammar::specs::Reading::read_constant))]
pub fn constant<'t>(tokens: &mut Tokens<'t>) -> Result<Name<'t>, Fail>
    ensures { Reads (λ name. name) result read_constant (left tokens.old) (left tokens.new) }
{
    match next_constant(tokens) {
        Some(name) => {
            tokens.skip();
            Ok(Name::new(name))
        }
        None => Err(tokens.miss(Expected::Constant)),
    }
}
