ghost use Rattle.std.specs.Prelude.{◌≡◌, ◌≢◌, Err, Some, None, IfOk, IfSome};
ghost use Rattle.isle_command_line.specs.Lines.{Prefixed};
ghost use Rattle.isle_command_line.specs.Known as known;
ghost use Rattle.isle_command_line.specs.Reading.{next, after_mark, after_name, optional};
ghost use Rattle.isle_command_line.specs.Reading.{parts, given_more};
ghost use Rattle.isle_command_line.specs.Views.{seen_state};
ghost use Rattle.isle_command_line.specs.declared.state.WordFail.TheVariants.{Bad};

use crate::commands::Command;
use crate::run::run_head;
use crate::state::{GivenOptions, State, Verb, WordFail};
use crate::word::{OptionWord, count, is_name, mark};
use isle_core::{CodegenOptions, List, Prefix, Text};
use std::alloc::Global;

/// Returns what is known after a word that stands where an option or the first name may.
pub fn option(alloc: Global, verb: Verb, given: GivenOptions, word: &str) -> Result<State, WordFail>
    ensures next { IfOk result (λ s. optional verb given word.now ≡ Some (seen_state s)) }
    ensures bad { result ≡ Err Bad → optional verb given word.now ≡ None }
{
    if is_name(word) {
        after_name(alloc, verb, given, word)
    } else {
        after_mark(verb, given, mark(word))
    }
}

// What is known after the first name.
fn after_name(alloc: Global, verb: Verb, given: GivenOptions, word: &str) -> Result<State, WordFail>
    ensures next { IfOk result (λ s. after_name verb given word.now ≡ Some (seen_state s)) }
    ensures bad { result ≡ Err Bad → after_name verb given word.now ≡ None }
{
    match verb {
        Verb::Compile => {
            let name = Text::copied(alloc, word)?;
            Ok(State::Names(given.options, List::new(vec![in alloc; name]?)))
        }
        Verb::Build => {
            let options = given.options;
            let unit = Text::copied(alloc, word)?;
            Ok(State::Whole(Command::Build { options, unit }))
        }
        Verb::Run(_) => Ok(State::Term(run_head(alloc, verb, given, word)?)),
    }
}

// What is known after a word that names an option.
fn after_mark(verb: Verb, mut given: GivenOptions, mark: OptionWord) -> Result<State, WordFail>
    ensures next { IfOk result (λ s. after_mark verb given mark ≡ Some (seen_state s)) }
    ensures bad { result ≡ Err Bad → after_mark verb given mark ≡ None }
{
    match mark {
        OptionWord::NoAllow if !given.options.exclude_global_allow_pragmas => {
            given.options.exclude_global_allow_pragmas = true;
            Ok(State::Options(verb, given))
        }
        OptionWord::Log if !given.options.emit_logging => {
            given.options.emit_logging = true;
            Ok(State::Options(verb, given))
        }
        OptionWord::Split if !given.options.split_match_arms => {
            given.options.split_match_arms = true;
            Ok(State::Options(verb, given))
        }
        OptionWord::Threshold if given.options.match_arm_split_threshold.is_none() => {
            Ok(State::Threshold(verb, given))
        }
        OptionWord::MaxReturns if !given.limited => Ok(State::MaxReturns(verb, given)),
        OptionWord::Prefix => Ok(State::Prefix(verb, given)),
        _ => Err(WordFail::Bad),
    }
}

/// Returns what is known after a threshold.
pub fn threshold(verb: Verb, mut given: GivenOptions, word: &str) -> Result<State, WordFail>
    ensures next { IfOk result (λ s.
        next (known.Threshold verb given) word.now ≡ Some (seen_state s)) }
    ensures bad { result ≡ Err Bad → next (known.Threshold verb given) word.now ≡ None }
{
    match count(word) {
        Some(count) => {
            given.options.match_arm_split_threshold = Some(count);
            Ok(State::Options(verb, given))
        }
        None => Err(WordFail::Bad),
    }
}

/// Returns what is known after a limit of results.
pub fn limit(verb: Verb, mut given: GivenOptions, word: &str) -> Result<State, WordFail>
    ensures next { IfOk result (λ s.
        next (known.MaxReturns verb given) word.now ≡ Some (seen_state s)) }
    ensures bad { result ≡ Err Bad → next (known.MaxReturns verb given) word.now ≡ None }
{
    match count(word) {
        Some(count) => {
            given.options.max_returns = count;
            given.limited = true;
            Ok(State::Options(verb, given))
        }
        None => Err(WordFail::Bad),
    }
}

// What stands before the first `=` and after it.
#[tactic(auto, unfolding(crate::specs::Reading::parts))]
fn parts(word: &str) -> Option<(&str, &str)>
    ensures some { IfSome result (λ p. parts word.now ≡ Some (p.0.now, p.1.now)) }
    ensures none { result ≡ None → parts word.now ≡ None }
{
    word.split_once('=')
}

/// Returns what is known after a prefix.
pub fn prefix(alloc: Global, verb: Verb, given: GivenOptions, word: &str) -> Result<State, WordFail>
    ensures next { IfOk result (λ s.
        next (known.Prefix verb given) word.now ≡ Some (seen_state s)) }
    ensures bad { result ≡ Err Bad → next (known.Prefix verb given) word.now ≡ None }
{
    match parts(word) {
        Some((prefix, name)) => {
            if is_name(name) {
                after_prefix(alloc, verb, given, prefix, name)
            } else {
                Err(WordFail::Bad)
            }
        }
        None => Err(WordFail::Bad),
    }
}

// What is known after this prefix, whose name is one.
fn after_prefix(
    alloc: Global,
    verb: Verb,
    given: GivenOptions,
    prefix: &str,
    name: &str,
) -> Result<State, WordFail>
    ensures next { IfOk result (λ s.
        seen_state s ≡ known.Options verb (given_more given (Prefixed prefix.now name.now))) }
    ensures bad { result ≢ Err Bad }
{
    let GivenOptions { options, limited } = given;
    let CodegenOptions {
        exclude_global_allow_pragmas,
        prefixes,
        emit_logging,
        split_match_arms,
        match_arm_split_threshold,
        max_returns,
    } = options;
    let prefix = Text::copied(alloc, prefix)?;
    let name = Text::copied(alloc, name)?;
    let mut all = prefixes.into_vec();
    all.push(Prefix { prefix, name })?;
    let options = CodegenOptions {
        exclude_global_allow_pragmas,
        prefixes: List::new(all),
        emit_logging,
        split_match_arms,
        match_arm_split_threshold,
        max_returns,
    };
    Ok(State::Options(verb, GivenOptions { options, limited }))
}

/// Returns what is known after one name more.
pub fn one_name(
    alloc: Global,
    options: CodegenOptions,
    names: List<Text>,
    word: &str,
) -> Result<State, WordFail>
    ensures next { IfOk result (λ s.
        next (known.Names options names) word.now ≡ Some (seen_state s)) }
    ensures bad { result ≡ Err Bad → next (known.Names options names) word.now ≡ None }
{
    if !is_name(word) {
        return Err(WordFail::Bad);
    }
    let mut all = names.into_vec();
    all.push(Text::copied(alloc, word)?)?;
    Ok(State::Names(options, List::new(all)))
}
