ghost use Rattle.std.specs.Prelude.{◌≡◌, Ok, Err, Some, None, IfOk, IfSome, option_copied};
ghost use Rattle.std.specs.Prelude.{option_map, true, codes};
ghost use Rattle.isle_core.specs.Printed.{after_prefix};
ghost use Rattle.isle_values.specs.Reading.{spelt};
ghost use Rattle.isle_values.specs.Views.{seen};
ghost use Rattle.isle_command_line.specs.Known as known;
ghost use Rattle.isle_command_line.specs.Reading.{next, head_of, source_of};
ghost use Rattle.isle_command_line.specs.Reading.{after_last, run_request};
ghost use Rattle.isle_command_line.specs.Words.{is_name};
ghost use Rattle.isle_command_line.specs.Views.{seen_command, seen_parts, seen_state};
ghost use Rattle.isle_command_line.specs.declared.state.WordFail.TheVariants.{Bad};

use crate::commands::{Command, RunLine, Source};
use crate::options::option;
use crate::state::{GivenOptions, RunHead, RunParts, State, Verb, WordFail};
use crate::word::{is_answers, is_name, is_trace};
use isle_core::{List, OutOfMemory, Text};
use isle_values::Written;
use std::alloc::{AllocError, Global};

/// Returns what is known after a word that stands where `--trace` may.
pub fn run(alloc: Global, word: &str) -> Result<State, WordFail>
    ensures next { IfOk result (λ s. next known.Run word.now ≡ Some (seen_state s)) }
    ensures bad { result ≡ Err Bad → next known.Run word.now ≡ None }
{
    let given = GivenOptions::new(alloc);
    if is_trace(word) {
        Ok(State::Options(Verb::Run(true), given))
    } else {
        option(alloc, Verb::Run(false), given, word)
    }
}

// What stands after `unit:`, where a word begins with it.
fn after_unit(word: &str) -> Option<&str>
    ensures { option_copied result ≡ after_prefix (codes "unit:") word.now }
{
    word.strip_prefix("unit:")
}

// The source that a word names.
#[tactic(auto, unfolding(crate::specs::Reading::source_of))]
fn source(alloc: Global, word: &str) -> Result<Source, AllocError>
    ensures { IfOk result (λ s. s ≡ source_of word.now) }
{
    match after_unit(word) {
        None => Ok(Source::File(Text::copied(alloc, word)?)),
        Some(unit) => Ok(Source::Unit(Text::copied(alloc, unit)?)),
    }
}

/// Returns what stands before the term of a line, with the source that a word names.
pub fn run_head(
    alloc: Global,
    verb: Verb,
    given: GivenOptions,
    word: &str,
) -> Result<RunHead, AllocError>
    ensures { IfOk result (λ head. head ≡ head_of verb given word.now) }
{
    let source = source(alloc, word)?;
    Ok(RunHead {
        verb,
        given,
        source,
    })
}

/// Returns what is known after a term.
pub fn term(alloc: Global, head: RunHead, word: &str) -> Result<State, WordFail>
    ensures next { IfOk result (λ s. next (known.Term head) word.now ≡ Some (seen_state s)) }
    ensures bad { result ≡ Err Bad → next (known.Term head) word.now ≡ None }
{
    if !is_name(word) {
        return Err(WordFail::Bad);
    }
    Ok(State::Values(head, Text::copied(alloc, word)?))
}

// The values that a word spells, if it does.
fn values_in(alloc: Global, word: &str) -> Result<Option<List<Written>>, OutOfMemory>
    ensures { IfOk result (λ read. option_map seen read ≡ spelt word.now) }
{
    isle_values::values(alloc, word)
}

/// Returns what is known after values.
pub fn values(alloc: Global, head: RunHead, term: Text, word: &str) -> Result<State, WordFail>
    ensures next { IfOk result (λ s. next (known.Values head term) word.now ≡ Some (seen_state s)) }
    ensures bad { result ≡ Err Bad → next (known.Values head term) word.now ≡ None }
{
    match values_in(alloc, word)? {
        Some(values) => Ok(State::AfterValues(RunParts { head, term, values })),
        None => Err(WordFail::Bad),
    }
}

/// Returns what is known after a word that follows values.
pub fn after_values(parts: RunParts, word: &str) -> Result<State, WordFail>
    ensures next { IfOk result (λ s.
        next (known.AfterValues (seen_parts parts)) word.now ≡ Some (seen_state s)) }
    ensures bad { result ≡ Err Bad
        → next (known.AfterValues (seen_parts parts)) word.now ≡ None }
{
    if is_answers(word) {
        Ok(State::Answers(parts))
    } else {
        Err(WordFail::Bad)
    }
}

/// Returns what a line of these parts asks for, with this file of answers; lines of other verbs have no term.
pub fn run_request(parts: RunParts, answers: Option<Text>) -> Option<Command>
    ensures { option_map seen_command result
        ≡ run_request parts.head.verb (seen_parts parts) answers }
{
    let RunParts { head, term, values } = parts;
    match head.verb {
        Verb::Run(trace) => Some(Command::Run(RunLine {
            trace,
            options: head.given.options,
            source: head.source,
            term,
            values,
            answers,
        })),
        Verb::Compile | Verb::Build => None,
    }
}

// What is known after the last word that a line may have.
fn after_last(request: Option<Command>) -> Result<State, WordFail>
    ensures next { IfOk result (λ s.
        after_last (option_map seen_command request) ≡ Some (seen_state s)) }
    ensures bad { result ≡ Err Bad → after_last (option_map seen_command request) ≡ None }
{
    match request {
        Some(command) => Ok(State::Whole(command)),
        None => Err(WordFail::Bad),
    }
}

/// Returns what is known after a file of answers.
pub fn answers(alloc: Global, parts: RunParts, word: &str) -> Result<State, WordFail>
    ensures next { IfOk result (λ s.
        next (known.Answers (seen_parts parts)) word.now ≡ Some (seen_state s)) }
    ensures bad { result ≡ Err Bad → next (known.Answers (seen_parts parts)) word.now ≡ None }
{
    if !is_name(word) {
        return Err(WordFail::Bad);
    }
    let answers = Some(Text::copied(alloc, word)?);
    after_last(run_request(parts, answers))
}
