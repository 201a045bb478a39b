ghost use Rattle.std.specs.Prelude.{◌≡◌, Err, Some, None, IfOk};
ghost use Rattle.isle_command_line.specs.Reading.{next, nothing_given, after_first_word, after_kind};
ghost use Rattle.isle_command_line.specs.Reading.{after_target, after_size};
ghost use Rattle.isle_command_line.specs.Views.{seen_state};
ghost use Rattle.isle_command_line.specs.declared.state.WordFail.TheVariants.{Bad};

use crate::commands::{Command, Kind, Source};
use crate::options::{limit, one_name, option, prefix, threshold};
use crate::run::{after_values, answers, run, term, values};
use crate::word::{FirstWord, first, kind_of, size, target_of};
use isle_core::{CodegenOptions, List, OutOfMemory, Text};
use isle_settings::Isa;
use isle_values::Written;
use std::alloc::{AllocError, AllocFailed, Global};

/// What is done with a name after options.
#[derive(Clone, Copy, Debug, PartialEq, Eq)]
pub enum Verb {
    Compile,
    Build,
    /// Whether the run is traced.
    Run(bool),
}

/// What the options so far ask for.
#[derive(Debug, Drop)]
pub struct GivenOptions {
    pub options: CodegenOptions,
    /// Whether the limit of results is given, which may be the one that stands if none is.
    pub limited: bool,
}

impl GivenOptions {
    /// Makes what no options ask for. It takes no memory.
    pub fn new(alloc: Global) -> GivenOptions
        ensures { result ≡ nothing_given }
    {
        GivenOptions {
            options: CodegenOptions::new(alloc),
            limited: false,
        }
    }
}

/// What stands before the term of a line that has one.
#[derive(Debug, Drop)]
pub struct RunHead {
    pub verb: Verb,
    pub given: GivenOptions,
    pub source: Source,
}

/// What a line says of a run up to its values.
#[derive(Debug, Drop)]
pub struct RunParts {
    pub head: RunHead,
    pub term: Text,
    pub values: List<Written>,
}

/// What is known after the first words of a line.
#[derive(Debug, Drop)]
pub enum State {
    Begin,
    /// A line with which no word continues.
    Whole(Command),
    /// An option or a name is next.
    Options(Verb, GivenOptions),
    /// A threshold is next.
    Threshold(Verb, GivenOptions),
    /// A limit of results is next.
    MaxReturns(Verb, GivenOptions),
    /// A prefix is next.
    Prefix(Verb, GivenOptions),
    /// There is a name, and more of them may follow.
    Names(CodegenOptions, List<Text>),
    /// The kind of a prelude is next.
    Kind,
    /// A target is next.
    Target,
    /// The size of a sample is next.
    Size,
    /// `--trace`, an option or a source is next.
    Run,
    /// A term is next.
    Term(RunHead),
    /// Values are next, after the term.
    Values(RunHead, Text),
    /// A line of a run, which `--answers` may follow.
    AfterValues(RunParts),
    /// A file of answers is next.
    Answers(RunParts),
}

/// Why nothing is known after a word more.
#[derive(Clone, Copy, Debug, PartialEq, Eq)]
pub enum WordFail {
    /// No line continues with it.
    Bad,
    Memory,
}

impl From<AllocError> for WordFail {
    ghost use Rattle.std.specs.Prelude.{◌≡◌};
    ghost use Rattle.isle_command_line.specs.Views.{seen_state};
    ghost use Rattle.isle_command_line.specs.declared.state.WordFail.TheVariants.{Memory};

    ghost from_gives = { λ _ e. e ≡ Memory };

    fn from(_: AllocError) -> Self {
        WordFail::Memory
    }
}

impl<T: Drop> From<AllocFailed<T>> for WordFail {
    ghost use Rattle.std.specs.Prelude.{◌≡◌};
    ghost use Rattle.isle_command_line.specs.Views.{seen_state};
    ghost use Rattle.isle_command_line.specs.declared.state.WordFail.TheVariants.{Memory};

    ghost from_gives = { λ _ e. e ≡ Memory };

    fn from(_: AllocFailed<T>) -> Self {
        WordFail::Memory
    }
}

impl From<OutOfMemory> for WordFail {
    ghost use Rattle.std.specs.Prelude.{◌≡◌};
    ghost use Rattle.isle_command_line.specs.declared.state.WordFail.TheVariants.{Memory};

    ghost from_gives = { λ _ e. e ≡ Memory };

    fn from(_: OutOfMemory) -> Self {
        WordFail::Memory
    }
}

/// Returns what is known after one word more.
pub fn next(alloc: Global, state: State, word: &str) -> Result<State, WordFail>
    ensures next { IfOk result (λ s. next (seen_state state) word.now ≡ Some (seen_state s)) }
    ensures bad { result ≡ Err Bad → next (seen_state state) word.now ≡ None }
{
    match state {
        State::Begin => after_first_word(alloc, first(word)),
        State::Whole(_) => Err(WordFail::Bad),
        State::Options(verb, given) => option(alloc, verb, given, word),
        State::Threshold(verb, given) => threshold(verb, given, word),
        State::MaxReturns(verb, given) => limit(verb, given, word),
        State::Prefix(verb, given) => prefix(alloc, verb, given, word),
        State::Names(options, names) => one_name(alloc, options, names, word),
        State::Kind => after_kind(kind_of(word)),
        State::Target => after_target(target_of(word)),
        State::Size => after_size(size(word)),
        State::Run => run(alloc, word),
        State::Term(head) => term(alloc, head, word),
        State::Values(head, term) => values(alloc, head, term, word),
        State::AfterValues(parts) => after_values(parts, word),
        State::Answers(parts) => answers(alloc, parts, word),
    }
}

// What is known after the first word.
fn after_first_word(alloc: Global, word: FirstWord) -> Result<State, WordFail>
    ensures next { IfOk result (λ s. after_first_word word ≡ Some (seen_state s)) }
    ensures bad { result ≡ Err Bad → after_first_word word ≡ None }
{
    match word {
        FirstWord::Help => Ok(State::Whole(Command::Help)),
        FirstWord::Version => Ok(State::Whole(Command::Version)),
        FirstWord::Compile => Ok(State::Options(Verb::Compile, GivenOptions::new(alloc))),
        FirstWord::Build => Ok(State::Options(Verb::Build, GivenOptions::new(alloc))),
        FirstWord::Prelude => Ok(State::Kind),
        FirstWord::Units => Ok(State::Whole(Command::Units)),
        FirstWord::Isa => Ok(State::Target),
        FirstWord::Sample => Ok(State::Size),
        FirstWord::Run => Ok(State::Run),
        FirstWord::Other => Err(WordFail::Bad),
    }
}

// What is known after the kind of a prelude.
fn after_kind(kind: Option<Kind>) -> Result<State, WordFail>
    ensures next { IfOk result (λ s. after_kind kind ≡ Some (seen_state s)) }
    ensures bad { result ≡ Err Bad → after_kind kind ≡ None }
{
    match kind {
        Some(kind) => Ok(State::Whole(Command::Prelude(kind))),
        None => Err(WordFail::Bad),
    }
}

// What is known after a target.
fn after_target(target: Option<Isa>) -> Result<State, WordFail>
    ensures next { IfOk result (λ s. after_target target ≡ Some (seen_state s)) }
    ensures bad { result ≡ Err Bad → after_target target ≡ None }
{
    match target {
        Some(target) => Ok(State::Whole(Command::Isa(target))),
        None => Err(WordFail::Bad),
    }
}

// What is known after the size of a sample.
fn after_size(size: Option<usize>) -> Result<State, WordFail>
    ensures next { IfOk result (λ s. after_size size ≡ Some (seen_state s)) }
    ensures bad { result ≡ Err Bad → after_size size ≡ None }
{
    match size {
        Some(size) => Ok(State::Whole(Command::Sample(size))),
        None => Err(WordFail::Bad),
    }
}
