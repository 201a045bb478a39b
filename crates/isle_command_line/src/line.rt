ghost use Rattle.std.specs.Prelude.{◌≡◌, ◌≢◌, ℕ, Err, Some, None, IfOk, IfErr};
ghost use Rattle.isle_core.specs.Inputs.{bytes_each};
ghost use Rattle.isle_command_line.specs.Request.{Request};
ghost use Rattle.isle_command_line.specs.Known.{Begin};
ghost use Rattle.isle_command_line.specs.Lines.{LineS, IsBad, IsMissing};
ghost use Rattle.isle_command_line.specs.Reading.{read, asks, StopsAt};
ghost use Rattle.isle_command_line.specs.Views.{seen_command, seen_state};
ghost use Rattle.isle_command_line.specs.declared.commands.LineFail.TheVariants.{Bad, Missing};
ghost use Rattle.isle_command_line.specs.declared.commands.LineFail.TheVariants.{Memory};

use crate::commands::{Command, LineFail};
use crate::run::run_request;
use crate::state::{State, WordFail, next};
use isle_core::{CodegenOptions, List, Text};
use std::alloc::Global;

/// Returns what a line of words asks for. `Bad` gives the number of the first word with which no line continues; words
/// that are `Missing` something begin a line, and are none.
pub fn command(alloc: Global, words: &[String]) -> Result<Command, LineFail>
    ensures line { IfOk result (λ c. LineS (bytes_each words.now) (seen_command c)) }
    ensures only { IfOk result (λ c.
        (other : Request) → LineS (bytes_each words.now) other → other ≡ seen_command c) }
    ensures bad { (i : ℕ) → result ≡ Err (Bad i) → IsBad (bytes_each words.now) i }
    ensures missing { result ≡ Err Missing → IsMissing (bytes_each words.now) }
{
    match known(alloc, words) {
        Ok(state) => request(alloc, state),
        Err(fail) => Err(fail),
    }
}

// What is known after all words.
fn known(alloc: Global, words: &[String]) -> Result<State, LineFail>
    ensures known { IfOk result (λ s. read Begin (bytes_each words.now) ≡ Some (seen_state s)) }
    ensures bad { (i : ℕ) → result ≡ Err (Bad i) → StopsAt (bytes_each words.now) i }
    ensures found { result ≢ Err Missing }
{
    let mut state = State::Begin;
    for (index, word) in words.iter().enumerate() {
        state = match next(alloc, state, word.as_str()) {
            Ok(state) => state,
            Err(WordFail::Bad) => return Err(LineFail::Bad(index)),
            Err(WordFail::Memory) => return Err(LineFail::Memory),
        };
    }
    Ok(state)
}

// What the words ask for after which this is known.
fn request(alloc: Global, state: State) -> Result<Command, LineFail>
    ensures asks { IfOk result (λ c. asks (seen_state state) ≡ Some (seen_command c)) }
    ensures missing { result ≡ Err Missing → asks (seen_state state) ≡ None }
    ensures good { (i : ℕ) → result ≢ Err (Bad i) }
{
    match state {
        State::Begin => default_command(alloc),
        State::Whole(command) => Ok(command),
        State::Names(options, names) => Ok(Command::Compile { options, names }),
        State::AfterValues(parts) => match run_request(parts, None) {
            Some(command) => Ok(command),
            None => Err(LineFail::Missing),
        },
        State::Options(..)
        | State::Threshold(..)
        | State::MaxReturns(..)
        | State::Prefix(..)
        | State::Kind
        | State::Target
        | State::Size
        | State::Run
        | State::Term(..)
        | State::Values(..)
        | State::Answers(..) => Err(LineFail::Missing),
    }
}

// What no words ask for.
fn default_command(alloc: Global) -> Result<Command, LineFail>
    ensures asks { IfOk result (λ c. asks Begin ≡ Some (seen_command c)) }
    ensures memory { IfErr result (λ e. e ≡ Memory) }
{
    let name = Text::copied(alloc, "first.isle")?;
    Ok(Command::Compile {
        options: CodegenOptions::new(alloc),
        names: List::new(vec![in alloc; name]?),
    })
}
