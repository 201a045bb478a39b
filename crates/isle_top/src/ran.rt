//! What is shown of a run of a term.

ghost use Rattle.std.specs.Prelude.{◌≡◌, ◌≤◌, IfOk, IfErr, ◌+◌, ◌*◌, ◌^◌, length, ◌-◌};
ghost use Rattle.std.specs.Option.{option_copied};
ghost use Rattle.std.specs.String.{string_bytes};
ghost use Rattle.isle_codegen.specs.Causes.{AllTried};
ghost use Rattle.isle_command_line.specs.Views.{seen_run};
ghost use Rattle.isle_run.specs.NoLines.{HasNoLines};
ghost use Rattle.isle_top.specs.Job.{surroundings};
ghost use Rattle.isle_top.specs.RunLine.{run_inputs, FailsToRun, GivesLines};
ghost use Rattle.isle_top.specs.Showing.{of_trial, running, Shows};
ghost use Rattle.isle_top.specs.Sourcing.{sourcing_of};
ghost use Rattle.isle_top.specs.Tabling.{handed};
ghost use Rattle.isle_top.specs.Wants.{IsEarly};
ghost use Rattle.isle_values.specs.Views.{seen};

use crate::answers::answers_text;
use crate::asked::Over;
use crate::refusal::Refusal;
use crate::source::{inputs_count, of_read, source_of};
use isle_command_line::RunLine;
use isle_core::{Dir, Files, Text};
use isle_meta::Tables;
use isle_run::{TrialFail, trial};
use isle_trace::traced_trial;
use std::alloc::Global;

// The name of the file of answers.
fn name_of(answers: &Option<Text>) -> Option<&str>
    ensures { option_copied result ≡ answers.now }
{
    match answers {
        Some(name) => Some(name.as_str()),
        None => None,
    }
}

// Why a run gives no lines. Errors take the source along.
fn of_trial(source: Files, fail: TrialFail) -> Refusal
    ensures { result ≡ of_trial source fail }
{
    match fail {
        TrialFail::Source(e) => Refusal::Files(e.with_files(source)),
        TrialFail::Run(e) => Refusal::Run(e),
    }
}

// What is shown of a run of the term: lines, and of a traced one the text of the program before them.
fn shown(alloc: Global, files: &Files, run: &RunLine, answers: &str) -> Result<String, TrialFail>
    requires count { length files.now.file_texts ≡ length files.now.file_names }
    ensures ok { IfOk result (λ text. Shows run.now.trace run.now.options files.now run.now.term
        (seen run.now.values) answers.now (string_bytes text)) }
    ensures err { IfErr result (λ e. HasNoLines run.now.options files.now run.now.term
        (seen run.now.values) answers.now e) }
{
    let (term, given) = (run.term.as_str(), run.values.as_slice());
    if run.trace {
        let asked = isle_trace::Asked {
            term,
            given,
            answers,
        };
        traced_trial(alloc, files, &run.options, &asked)
    } else {
        trial(alloc, files, &run.options, term, given, answers)
    }
}

/// Runs the term of a source, made over these tables if it is a unit, and returns what is shown of the run
/// (`specs/RunLine.antt`).
pub fn ran<D: Dir>(
    alloc: Global,
    tables: &Tables,
    run: &RunLine,
    dir: &mut D,
) -> Result<String, Refusal>
    ensures ok { let from = sourcing_of (handed tables.now) run.now.options run.now.source in
        IfOk result (λ text.
        GivesLines from (running (seen_run run.now)) (D.files dir.old) (string_bytes text)) }
    ensures tried { let from = sourcing_of (handed tables.now) run.now.options run.now.source in
        let names = run_inputs from run.now.answers in
        IfOk result (λ text. AllTried names (D.counts dir.old) (D.counts dir.new)) }
    ensures err { let around = surroundings (D.files dir.old) (D.counts dir.old) (D.counts dir.new)
        in
        let from = sourcing_of (handed tables.now) run.now.options run.now.source in
        IfErr result (FailsToRun from (running (seen_run run.now)) around) }
    ensures unasked { IfErr result (λ e. IsEarly e → dir.new ≡ dir.old) }
    ensures files { D.files dir.new ≡ D.files dir.old }
    ensures later { (D.counts dir.old).faults ≤ (D.counts dir.new).faults }
    ensures stays { (D.counts dir.old).faults ≡ 2 ^ 64 - 1
        → (D.counts dir.new).faults ≡ 2 ^ 64 - 1 }
    ensures given { let from = sourcing_of (handed tables.now) run.now.options run.now.source in
        let names = run_inputs from run.now.answers in
        (D.counts dir.new).given ≤ (D.counts dir.old).given + (2 ^ 24 + 1) * length names }
{
    let over = Over {
        tables,
        options: &run.options,
    };
    let files = match source_of(alloc, &over, &run.source, dir) {
        Ok(files) => files,
        Err(e) => return Err(e),
    };
    let index = inputs_count(&run.source);
    let answers = match answers_text(alloc, index, name_of(&run.answers), dir) {
        Ok(answers) => answers,
        Err(e) => return Err(of_read(e)),
    };
    match shown(alloc, &files, run, answers.as_str()) {
        Ok(text) => Ok(text),
        Err(fail) => Err(of_trial(files, fail)),
    }
}
