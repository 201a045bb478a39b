//! The text of a trace.

ghost use Rattle.std.specs.Prelude.{◌≡◌, ◌++◌, IfOk, OnOk, map, true};
ghost use Rattle.std.specs.String.{string_bytes};
ghost use Rattle.isle_codegen.specs.Names.{are_file_names};
ghost use Rattle.isle_core.specs.ValueViews.{made, ran};
ghost use Rattle.isle_outcomes.specs.Lines.{call_lines, run_lines};
ghost use Rattle.isle_trace.specs.Trace.{IsTraceOf};
ghost use Rattle.isle_tree.specs.Views.{program};
ghost use Rattle.isle_tree.specs.WellFormed.{IsWellFormed};

use isle_codegen::program_text;
use isle_core::{CallMade, OutOfMemory, Outcome, Text};
use isle_outcomes::{end_line, push_call};
use isle_tree::Program;
use std::alloc::Global;

// Appends a line for each call.
fn push_calls(out: &mut String, calls: &[CallMade]) -> Result<(), OutOfMemory>
    ensures { OnOk result
        (string_bytes out.new ≡ string_bytes out.old ++ call_lines (map made calls.now)) }
{
    for call in calls {
        push_call(out, call)?;
    }
    Ok(())
}

// The line of the end, and a line for each call.
fn run_lines(alloc: Global, outcome: &Outcome) -> Result<String, OutOfMemory>
    ensures { IfOk result (λ text. string_bytes text ≡ run_lines (ran outcome.now)) }
{
    let mut text = end_line(alloc, &outcome.end)?;
    push_calls(&mut text, outcome.calls.as_slice())?;
    Ok(text)
}

/// Returns the text of a program, whose files have these names, a line feed, and the lines of a run. The only error is
/// want of memory.
pub fn trace_text(
    alloc: Global,
    names: &[Text],
    tree: &Program,
    outcome: &Outcome,
) -> Result<String, OutOfMemory>
    requires names { are_file_names names.now ≡ true }
    requires well_formed { IsWellFormed (program tree.now) }
    ensures { IfOk result (λ text.
        IsTraceOf names.now (program tree.now) (ran outcome.now) (string_bytes text)) }
{
    let mut text = program_text(alloc, names, tree)?;
    let lines = run_lines(alloc, outcome)?;
    text.push_str("\n")?;
    text.push_str(lines.as_str())?;
    Ok(text)
}
