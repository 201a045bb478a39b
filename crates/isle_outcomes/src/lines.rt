//! The line of an end, and the lines of calls.

ghost use Rattle.std.specs.Prelude.{◌≡◌, ◌++◌, [], ◌∷◌, OnOk, IfOk, map, string_bytes};
ghost use Rattle.isle_core.specs.ValueViews.{values, end, made};
ghost use Rattle.isle_outcomes.specs.Lines.{more_text, listed_text, end_text, args_text, call_line};
ghost use Rattle.isle_outcomes.specs.Lines.{call_lines, end_line};

use crate::shown::{push_callee, push_value};
use isle_core::{CallMade, End, OutOfMemory, Value};
use std::alloc::{AllocError, Global};

// Appends values after a first one.
fn push_more(out: &mut String, given: &[Value]) -> Result<(), AllocError>
    ensures { OnOk result
        (string_bytes out.new ≡ string_bytes out.old ++ more_text (values given.now)) }
{
    for value in given {
        out.push_str(", ")?;
        push_value(out, value)?;
    }
    Ok(())
}

// Appends values with commas between them.
fn push_listed(out: &mut String, given: &[Value]) -> Result<(), AllocError>
    ensures { OnOk result
        (string_bytes out.new ≡ string_bytes out.old ++ listed_text (values given.now)) }
{
    match given {
        [] => Ok(()),
        [first, more @ ..] => {
            push_value(out, first)?;
            push_more(out, more)
        }
    }
}

// Appends how a run ends.
fn push_end(out: &mut String, given: &End) -> Result<(), AllocError>
    ensures { OnOk result
        (string_bytes out.new ≡ string_bytes out.old ++ end_text (end given.now)) }
{
    match given {
        End::Value(value) => push_value(out, value),
        End::Some(value) => {
            out.push_str("Some(")?;
            push_value(out, value)?;
            out.push_str(")")
        }
        End::Nothing => out.push_str("None"),
        End::Unreachable => out.push_str("unreachable"),
        End::List(listed) => {
            out.push_str("[")?;
            push_listed(out, listed.as_slice())?;
            out.push_str("]")
        }
    }
}

// Appends each argument after a blank.
fn push_args(out: &mut String, args: &[Value]) -> Result<(), AllocError>
    ensures { OnOk result
        (string_bytes out.new ≡ string_bytes out.old ++ args_text (values args.now)) }
{
    for arg in args {
        out.push_str(" ")?;
        push_value(out, arg)?;
    }
    Ok(())
}

/// Appends the line of a call: `call`, what it goes to, and its arguments.
pub fn push_call(out: &mut String, call: &CallMade) -> Result<(), OutOfMemory>
    ensures { OnOk result
        (string_bytes out.new ≡ string_bytes out.old ++ call_line (made call.now)) }
{
    out.push_str("call ")?;
    push_callee(out, &call.callee)?;
    push_args(out, call.args.as_slice())?;
    out.push_str("\n")?;
    Ok(())
}

/// Returns the line of an end: the value, `Some(V)`, `None`, `unreachable`, or `[V, V]`.
pub fn end_line(alloc: Global, given: &End) -> Result<String, OutOfMemory>
    ensures { IfOk result (λ line. string_bytes line ≡ end_line (end given.now)) }
{
    let mut line = String::new(alloc);
    push_end(&mut line, given)?;
    line.push_str("\n")?;
    Ok(line)
}
