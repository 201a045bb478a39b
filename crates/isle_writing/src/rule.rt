//! Rules of rule texts.

ghost use Rattle.std.specs.Prelude.{◌≡◌, ◌++◌, OnOk, string_bytes, map};
ghost use Rattle.isle_ast.specs.Views.{pattern, expr, iflet};
ghost use Rattle.isle_writing.specs.Text.{rule_name_text, prio_text, parts_text};
ghost use Rattle.isle_writing.specs.Text.{iflet_text, iflets_text, conclusion_text};

use crate::expression::push_expr;
use crate::pattern::{push_pattern, push_patterns};
use crate::word::{push_after, push_number};
use isle_ast::{AstExpr, AstIfLet, AstPattern};
use isle_core::Name;
use std::alloc::AllocError;

/// Appends a rule's name before a blank, if it has one. The only error is want of memory.
pub fn push_rule_name(text: &mut String, name: &Option<Name<'_>>) -> Result<(), AllocError>
    ensures { OnOk result
        (string_bytes text.new ≡ string_bytes text.old ++ rule_name_text name.now) }
{
    match name {
        None => Ok(()),
        Some(name) => {
            text.push_str(name.as_str())?;
            text.push_str(" ")
        }
    }
}

/// Appends a rule's priority before a blank, if it isn't 0. The only error is want of memory.
pub fn push_prio(text: &mut String, prio: i64) -> Result<(), AllocError>
    ensures { OnOk result
        (string_bytes text.new ≡ string_bytes text.old ++ prio_text prio) }
{
    if prio == 0 {
        return Ok(());
    }
    push_number(text, i128::from(prio))?;
    text.push_str(" ")
}

/// Appends a rule's term and the patterns of its arguments. The only error is want of memory.
pub fn push_parts(text: &mut String, term: &Name, args: &[AstPattern<'_>]) -> Result<(), AllocError>
    ensures { OnOk result
        (string_bytes text.new
        ≡ string_bytes text.old ++ parts_text term.now (map pattern args.now)) }
{
    push_after(text, "(", term)?;
    push_patterns(text, args)?;
    text.push_str(") ")
}

// Appends a condition before a blank.
fn push_iflet(text: &mut String, condition: &AstIfLet<'_>) -> Result<(), AllocError>
    ensures { OnOk result
        (string_bytes text.new ≡ string_bytes text.old ++ iflet_text (iflet condition.now)) }
{
    text.push_str("(if-let ")?;
    push_pattern(text, &condition.lhs)?;
    text.push_str(" ")?;
    push_expr(text, &condition.rhs)?;
    text.push_str(") ")
}

// Appends conditions, each before a blank.
fn push_iflets(text: &mut String, iflets: &[AstIfLet<'_>]) -> Result<(), AllocError>
    ensures { OnOk result
        (string_bytes text.new
        ≡ string_bytes text.old ++ iflets_text (map iflet iflets.now)) }
{
    for condition in iflets {
        push_iflet(text, condition)?;
    }
    Ok(())
}

/// Appends a rule's conditions and its right side, and the end of its line. The only error is want of memory.
pub fn push_conclusion(
    text: &mut String,
    iflets: &[AstIfLet<'_>],
    rhs: &AstExpr<'_>,
) -> Result<(), AllocError>
    ensures { OnOk result
        (string_bytes text.new
        ≡ string_bytes text.old ++ conclusion_text (map iflet iflets.now) (expr rhs.now)) }
{
    push_iflets(text, iflets)?;
    push_expr(text, rhs)?;
    text.push_str(")\n")
}
