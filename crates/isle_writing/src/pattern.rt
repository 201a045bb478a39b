//! Patterns of rule texts.

ghost use Rattle.std.specs.Prelude.{◌≡◌, ◌++◌, OnOk, codes, string_bytes, map};
ghost use Rattle.isle_ast.specs.Tree as tree;
ghost use Rattle.isle_ast.specs.Views.{pattern, patterns_of};
ghost use Rattle.isle_writing.specs.Text.{pattern_text, patterns_text, closed_text};

use crate::word::{push_after, push_number, push_truth};
use isle_ast::AstPattern;
use isle_core::Name;
use std::alloc::AllocError;

// Appends a name and the `@` after it.
fn push_bound(text: &mut String, name: &Name) -> Result<(), AllocError>
    ensures { OnOk result
        (string_bytes text.new ≡ string_bytes text.old ++ (name.now ++ codes " @ ")) }
{
    text.push_str(name.as_str())?;
    text.push_str(" @ ")
}

/// Appends a pattern. The only error is want of memory.
#[cycle(pushing)]
#[tactic(auto, using(isle_ast::proofs::Sees::pattern_sees))]
pub fn push_pattern(text: &mut String, p: &AstPattern<'_>) -> Result<(), AllocError>
    ensures { OnOk result
        (string_bytes text.new ≡ string_bytes text.old ++ pattern_text (pattern p.now)) }
{
    match p {
        AstPattern::Int(number) => push_number(text, *number),
        AstPattern::Bool(truth) => push_truth(text, *truth),
        AstPattern::Const(name) => push_after(text, "$", name),
        AstPattern::Wildcard => text.push_str("_"),
        AstPattern::Var(name) => text.push_str(name.as_str()),
        AstPattern::Bind(name, inner) => {
            push_bound(text, name)?;
            push_pattern(text, inner.get())
        }
        AstPattern::And(parts) => {
            text.push_str("(and")?;
            push_closed(text, parts.as_slice())
        }
        AstPattern::Term(name, parts) => {
            push_after(text, "(", name)?;
            push_closed(text, parts.as_slice())
        }
    }
}

// Appends patterns, and the parenthesis after them.
#[cycle(pushing)]
fn push_closed(text: &mut String, patterns: &[AstPattern<'_>]) -> Result<(), AllocError>
    ensures { OnOk result
        (string_bytes text.new
        ≡ string_bytes text.old ++ closed_text (patterns_of (map pattern patterns.now))) }
{
    push_patterns(text, patterns)?;
    text.push_str(")")
}

/// Appends each pattern after a blank. The only error is want of memory.
#[cycle(pushing)]
pub fn push_patterns(text: &mut String, patterns: &[AstPattern<'_>]) -> Result<(), AllocError>
    ensures { OnOk result
        (string_bytes text.new
        ≡ string_bytes text.old ++ patterns_text (patterns_of (map pattern patterns.now))) }
{
    for p in patterns {
        text.push_str(" ")?;
        push_pattern(text, p)?;
    }
    Ok(())
}
