//! Definitions that link names, of rule texts.

ghost use Rattle.std.specs.Prelude.{◌≡◌, ◌++◌, OnOk, string_bytes};
ghost use Rattle.isle_ast.specs.Views.{def};
ghost use Rattle.isle_writing.specs.Link.{IsLink};
ghost use Rattle.isle_writing.specs.Text.{def_text, pair_text};

use crate::word::{push_after, push_mark};
use isle_ast::Def;
use isle_core::Name;
use std::alloc::AllocError;

// Appends two names after these bytes, with a blank between them, and the end of the line.
fn push_pair(text: &mut String, before: &str, first: &Name, second: &Name) -> Result<(), AllocError>
    ensures { OnOk result
        (string_bytes text.new
        ≡ string_bytes text.old ++ pair_text before.now first.now second.now) }
{
    push_after(text, before, first)?;
    push_after(text, " ", second)?;
    text.push_str(")\n")
}

/// Appends a definition that links names, on a line of its own. The only error is want of memory.
#[tactic(auto, unfolding(crate::specs::Text::def_text))]
pub fn push_link(text: &mut String, given: &Def<'_>) -> Result<(), AllocError>
    requires { IsLink (def given.now) }
    ensures { OnOk result
        (string_bytes text.new ≡ string_bytes text.old ++ def_text (def given.now)) }
{
    match given {
        Def::ExternConstructor { term, func, .. } => {
            push_pair(text, "(extern constructor ", term, func)
        }
        Def::ExternExtractor {
            term,
            func,
            infallible,
            ..
        } => {
            text.push_str("(extern extractor ")?;
            push_mark(text, *infallible, "infallible")?;
            push_pair(text, "", term, func)
        }
        Def::ExternConst { name, ty, .. } => push_pair(text, "(extern const $", name, ty),
        Def::Converter { from, to, term, .. } => {
            push_after(text, "(convert ", from)?;
            push_pair(text, " ", to, term)
        }
        Def::Passed { head, .. } => {
            push_after(text, "(", head)?;
            text.push_str(")\n")
        }
        Def::TypeDecl { .. } | Def::Decl { .. } | Def::Extractor { .. } | Def::Rule { .. } => {
            Ok(())
        }
    }
}
