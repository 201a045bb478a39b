//! Definitions of rule texts.

ghost use Rattle.std.specs.Prelude.{◌≡◌, ◌++◌, OnOk, string_bytes};
ghost use Rattle.isle_ast.specs.Views.{def, pattern};
ghost use Rattle.isle_writing.specs.Text.{def_text, template_text};

use crate::declaration::push_declaration;
use crate::link::push_link;
use crate::pattern::push_pattern;
use crate::rule::{push_conclusion, push_parts, push_prio, push_rule_name};
use crate::word::{push_after, push_spaced};
use isle_ast::{AstPattern, Def};
use isle_core::Name;
use std::alloc::AllocError;

// Appends what an extractor stands for, and the end of the line.
fn push_template(
    text: &mut String,
    params: &[Name],
    template: &AstPattern<'_>,
) -> Result<(), AllocError>
    ensures { OnOk result
        (string_bytes text.new
        ≡ string_bytes text.old ++ template_text params.now (pattern template.now)) }
{
    push_spaced(text, " ", params)?;
    text.push_str(") ")?;
    push_pattern(text, template)?;
    text.push_str(")\n")
}

/// Appends a definition, on lines of its own. Its place is not written, nor what stands in a list that is passed
/// over. The only error is want of memory.
#[tactic(auto, unfolding(crate::specs::Text::def_text))]
pub fn push_def(text: &mut String, given: &Def<'_>) -> Result<(), AllocError>
    ensures { OnOk result
        (string_bytes text.new ≡ string_bytes text.old ++ def_text (def given.now)) }
{
    match given {
        Def::TypeDecl { .. } | Def::Decl { .. } => push_declaration(text, given),
        Def::Extractor {
            term,
            params,
            template,
            ..
        } => {
            push_after(text, "(extractor (", term)?;
            push_template(text, params.as_slice(), template)
        }
        Def::Rule {
            name,
            prio,
            term,
            args,
            iflets,
            rhs,
            ..
        } => {
            text.push_str("(rule ")?;
            push_rule_name(text, name)?;
            push_prio(text, *prio)?;
            push_parts(text, term, args.as_slice())?;
            push_conclusion(text, iflets.as_slice(), rhs)
        }
        Def::ExternConstructor { .. }
        | Def::ExternExtractor { .. }
        | Def::ExternConst { .. }
        | Def::Converter { .. }
        | Def::Passed { .. } => push_link(text, given),
    }
}
