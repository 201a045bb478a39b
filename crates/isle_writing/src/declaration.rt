//! Declarations of types and terms, of rule texts.

ghost use Rattle.std.specs.Prelude.{◌≡◌, ◌++◌, OnOk, string_bytes};
ghost use Rattle.isle_ast.specs.Views.{def};
ghost use Rattle.isle_writing.specs.Declaration.{IsDeclaration};
ghost use Rattle.isle_writing.specs.Text.{def_text, flags_text, marked_text, signature_text};

use crate::body::push_body;
use crate::word::{push_after, push_mark, push_spaced};
use isle_ast::{AstBody, Def};
use isle_core::Name;
use std::alloc::AllocError;

// Appends a type's marks and what it is, and the end of the line.
fn push_marked(
    text: &mut String,
    is_extern: bool,
    is_nodebug: bool,
    body: &AstBody,
) -> Result<(), AllocError>
    ensures { OnOk result
        (string_bytes text.new
        ≡ string_bytes text.old ++ marked_text is_extern is_nodebug body.now) }
{
    push_mark(text, is_extern, "extern")?;
    push_mark(text, is_nodebug, "nodebug")?;
    push_body(text, body)?;
    text.push_str(")\n")
}

// Appends the flags of a declaration, each before a blank.
fn push_flags(
    text: &mut String,
    pure: bool,
    multi: bool,
    partial: bool,
    recursive: bool,
) -> Result<(), AllocError>
    ensures { OnOk result
        (string_bytes text.new
        ≡ string_bytes text.old ++ flags_text pure multi partial recursive) }
{
    push_mark(text, pure, "pure")?;
    push_mark(text, multi, "multi")?;
    push_mark(text, partial, "partial")?;
    push_mark(text, recursive, "rec")
}

// Appends a declared term, its arguments and its result, and the end of the line.
fn push_signature(
    text: &mut String,
    term: &Name,
    args: &[Name],
    ret: &Name,
) -> Result<(), AllocError>
    ensures { OnOk result
        (string_bytes text.new
        ≡ string_bytes text.old ++ signature_text term.now args.now ret.now) }
{
    text.push_str(term.as_str())?;
    text.push_str(" (")?;
    push_spaced(text, "", args)?;
    push_after(text, ") ", ret)?;
    text.push_str(")\n")
}

/// Appends the declaration of a type or a term, on lines of its own. The only error is want of memory.
#[tactic(auto, unfolding(crate::specs::Text::def_text))]
pub fn push_declaration(text: &mut String, given: &Def<'_>) -> Result<(), AllocError>
    requires { IsDeclaration (def given.now) }
    ensures { OnOk result
        (string_bytes text.new ≡ string_bytes text.old ++ def_text (def given.now)) }
{
    match given {
        Def::TypeDecl {
            name,
            is_extern,
            is_nodebug,
            body,
            ..
        } => {
            push_after(text, "(type ", name)?;
            text.push_str(" ")?;
            push_marked(text, *is_extern, *is_nodebug, body)
        }
        Def::Decl {
            term,
            pure,
            multi,
            partial,
            recursive,
            args,
            ret,
            ..
        } => {
            text.push_str("(decl ")?;
            push_flags(text, *pure, *multi, *partial, *recursive)?;
            push_signature(text, term, args.as_slice(), ret)
        }
        Def::Extractor { .. }
        | Def::Rule { .. }
        | Def::ExternConstructor { .. }
        | Def::ExternExtractor { .. }
        | Def::ExternConst { .. }
        | Def::Converter { .. }
        | Def::Passed { .. } => Ok(()),
    }
}
