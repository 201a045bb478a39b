//! A term's five calls, and where bindings are found, over a few rules.

ghost use Rattle.std.specs.Prelude.{◌≡◌, length, IfOk};

use isle_case_reading::shown::{digit, push_all, yes_no};
use isle_codegen::{Checked, check_files};
use isle_core::{
    Binding, BindingId, BuiltinType, ExternalSig, Files, List, OutOfMemory, ReturnKind, RuleSet,
    Term, TermKind, Text, TypeDef, TypeEnv, TypeId,
};
use std::alloc::{AllocError, Global};

/// The rules that the calls are made over.
const RULES: &str = "(decl partial f (u8) u8) (extern constructor f f) \
    (decl pure low (u8 u16) u32) (extern extractor infallible low low_parts) (extern constructor low low_of) \
    (decl even (u8) u8) (extern extractor even half) \
    (decl g (u32) u8) (rule 1 (g (low (even x) _)) 3) (rule 0 (g _) 4)";

// A list of one text.
fn one_text(alloc: Global, text: &str) -> Result<List<Text>, AllocError>
    ensures { IfOk result (λ texts. length texts ≡ 1) }
{
    let text = Text::copied(alloc, text)?;
    Ok(List::new(vec![in alloc; text]?))
}

// The file that holds the rules.
fn files(alloc: Global) -> Result<Files, AllocError>
    ensures { IfOk result (λ files. length files.file_texts ≡ length files.file_names) }
{
    let file_names = one_text(alloc, "a")?;
    Ok(Files {
        file_names,
        file_texts: one_text(alloc, RULES)?,
    })
}

// The name of a builtin type.
fn type_name(env: &TypeEnv, ty: TypeId) -> &str {
    match env.types.as_slice().get(ty.index()) {
        Some(TypeDef::Builtin(BuiltinType::Bool)) => "bool",
        Some(TypeDef::Builtin(BuiltinType::Int(int))) => int.name(),
        Some(TypeDef::Primitive { .. } | TypeDef::Enum { .. } | TypeDef::Struct { .. }) | None => {
            "?"
        }
    }
}

// Writes types between parentheses.
fn push_types(lines: &mut String, env: &TypeEnv, types: &[TypeId]) -> Result<(), AllocError> {
    lines.push_str("(")?;
    for ty in types {
        push_all(lines, &[" ", type_name(env, *ty)])?;
    }
    lines.push_str(" )")
}

// How often a function answers.
fn kind_name(kind: ReturnKind) -> &'static str {
    match kind {
        ReturnKind::Plain => "Plain",
        ReturnKind::Option => "Option",
        ReturnKind::Iterator => "Iterator",
    }
}

// Writes a signature and a line feed.
fn push_sig(lines: &mut String, env: &TypeEnv, sig: &ExternalSig) -> Result<(), AllocError> {
    let func = sig.func_name.as_str();
    push_all(lines, &[func, " ", sig.full_name.as_str(), " "])?;
    push_types(lines, env, sig.param_tys.as_slice())?;
    lines.push_str(" -> ")?;
    push_types(lines, env, sig.ret_tys.as_slice())?;
    push_all(lines, &[" ", kind_name(sig.ret_kind), "\n"])
}

// Writes the signature of one of a term's functions, if it has that function.
fn push_function(
    lines: &mut String,
    env: &TypeEnv,
    function: &str,
    sig: Result<Option<ExternalSig>, OutOfMemory>,
) -> Result<(), AllocError> {
    push_all(lines, &["  ", function, " "])?;
    match sig {
        Ok(Some(sig)) => push_sig(lines, env, &sig),
        Ok(None) => lines.push_str("none\n"),
        Err(_) => Err(AllocError),
    }
}

// Writes which functions of a term are external, and that it is marked `rec` or isn't.
fn push_marks(lines: &mut String, term: &Term) -> Result<(), AllocError> {
    lines.push_str(": external ")?;
    lines.push_str(yes_no(term.has_external_constructor()))?;
    lines.push_str(" ")?;
    lines.push_str(yes_no(term.has_external_extractor()))?;
    lines.push_str(", rec ")?;
    lines.push_str(yes_no(term.is_recursive()))?;
    lines.push_str("\n")
}

// Writes what a term has: its marks, and the signatures of its functions.
fn push_term(
    alloc: Global,
    lines: &mut String,
    env: &TypeEnv,
    term: &Term,
) -> Result<(), AllocError> {
    let TermKind::Decl { .. } = term.kind else {
        return Ok(());
    };
    lines.push_str(env.symbol(term.name))?;
    push_marks(lines, term)?;
    push_function(lines, env, "constructor", term.constructor_sig(alloc, env))?;
    push_function(lines, env, "extractor", term.extractor_sig(alloc, env))
}

// Writes a place, or that there is none, after a blank.
fn push_place(lines: &mut String, place: Option<BindingId>) -> Result<(), AllocError> {
    match place {
        Some(place) => push_all(lines, &[" ", digit(place.index())]),
        None => lines.push_str(" none"),
    }
}

// Writes where each binding of a rule set is found, and one that it hasn't.
fn push_bindings(lines: &mut String, set: &RuleSet) -> Result<(), AllocError> {
    lines.push_str("bindings at")?;
    for binding in set.bindings.as_slice() {
        push_place(lines, set.find_binding(binding))?;
    }
    push_place(lines, set.find_binding(&Binding::Argument { index: 1 }))?;
    lines.push_str("\n")
}

// Writes what the calls answer.
fn push_checked(alloc: Global, lines: &mut String, checked: &Checked) -> Result<(), AllocError> {
    for term in checked.termenv.terms.as_slice() {
        push_term(alloc, lines, &checked.typeenv, term)?;
    }
    for set in checked.terms.as_slice() {
        push_bindings(lines, &set.1)?;
    }
    Ok(())
}

/// Writes the lines of the terms and the rule sets.
pub fn push_signatures(alloc: Global, lines: &mut String) -> Result<(), AllocError> {
    let files = files(alloc)?;
    match check_files(alloc, &files) {
        Ok(checked) => push_checked(alloc, lines, &checked),
        Err(_) => lines.push_str("the rules are refused\n"),
    }
}
