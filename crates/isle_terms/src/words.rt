//! What is wrong with a part of a template or a rule, in words for the user: no clause speaks of them.

use crate::flaw::{Culprit, Flaw};
use crate::part::{Part, Thing};
use isle_core::{BuiltinType, Name, OutOfMemory, TypeDef, TypeEnv, TypeId};
use isle_types::{push_name, told};
use std::alloc::Global;

/// What is said of a name that is not declared.
const UNDECLARED: &str = " is not declared";

/// What is said of a part that is not converted.
const UNFIT: &str = ", and no converter fits";

// Adds a type's name in quotes, or that there is none.
fn push_type(words: &mut String, types: &TypeEnv, ty: Option<TypeId>) -> Result<(), OutOfMemory> {
    let Some(ty) = ty else {
        words.push_str("no type")?;
        return Ok(());
    };
    words.push('\'')?;
    match types.types.as_slice().get(ty.index()) {
        Some(TypeDef::Builtin(BuiltinType::Bool)) => words.push_str("bool")?,
        Some(TypeDef::Builtin(BuiltinType::Int(int))) => words.push_str(int.name())?,
        Some(TypeDef::Primitive { name, .. })
        | Some(TypeDef::Enum { name, .. })
        | Some(TypeDef::Struct { name, .. }) => {
            if let Some(name) = types.syms.as_slice().get(name.index()) {
                push_name(words, name.as_str())?;
            }
        }
        None => {}
    }
    words.push('\'')?;
    Ok(())
}

// Adds what a part is.
fn push_thing(
    alloc: Global,
    words: &mut String,
    types: &TypeEnv,
    part: &Part,
) -> Result<(), OutOfMemory> {
    let (before, name) = match part.thing {
        Thing::Parameter(name) => ("the parameter '", name),
        Thing::Variable(name) => ("the variable '", name),
        Thing::Constant(name) => ("the constant '$", name),
        Thing::Term(name) => ("the term '", name),
        Thing::Type(name) => ("the type '", name),
        Thing::Integer(n) => {
            words.push_str(format!(in alloc; "the integer {n}")?.as_str())?;
            return Ok(());
        }
        Thing::Truth(b) => {
            words.push_str(if b { "'true'" } else { "'false'" })?;
            return Ok(());
        }
        Thing::Converter(of) => {
            words.push_str("the converter from ")?;
            push_type(words, types, of)?;
            words.push_str(" to ")?;
            return push_type(words, types, part.expected);
        }
    };
    words.push_str(told(alloc, before, name.as_str(), "'")?.as_str())?;
    Ok(())
}

// Adds that a variable or a term is not there, and what may be meant: a term without its parentheses, or conditions
// after which no right side stands.
fn push_unknown(words: &mut String, thing: Thing) -> Result<(), OutOfMemory> {
    match thing {
        Thing::Variable(name) => {
            words.push_str(" is not bound; a term of this name is called as (")?;
            push_name(words, name.as_str())?;
            words.push_str(" ..)")?;
        }
        Thing::Term(name) if matches!(name.as_str(), "if" | "if-let") => {
            words.push_str(UNDECLARED)?;
            words.push_str("; a rule ends with its right side, behind its conditions")?;
        }
        Thing::Term(_)
        | Thing::Parameter(_)
        | Thing::Integer(_)
        | Thing::Truth(_)
        | Thing::Constant(_)
        | Thing::Converter(_)
        | Thing::Type(_) => words.push_str(UNDECLARED)?,
    }
    Ok(())
}

// Adds what is wrong with a variable or a term that is used in this place, and may lack this.
fn push_use(
    alloc: Global,
    words: &mut String,
    part: &Part,
    place: &str,
    lacks: &str,
) -> Result<(), OutOfMemory> {
    let Some(counts) = part.counts else {
        return push_unknown(words, part.thing);
    };
    let given = counts.given;
    let wanted = counts.wanted;
    if given == wanted {
        words.push_str(lacks)?;
        return Ok(());
    }
    let plural = if wanted == 1 { "" } else { "s" };
    let told = format!(in alloc; "{place} takes {wanted} argument{plural}, given {given}")?;
    words.push_str(told.as_str())?;
    Ok(())
}

// Adds that a type is not declared, or else which type a part has, which one is expected, and what is to be said
// after.
fn push_mismatch(
    words: &mut String,
    types: &TypeEnv,
    part: &Part,
    behind: &str,
) -> Result<(), OutOfMemory> {
    if matches!(part.thing, Thing::Type(_)) {
        words.push_str(UNDECLARED)?;
        return Ok(());
    }
    words.push_str(" has type ")?;
    push_type(words, types, part.found)?;
    words.push_str(", expected ")?;
    push_type(words, types, part.expected)?;
    words.push_str(behind)?;
    Ok(())
}

/// Adds the part that breaks a row of an extractor or a rule of this term, and what is wrong with it.
pub fn push_culprit(
    alloc: Global,
    words: &mut String,
    types: &TypeEnv,
    term: &Name,
    culprit: &Culprit,
) -> Result<(), OutOfMemory> {
    let part = &culprit.part;
    if let Flaw::InCondition = culprit.flaw {
        words.push_str("a condition calls ")?;
    }
    push_thing(alloc, words, types, part)?;
    match culprit.flaw {
        Flaw::NoParameter => words.push_str(" is no parameter")?,
        Flaw::LeftOut => words.push_str(" stands nowhere in the template")?,
        Flaw::Head => push_use(alloc, words, part, " in the head", "")?,
        Flaw::Untaken => push_use(alloc, words, part, " in a pattern", " has no extractor")?,
        Flaw::Mistaken => {
            let converts = matches!(part.thing, Thing::Term(_));
            push_mismatch(words, types, part, if converts { UNFIT } else { "" })?;
        }
        Flaw::Mistyped => push_mismatch(words, types, part, UNFIT)?,
        Flaw::MetOtherwise => push_mismatch(words, types, part, " where it stands again")?,
        Flaw::Misplaced => {
            words.push_str(" stands where ")?;
            push_type(words, types, part.expected)?;
            words.push_str(" is expected")?;
        }
        Flaw::Undeclared => words.push_str(UNDECLARED)?,
        Flaw::Unknown => push_use(alloc, words, part, "", " has no constructor")?,
        Flaw::InCondition => words.push_str(", which is not pure")?,
        Flaw::Partial => {
            words.push_str(told(alloc, " is partial, and '", term.as_str(), "' is not")?.as_str())?;
        }
        Flaw::Impure => {
            words.push_str(told(alloc, " is not pure, and '", term.as_str(), "' is")?.as_str())?;
        }
        Flaw::Multi => {
            words.push_str(told(alloc, " is multi, and '", term.as_str(), "' is not")?.as_str())?;
        }
        Flaw::MultiTaken => {
            words.push_str(told(
                alloc,
                " is multi in a pattern, and '",
                term.as_str(),
                "' is not",
            )?
            .as_str())?;
        }
    }
    Ok(())
}
