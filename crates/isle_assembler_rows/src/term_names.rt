//! The names of an instruction's terms.

ghost use Rattle.std.specs.Prelude.{◌≡◌, ◌++◌, IfOk, OnOk, string_bytes};
ghost use Rattle.std.specs.List.{flat_map};
ghost use Rattle.isle_assembler_rows.specs.Constructors.{constructors};
ghost use Rattle.isle_assembler_rows.specs.TermNames.{choice_term, choice_terms, constructor_terms};
ghost use Rattle.isle_assembler_rows.specs.TermNames.{is_left_out, made_term};
ghost use Rattle.isle_assembler_rows.specs.TermNames.{raw_term, row_terms};

use crate::constructor::Constructor;
use crate::constructors::constructors_of;
use isle_core::{List, Text};
use isle_meta::Inst;
use std::alloc::{AllocError, Global};

/// Appends the raw term of the instruction of this name. The only error is want of memory.
pub fn push_raw_term(text: &mut String, name: &str) -> Result<(), AllocError>
    ensures { OnOk result (string_bytes text.new ≡ string_bytes text.old ++ raw_term name.now) }
{
    text.push_str("x64_")?;
    text.push_str(name)?;
    text.push_str("_raw")
}

/// Appends the term of a constructor. The only error is want of memory.
pub fn push_made_term(text: &mut String, c: Constructor, name: &str) -> Result<(), AllocError>
    ensures { OnOk result
        (string_bytes text.new ≡ string_bytes text.old ++ made_term c name.now) }
{
    text.push_str("x64_")?;
    text.push_str(name)?;
    text.push_str(c.suffix())
}

/// Appends the term that takes an alternate where the feature is there. The only error is want of memory.
pub fn push_choice_term(
    text: &mut String,
    c: Constructor,
    name: &str,
    feature: &str,
) -> Result<(), AllocError>
    ensures { OnOk result
        (string_bytes text.new
        ≡ string_bytes text.old ++ choice_term c name.now feature.now) }
{
    push_made_term(text, c, name)?;
    text.push_str("_or_")?;
    text.push_str(feature)
}

/// Tells whether an instruction is left out.
pub fn is_left_out(inst: &Inst) -> bool
    ensures { result ≡ is_left_out inst.now }
{
    inst.mnemonic.as_str().starts_with("push")
}

// The raw term.
fn raw_term(alloc: Global, name: &str) -> Result<Text, AllocError>
    ensures { IfOk result (λ term. term ≡ raw_term name.now) }
{
    let mut text = String::new(alloc);
    push_raw_term(&mut text, name)?;
    Ok(Text::new(text))
}

// The term of a constructor.
fn made_term(alloc: Global, c: Constructor, name: &str) -> Result<Text, AllocError>
    ensures { IfOk result (λ term. term ≡ made_term c name.now) }
{
    let mut text = String::new(alloc);
    push_made_term(&mut text, c, name)?;
    Ok(Text::new(text))
}

// The term that takes an alternate.
fn choice_term(alloc: Global, c: Constructor, name: &str, feature: &str) -> Result<Text, AllocError>
    ensures { IfOk result (λ term. term ≡ choice_term c name.now feature.now) }
{
    let mut text = String::new(alloc);
    push_choice_term(&mut text, c, name, feature)?;
    Ok(Text::new(text))
}

// Puts the term that takes an alternate behind terms, if there is one.
fn push_choice(
    alloc: Global,
    terms: &mut Vec<Text>,
    c: Constructor,
    inst: &Inst,
) -> Result<(), AllocError>
    ensures { OnOk result
        (terms.new.items
        ≡ terms.old.items ++ choice_terms c inst.now.name inst.now.alternate) }
{
    if let Some(alternate) = inst.alternate.as_ref() {
        let name = inst.name.as_str();
        terms.push(choice_term(alloc, c, name, alternate.feature.as_str())?)?;
    }
    Ok(())
}

// Puts the terms of a constructor behind terms.
fn push_terms(
    alloc: Global,
    terms: &mut Vec<Text>,
    c: Constructor,
    inst: &Inst,
) -> Result<(), AllocError>
    ensures { OnOk result
        (terms.new.items ≡ terms.old.items ++ constructor_terms inst.now c) }
{
    terms.push(made_term(alloc, c, inst.name.as_str())?)?;
    push_choice(alloc, terms, c, inst)
}

// Puts the terms of all constructors behind terms.
fn push_all_terms(alloc: Global, terms: &mut Vec<Text>, inst: &Inst) -> Result<(), AllocError>
    ensures { OnOk result
        (terms.new.items
        ≡ terms.old.items ++ flat_map (constructor_terms inst.now) (constructors inst.now)) }
{
    let chosen = constructors_of(alloc, inst)?;
    if let Some(c) = chosen.outside {
        push_terms(alloc, terms, c, inst)?;
    }
    if chosen.in_memory {
        push_terms(alloc, terms, Constructor::RetMemorySideEffect, inst)?;
    }
    Ok(())
}

/// Gives all terms of an instruction. The only error is want of memory.
pub fn row_terms(alloc: Global, inst: &Inst) -> Result<List<Text>, AllocError>
    ensures { IfOk result (λ terms. terms ≡ row_terms inst.now) }
{
    let mut terms = Vec::new(alloc);
    if !is_left_out(inst) {
        terms.push(raw_term(alloc, inst.name.as_str())?)?;
        push_all_terms(alloc, &mut terms, inst)?;
    }
    Ok(List::new(terms))
}
