//! The first places of declarations, external constructors, extractors, and rules, by the numbers of their terms.

ghost use Rattle.std.specs.Prelude.{◌≡◌, IfOk, map};
ghost use Rattle.isle_declarations.specs.Collected.{AreAllNumbered};
ghost use Rattle.isle_declarations.specs.Tables.{declared_names, external_names, extracting_names};
ghost use Rattle.isle_declarations.specs.Tables.{ruled_names, HasFirsts};

use crate::collected::{Definitions, Extern, ExtractorDef, RuleDef, Signature};
use crate::first_places::{FirstPlaces, first_places};
use std::alloc::{AllocError, Global};

// The numbers of the names of declarations.
fn signature_numbers(alloc: Global, signatures: &[Signature]) -> Result<Vec<usize>, AllocError>
    ensures { IfOk result (λ numbers. numbers.items ≡ map (λ s. s.number) signatures.now) }
{
    let mut numbers = Vec::with_capacity(alloc, signatures.len())?;
    for signature in signatures {
        numbers.push(signature.number)?;
    }
    Ok(numbers)
}

// The numbers of the terms of external constructors.
fn extern_numbers(alloc: Global, externs: &[Extern]) -> Result<Vec<usize>, AllocError>
    ensures { IfOk result (λ numbers. numbers.items ≡ map (λ x. x.number) externs.now) }
{
    let mut numbers = Vec::with_capacity(alloc, externs.len())?;
    for given in externs {
        numbers.push(given.number)?;
    }
    Ok(numbers)
}

// The numbers of the terms of extractors.
fn extractor_numbers(alloc: Global, extractors: &[ExtractorDef]) -> Result<Vec<usize>, AllocError>
    ensures { IfOk result (λ numbers. numbers.items ≡ map (λ x. x.number) extractors.now) }
{
    let mut numbers = Vec::with_capacity(alloc, extractors.len())?;
    for given in extractors {
        numbers.push(given.number)?;
    }
    Ok(numbers)
}

// The numbers of the terms of rules.
fn rule_numbers(alloc: Global, rules: &[RuleDef]) -> Result<Vec<usize>, AllocError>
    ensures { IfOk result (λ numbers. numbers.items ≡ map (λ r. r.number) rules.now) }
{
    let mut numbers = Vec::with_capacity(alloc, rules.len())?;
    for rule in rules {
        numbers.push(rule.number)?;
    }
    Ok(numbers)
}

/// Returns the first places of declarations.
pub fn declared_places(alloc: Global, given: &Definitions) -> Result<FirstPlaces, AllocError>
    requires { AreAllNumbered given.now }
    ensures { IfOk result (λ found. HasFirsts given.now.symbols (declared_names given.now) found) }
{
    let numbers = signature_numbers(alloc, given.signatures.as_slice())?;
    first_places(alloc, given.symbols.len(), numbers.as_slice())
}

/// Returns the first places of external constructors.
pub fn external_places(alloc: Global, given: &Definitions) -> Result<FirstPlaces, AllocError>
    requires { AreAllNumbered given.now }
    ensures { IfOk result (λ found. HasFirsts given.now.symbols (external_names given.now) found) }
{
    let numbers = extern_numbers(alloc, given.externs.as_slice())?;
    first_places(alloc, given.symbols.len(), numbers.as_slice())
}

/// Returns the first places of extractors.
pub fn extracting_places(alloc: Global, given: &Definitions) -> Result<FirstPlaces, AllocError>
    requires { AreAllNumbered given.now }
    ensures { IfOk result (λ found.
        HasFirsts given.now.symbols (extracting_names given.now) found) }
{
    let numbers = extractor_numbers(alloc, given.extractors.as_slice())?;
    first_places(alloc, given.symbols.len(), numbers.as_slice())
}

/// Returns the first places of rules.
pub fn ruled_places(alloc: Global, given: &Definitions) -> Result<FirstPlaces, AllocError>
    requires { AreAllNumbered given.now }
    ensures { IfOk result (λ found. HasFirsts given.now.symbols (ruled_names given.now) found) }
{
    let numbers = rule_numbers(alloc, given.rules.as_slice())?;
    first_places(alloc, given.symbols.len(), numbers.as_slice())
}
