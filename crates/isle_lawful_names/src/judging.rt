//! All names, in order.

ghost use Rattle.std.specs.Prelude.{◌++◌, [], IfOk, IfErr};
ghost use Rattle.isle_core.specs.RuleViews.{environment};
ghost use Rattle.isle_lawful_names.specs.Claims.{claims};
ghost use Rattle.isle_lawful_names.specs.Judges.{Judges, declared_claims, IsTold};
ghost use Rattle.isle_lawful_names.specs.NameFault.{AreLawfulNames, IsNameFail};

use crate::constants::unlawful_constant;
use crate::files::unlawful_file;
use crate::name_error::{NameError, NameFail, NameUse};
use crate::ruled::is_ruled;
use crate::terms::unlawful_term;
use crate::types::unlawful_type;
use isle_core::{Files, TermEnv, Text, TypeEnv};
use std::alloc::{AllocError, Global};
use std::collections::BTreeSet;

// The first name of types, terms and constants that may not be emitted.
fn unlawful_declared<'a>(
    alloc: Global,
    typeenv: &'a TypeEnv,
    termenv: &TermEnv,
) -> Result<Option<(NameUse, &'a str)>, AllocError>
    ensures { IfOk result (λ found.
        Judges (environment typeenv.now termenv.now)
        (declared_claims (environment typeenv.now termenv.now)) found) }
{
    let mut names = BTreeSet::new(alloc);
    let found = unlawful_type(typeenv, is_ruled(termenv), &mut names)?;
    if found.is_some() {
        return Ok(found);
    }
    let found = unlawful_term(alloc, typeenv, termenv)?;
    if found.is_some() {
        return Ok(found);
    }
    Ok(unlawful_constant(typeenv, &names))
}

// The first name of all that may not be emitted.
fn first_unlawful<'a>(
    alloc: Global,
    files: &'a Files,
    typeenv: &'a TypeEnv,
    termenv: &TermEnv,
) -> Result<Option<(NameUse, &'a str)>, AllocError>
    ensures { IfOk result (λ found.
        Judges (environment typeenv.now termenv.now)
        (claims files.now.file_names (environment typeenv.now termenv.now)) found) }
{
    let found = unlawful_file(files.file_names.as_slice());
    if found.is_some() {
        return Ok(found);
    }
    unlawful_declared(alloc, typeenv, termenv)
}

// Reports that a name may not be emitted, or that there is no memory to say so.
fn refused(alloc: Global, usage: NameUse, name: &str) -> NameFail
    ensures { IsTold usage name.now result }
{
    match Text::copied(alloc, name) {
        Ok(name) => NameFail::Name(NameError { name, usage }),
        Err(_) => NameFail::Memory,
    }
}

/// Looks for names that may not be emitted: `Name` comes exactly if there is one, and reports the first, in the order
/// of files as printed, types with their variants and fields, terms with their external functions, and constants
/// (`specs/Claims.antt`); beside it only want of memory.
pub fn lawful_names(
    alloc: Global,
    files: &Files,
    typeenv: &TypeEnv,
    termenv: &TermEnv,
) -> Result<(), NameFail>
    ensures ok { IfOk result (λ done.
        AreLawfulNames files.now.file_names (environment typeenv.now termenv.now)) }
    ensures err { IfErr result (λ e.
        IsNameFail files.now.file_names (environment typeenv.now termenv.now) e) }
{
    match first_unlawful(alloc, files, typeenv, termenv) {
        Ok(None) => Ok(()),
        Ok(Some((usage, name))) => Err(refused(alloc, usage, name)),
        Err(_) => Err(NameFail::Memory),
    }
}
