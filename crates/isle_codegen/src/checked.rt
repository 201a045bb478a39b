ghost use Rattle.std.specs.Prelude.{◌≡◌, ◌⊎◌, List as ListOf, [], ◌∷◌, length, IfOk, IfErr};
ghost use Rattle.isle_core.specs.declared.files.Files.{Files as TheFiles};
ghost use Rattle.isle_core.specs.RuleViews.{environment};
ghost use Rattle.isle_ast.specs.Tree.{Def as Defs};
ghost use Rattle.isle_ast.specs.Views.{defs as seen};
ghost use Rattle.isle_sema.specs.Typing.{fault, IsUntyped};
ghost use Rattle.isle_rulesets.specs.Grouping.{AreRuleSets};
ghost use Rattle.isle_codegen.specs.Emission.{ArePlaced, DefsArePlaced};
ghost use Rattle.isle_codegen.specs.Checked.{IsChecked};
ghost use Rattle.isle_codegen.specs.LawfulEnvironment.{IsLawfulEnvironment};
ghost use Rattle.isle_codegen.specs.Causes.{IsTextRefusal, IsUncompiled, of_check};

use crate::compile_error::CompileError;
use crate::source::parse_files;
use isle_ast::Def;
use isle_checks::{CheckError, overlap, recursion};
use isle_core::{Error, Files, List, RuleSet, TermEnv, TermId, TypeEnv};
use isle_lawful_names::{NameFail, lawful_names};
use isle_sema::{EnvError, env_from_ast};
use std::alloc::Global;

/// The environment of definitions that may be compiled.
#[derive(Debug, Drop)]
pub struct Checked {
    pub typeenv: TypeEnv,
    pub termenv: TermEnv,
    /// The terms with rules, in order of ids, each with the rule set of its rules.
    pub terms: List<(TermId, RuleSet)>,
}

/// Checks the definitions that the files' texts spell, in order, and returns their environment (`specs/Checked.antt`).
/// There are as many names as texts. `Errors` and `Name` come exactly if they do for these definitions
/// (`check_defs`), and `Errors` also if a text spells none; beside these only want of memory.
pub fn check_files(alloc: Global, files: &Files) -> Result<Checked, CompileError>
    requires count { length files.now.file_texts ≡ length files.now.file_names }
    ensures ok { IfOk result (λ c. IsChecked files.now (environment c.typeenv c.termenv)) }
    ensures terms { IfOk result (λ c. AreRuleSets (environment c.typeenv c.termenv) c.terms) }
    ensures err { IfErr result (λ e. IsTextRefusal e files.now) }
{
    let defs = match parse_files(alloc, files) {
        Ok(defs) => defs,
        Err(fail) => return Err(fail),
    };
    match check_defs(alloc, files, defs.as_slice()) {
        Ok(checked) => Ok(checked),
        Err(fail) => Err(fail),
    }
}

/// Checks definitions that stand in the files: their typing, then their rules, then terms that use themselves, then
/// names. The first check that finds anything refuses them. `Errors` reports the one fault of typing, or all errors of
/// the one check; `Name` the first name of the files and the definitions that may not be emitted (`specs/Causes.antt`,
/// `specs/Errors.antt`); beside these only want of memory.
pub fn check_defs(alloc: Global, files: &Files, defs: &[Def]) -> Result<Checked, CompileError>
    requires { DefsArePlaced files.now (seen defs.now) }
    ensures lawful { let names = files.now.file_names in
        IfOk result (λ c.
        IsLawfulEnvironment names (seen defs.now) (environment c.typeenv c.termenv)) }
    ensures places { IfOk result (λ c. ArePlaced files.now (environment c.typeenv c.termenv)) }
    ensures terms { IfOk result (λ c. AreRuleSets (environment c.typeenv c.termenv) c.terms) }
    ensures err { IfErr result (λ e. IsUncompiled e files.now (seen defs.now)) }
{
    let (typeenv, termenv) = match env_from_ast(alloc, defs) {
        Ok(envs) => envs,
        Err(fail) => return Err(untyped(alloc, fail)),
    };
    let terms = match overlap::check_named(alloc, &typeenv, &termenv) {
        Ok(terms) => terms,
        Err(fail) => return Err(wrong(fail)),
    };
    match recursion::check(alloc, terms.as_slice(), &termenv) {
        Ok(()) => {}
        Err(fail) => return Err(wrong(fail)),
    }
    match lawful_names(alloc, files, &typeenv, &termenv) {
        Ok(()) => Ok(Checked {
            typeenv,
            termenv,
            terms: List::new(terms),
        }),
        Err(NameFail::Name(name)) => Err(CompileError::Name(name)),
        Err(NameFail::Memory) => Err(CompileError::Memory),
    }
}

// What a check of rules found.
fn wrong(fail: CheckError) -> CompileError
    ensures { result ≡ of_check fail }
{
    match fail {
        CheckError::Rules(errors) => CompileError::Errors(errors),
        CheckError::Memory => CompileError::Memory,
    }
}

// The one error, if memory holds a list of it.
fn told_alone(alloc: Global, error: Error) -> CompileError
    ensures { (result ≡ CompileError.Memory) ⊎ (result ≡ CompileError.Errors (error ∷ [])) }
{
    match vec![in alloc; error] {
        Ok(errors) => CompileError::Errors(List::new(errors)),
        Err(_) => CompileError::Memory,
    }
}

// Why definitions that have no environment can't be compiled.
fn untyped(alloc: Global, fail: EnvError) -> CompileError
    ensures { (files : TheFiles) (defs : ListOf Defs) → DefsArePlaced files defs
        → IsUntyped (fault defs) fail → IsUncompiled result files defs }
{
    match fail {
        EnvError::Typing(error) => told_alone(alloc, error),
        EnvError::Memory => CompileError::Memory,
    }
}
