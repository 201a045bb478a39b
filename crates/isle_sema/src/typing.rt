ghost use Rattle.std.specs.Prelude.{◌≡◌, None, IfOk, IfErr, map};
ghost use Rattle.isle_core.specs.RuleViews.{environment};
ghost use Rattle.isle_ast.specs.Views.{defs as seen};
ghost use Rattle.isle_declarations.specs.DeclaredTypes.{made_of};
ghost use Rattle.isle_types.specs.Fault.{type_fault};
ghost use Rattle.isle_types.specs.Gathered.{IsBefore};
ghost use Rattle.isle_types.specs.TypeEnvironment.{type_env_of};
ghost use Rattle.isle_sema.specs.Typing.{TypesFrom, TypedOnly, fault, IsUntyped};

use crate::term_env::term_env;
use isle_ast::Def;
use isle_core::{Error, List, OutOfMemory, TermEnv, Text, TypeEnv};
use isle_declarations::{Declarations, made_each};
use isle_types::{Before, check_types, type_env};
use std::alloc::{AllocError, Global};

/// Why definitions give no environment.
#[derive(Debug, Drop)]
pub enum EnvError {
    /// The first that is wrong, of types and constants, then of declarations, of extractors and of rules, by the lowest
    /// row that it breaks.
    Typing(Error),
    Memory,
}

impl From<AllocError> for EnvError {
    ghost use Rattle.std.specs.Prelude.{◌≡◌};
    ghost use Rattle.isle_sema.specs.declared.typing.EnvError.TheVariants.{Memory};

    ghost from_gives = { λ _ e. e ≡ Memory };

    fn from(_: AllocError) -> Self {
        EnvError::Memory
    }
}

impl From<OutOfMemory> for EnvError {
    ghost use Rattle.std.specs.Prelude.{◌≡◌};
    ghost use Rattle.isle_sema.specs.declared.typing.EnvError.TheVariants.{Memory};

    ghost from_gives = { λ _ e. e ≡ Memory };

    fn from(_: OutOfMemory) -> Self {
        EnvError::Memory
    }
}

// The types and constants of definitions that declare this.
fn built_types<'k, 'b, 'd>(
    alloc: Global,
    declarations: &'k Declarations<'b, 'd>,
    before: &'k Before<'b>,
) -> Result<TypeEnv, EnvError>
    requires sound { type_fault (seen declarations.now) ≡ None }
    requires before { IsBefore (seen declarations.now) before.now }
    ensures ok { IfOk result (λ env. TypesFrom (seen declarations.now) env) }
    ensures err { IfErr result (λ e. IsUntyped (type_fault (seen declarations.now)) e) }
{
    Ok(type_env(alloc, declarations, before)?)
}

// The environment of definitions that declare this.
fn built_env<'b, 'd>(
    alloc: Global,
    declarations: &Declarations<'b, 'd>,
    before: &Before<'b>,
    made: &'b [List<Text>],
) -> Result<(TypeEnv, TermEnv), EnvError>
    requires sound { type_fault (seen declarations.now) ≡ None }
    requires before { IsBefore (seen declarations.now) before.now }
    requires made { made.now ≡ map made_of (seen declarations.now) }
    ensures ok { IfOk result (λ envs.
        TypedOnly (seen declarations.now) (environment envs.0 envs.1)) }
    ensures err { IfErr result (λ e. IsUntyped (fault (seen declarations.now)) e) }
{
    let types = type_env(alloc, declarations, before)?;
    let terms = term_env(alloc, declarations, before, &types, made)?;
    Ok((types, terms))
}

// What definitions declare, whose types make these terms, if no type and no constant is wrong.
fn gathered<'b, 'd>(
    alloc: Global,
    defs: &'b [Def<'d>],
    made: &'b [List<Text>],
) -> Result<(Declarations<'b, 'd>, Before<'b>), EnvError>
    requires { made.now ≡ map made_of (seen defs.now) }
    ensures declarations { IfOk result (λ found. found.0 ≡ defs.now) }
    ensures sound { IfOk result (λ found. type_fault (seen found.0) ≡ None) }
    ensures before { IfOk result (λ found. IsBefore (seen found.0) found.1) }
    ensures made { IfOk result (λ found. made.now ≡ map made_of (seen found.0)) }
    ensures no_types { IfErr result (λ e. IsUntyped (type_fault (seen defs.now)) e) }
    ensures no_terms { IfErr result (λ e. IsUntyped (fault (seen defs.now)) e) }
{
    match check_types(alloc, defs, made)? {
        Ok(before) => Ok((Declarations::gather(alloc, defs, made)?, before)),
        Err(error) => Err(EnvError::Typing(error)),
    }
}

/// Types the definitions' symbols, types and constants, of all forms (`specs/Typing.antt`). `Typing` comes exactly
/// if one of their types or constants is wrong, and reports the first by the lowest row that it breaks; beside it only
/// want of memory.
pub fn type_env_from_ast(alloc: Global, defs: &[Def]) -> Result<TypeEnv, EnvError>
    ensures ok { IfOk result (λ env. TypesFrom (seen defs.now) env) }
    ensures err { IfErr result (λ e. IsUntyped (type_fault (seen defs.now)) e) }
{
    let made = made_each(alloc, defs)?;
    let found = gathered(alloc, defs, made.as_slice())?;
    built_types(alloc, &found.0, &found.1)
}

/// Types the terms, rules and converters of the definitions, whose types are given (`specs/Typing.antt`). `Typing`
/// comes exactly if a declaration, what names its term, a converter or a rule's head is wrong, or else an extractor,
/// or else a rule; it reports the first by the lowest row that it breaks. Beside it only want of memory.
pub fn term_env_from_ast(alloc: Global, env: &TypeEnv, defs: &[Def]) -> Result<TermEnv, EnvError>
    requires { TypesFrom (seen defs.now) env.now }
    ensures ok { IfOk result (λ terms. TypedOnly (seen defs.now) (environment env.now terms)) }
    ensures err { IfErr result (λ e. IsUntyped (fault (seen defs.now)) e) }
{
    let made = made_each(alloc, defs)?;
    let found = gathered(alloc, defs, made.as_slice())?;
    term_env(alloc, &found.0, &found.1, env, made.as_slice())
}

/// Types the definitions: returns their environment, as `type_env_from_ast` and `term_env_from_ast` give it, with types
/// and constants judged, and names gathered, once for both. The errors are theirs.
pub fn env_from_ast(alloc: Global, defs: &[Def]) -> Result<(TypeEnv, TermEnv), EnvError>
    ensures ok { IfOk result (λ envs. TypedOnly (seen defs.now) (environment envs.0 envs.1)) }
    ensures err { IfErr result (λ e. IsUntyped (fault (seen defs.now)) e) }
{
    let made = made_each(alloc, defs)?;
    let found = gathered(alloc, defs, made.as_slice())?;
    built_env(alloc, &found.0, &found.1, made.as_slice())
}
