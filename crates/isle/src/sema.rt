//! From definitions to environments, and to rule sets of rules with which nothing is wrong: `overlap::check`. What the
//! definitions mean, and the table of what is wrong with them, stand in `docs/LANGUAGE.md`.

pub use isle_checks::{CheckError, overlap};
pub use isle_core::{
    BuiltinType, ConstructorKind, Expr, ExternalSig, ExtractorKind, Field, Fields, IfLet, IntType,
    LetBinding, Pattern, ReturnKind, Rule, Term, TermEnv, TermKind, TypeDef, TypeEnv, Variant,
};
pub use isle_sema::{EnvError, env_from_ast, term_env_from_ast, type_env_from_ast};
