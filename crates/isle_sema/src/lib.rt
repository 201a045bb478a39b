//! From definitions to environments: symbols, types, terms and rules.
#![tactic(auto)]

mod conditions;
mod elaborated_exprs;
mod elaborated_patterns;
mod elaborated_rules;
mod expr_types;
mod fault;
mod judging;
mod known;
mod rows;
mod sides;
mod template_uses;
mod templates;
mod term_env;
mod typing;

pub use typing::{EnvError, env_from_ast, term_env_from_ast, type_env_from_ast};
