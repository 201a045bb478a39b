//! Rule texts as trees: definitions, patterns and expressions.
#![tactic(auto)]

mod tree;

pub use tree::{AstBody, AstExpr, AstFields, AstIfLet, AstLet, AstPattern, AstVariant, Def};
