//! Target programs: their trees, what is well formed, and what a run does.
#![tactic(auto)]

mod callables;
mod callees;
mod distinct;
mod holds;
mod plain;
mod terms;
mod tree;
mod type_items;

pub use callables::Callables;
pub use callees::Callees;
pub use distinct::{are_apart, are_distinct, are_types_apart};
pub use holds::{Holds, Item};
pub use plain::is_plain;
pub use terms::Terms;
pub use tree::{
    Function, Operand, Program, Read, Stmt, TBind, TCall, TExpr, TFields, TPat, TraitFn, Ty,
    TypeBody, TypeItem,
};
pub use type_items::are_type_items;
