//! Texts, lists and boxes that contracts see as what they hold, and the numbers that stand for things.
#![tactic(auto)]

mod boxed;
mod ids;
mod list;
mod name;
mod text;

pub use boxed::Boxed;
pub use ids::{BindingId, FieldId, RuleId, Sym, TermId, TupleIndex, TypeId, VarId, VariantId};
pub use list::List;
pub use name::Name;
pub use text::Text;
