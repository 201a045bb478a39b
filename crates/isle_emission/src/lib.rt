//! From blocks to functions of a target program.
#![tactic(auto)]

mod bound;
mod called;
mod calls;
mod closures;
mod computed;
mod emit;
mod emitter;
mod filling;
mod lets;
mod made;
mod operands;
mod patterns;
mod root;
mod sources;
mod statements;
mod stops;
mod tests;
mod told;
mod weight;

pub use emit::{emit_term, term_function};
pub use isle_operands::ConstTypes;
pub use sources::Sources;
pub use weight::block_weight;
