//! The closed parts of target text: identifiers, numbers, and what every program holds.
#![tactic(auto)]

mod fixed;
mod identifier;
mod literal;
mod named;
mod names;
mod raw;

pub use fixed::{print_allow, print_fixed, print_uses};
pub use identifier::{are_identifiers, is_among, is_identifier};
pub use literal::{print_literal, rust_int_literal};
pub use named::{is_field_name, is_name};
pub use names::{are_word_bytes, int_type_named, is_same};
pub use raw::print_raw;
