//! What stands for the values of bindings, and how it is read.
#![tactic(auto)]

mod constants;
mod context;
mod externals;
mod forms;
mod lists;
mod operands;
mod references;
mod signature;
mod typed;
mod types;

pub use constants::ConstTypes;
pub use context::Context;
pub use externals::trait_fns;
pub use forms::{Form, field_at, struct_form, variant_form};
pub use isle_core::{field_count, kind_of};
pub use lists::{binds_list, looped_local};
pub use operands::{in_place, is_bound, operand_of, tested};
pub use references::{is_declared, is_reference, read_as};
pub use signature::{is_by_ref, params, sym_name, ty_name, ty_names};
pub use typed::Typed;
pub use types::{binding_types, one_result};
