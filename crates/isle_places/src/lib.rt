//! What a target program tells of its functions, its types, and the places in its functions.
#![tactic(auto)]

mod asked;
mod binding;
mod field_types;
mod fields;
mod numbered;
mod places;
mod placing;
mod signatures;
mod told;
mod types;

pub use asked::{Asked, struct_asked, takes_opaque, variant_asked};
pub use fields::FieldsByName;
pub use numbered::is_numbered;
pub use placing::push_places;
pub use signatures::{Signature, Signatures};
pub use types::Types;
