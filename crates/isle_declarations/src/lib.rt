//! The declarations, external constructors, extractors, and rules among definitions, gathered and looked up by name;
//! the types and constants that each declares, and the terms that types make; and whether names repeat.
#![tactic(auto)]

mod collected;
mod declarations;
mod declared_types;
mod expr_interning;
mod first_places;
mod hashing;
mod interning;
mod made;
mod pattern_interning;
mod repeated_names;
mod rule_interning;
mod slots;
mod symbols;
mod tables;
mod terms;
mod text_interning;
mod type_interning;

pub use collected::{Extern, Extracting, ExtractorDef, KnownExtractor, RuleDef, Signature};
pub use declarations::Declarations;
pub use declared_types::{constant_of, type_of};
pub use made::made_each;
pub use repeated_names::repeats;
pub use symbols::Symbols;
pub use terms::{ArgTypes, Origin, TermDef, Terms, terms_of};
