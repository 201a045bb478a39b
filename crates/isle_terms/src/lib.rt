//! The terms and converters that definitions declare, with types in them, and what may be wrong with their
//! declarations; and what may stand where a type is expected.
//! The variables of rules: those that patterns bind, and those of `let`s.
//! Parts of rules and of templates that are wrong, and how they are reported.
#![tactic(auto)]

mod converters;
mod counts;
mod culprit;
mod declaration_misfits;
mod elaborated_terms;
mod expected;
mod first_part;
mod flaw;
mod judged;
mod locals;
mod misfit;
mod named_types;
mod names;
mod new_variables;
mod part;
mod reduced;
mod term_fault;
mod variables;
mod words;

pub use converters::Converters;
pub use culprit::{rule_culprit, template_culprit};
pub use elaborated_terms::terms_of;
pub use expected::{takes_integers, takes_truths};
pub use first_part::{FirstPart, Side};
pub use flaw::{Breach, Culprit, Flaw};
pub use judged::Judged;
pub use locals::Locals;
pub use named_types::type_named;
pub use new_variables::{misses_variable, new_count};
pub use part::{Counts, Part, Thing};
pub use reduced::typed_integer;
pub use term_fault::check_terms;
pub use variables::{Variables, is_blank};
pub use words::push_culprit;
