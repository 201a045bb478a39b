//! Templates: what stands for the internal extractors that patterns use, and how a rule's variables are numbered after
//! it.
//! Which terms are `multi` where a pattern uses them, with templates replaced.
#![tactic(auto)]

mod conditions;
mod copies;
mod counted;
mod counting;
mod expansion;
mod expr_nodes;
mod filling;
mod keeping;
mod known;
mod levels;
mod multi;
mod multi_uses;
mod occurrences;
mod order;
mod renaming;
mod renumbering;
mod rules;
mod template;
mod templates;
mod uses;
mod variables;
mod whole_nodes;

pub use copies::copied_at;
pub use multi::multi_extractors;
pub use multi_uses::marked;
pub use rules::elaborated;
pub use templates::{Templates, whole_templates};
