//! What users give a run: written values and answers, at the types of an environment.
#![tactic(auto)]

mod answer;
mod answer_types;
mod answers;
mod asked;
mod callees;
mod cases;
mod constant_types;
mod constants;
mod held;
mod made_value;
mod maker;
mod makers;
mod number;
mod places;
mod requested;
mod simple_value;
mod turns;
mod value;
mod values;

pub use answer_types::AnswerTypes;
pub use answers::answers_at;
pub use places::place_at;
pub use requested::requested_term;
pub use values::values_at;
