//! What cases are, as they are read from data, and what they are compared with.
#![tactic(auto)]

pub mod case;
pub mod machine_rows;
pub mod parts;
pub mod report;
pub mod shown;
pub mod slip;
pub mod spelling;
pub mod tables;
pub mod tokens;
pub mod wanted;
pub mod words;
