//! Target programs judged: which are well formed, and so can be printed and run.
#![tactic(auto)]

mod binding;
mod fits;
mod holding;
mod names;
mod patterns;
mod scoped;
mod shapes;
mod trait_fns;
mod well_formedness;

pub use well_formedness::well_formed;
