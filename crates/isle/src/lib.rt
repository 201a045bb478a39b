//! All of Dizmoket for users of a library: rule texts in, target programs and their text out. Each module hands on
//! calls of the crates below, whose own contracts hold here too.
#![tactic(auto)]

pub mod blocks;
pub mod codegen;
pub mod common;
pub mod outside;
pub mod preludes;
pub mod program;
pub mod runtime;
pub mod sema;
pub mod syntax;
pub mod target;
pub mod units;
