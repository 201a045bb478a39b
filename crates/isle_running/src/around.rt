//! What a function runs in.

use isle_core::Value;
use isle_tree::{Function, Program};

/// The program, the function of it that runs, its arguments, and how long its list of results is at entry.
#[derive(Drop)]
pub struct Around<'a> {
    pub program: &'a Program,
    pub function: &'a Function,
    pub args: &'a [Value],
    pub held: usize,
}
