//! What a run has bound, called and given so far.

use crate::called::Calls;
use crate::holding::Holding;
use isle_core::Value;
use isle_scope::Table;

/// The locals that are bound, with what each holds, the calls made, and the results given in order.
#[derive(Drop)]
pub struct Frame<'a> {
    pub locals: Table<Holding>,
    pub calls: Calls<'a>,
    pub given: Vec<Value>,
}
