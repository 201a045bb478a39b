//! Operations: rows of which texts are generated.

use crate::operand::Operand;
use isle_core::{List, Name};

/// A row that isn't skipped: its name in words, its name in one, and its operands.
#[derive(Debug, Drop)]
pub struct Operation<'t> {
    pub snake: Name<'t>,
    pub name: Name<'t>,
    pub operands: List<Operand<'t>>,
}
