//! Numbers as literals of the target.

use isle_core::IntType;
use isle_target::rust_int_literal;
use std::alloc::{AllocError, Global};

/// Numbers that don't lie in their types, or stand at their ends.
const NUMBERS: [(IntType, i128); 4] = [
    (IntType::U8, -2),
    (IntType::I8, 255),
    (IntType::I64, i64::MIN as i128),
    (IntType::U128, -1),
];

// Writes a number, wrapped to its type.
fn push_literal(
    alloc: Global,
    lines: &mut String,
    ty: IntType,
    val: i128,
) -> Result<(), AllocError> {
    lines.push_str(" ")?;
    match rust_int_literal(alloc, ty, val) {
        Ok(literal) => lines.push_str(literal.as_str()),
        Err(_) => Err(AllocError),
    }
}

/// Writes a line of numbers.
pub fn push_literals(alloc: Global, lines: &mut String) -> Result<(), AllocError> {
    lines.push_str("literals")?;
    for number in &NUMBERS {
        push_literal(alloc, lines, number.0, number.1)?;
    }
    lines.push_str("\n")
}
