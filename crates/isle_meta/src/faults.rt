//! Which shapes a row breaks.

ghost use Rattle.std.specs.Prelude.{◌≡◌, find};
ghost use Rattle.isle_meta.specs.FirstRow.{shapes};
ghost use Rattle.isle_meta.specs.Told.{told};

use crate::shapes::Shape;

/// Which shapes a row of a format or of an instruction breaks. The other shapes are those of other rows.
#[derive(Clone, Copy)]
pub struct Faults {
    pub bad_name: bool,
    pub repeated_name: bool,
    pub reserved_name: bool,
    pub ty_operand: bool,
    pub format_index: bool,
    pub value_count: bool,
    pub block_count: bool,
    pub raw_block_count: bool,
    pub imm_count: bool,
    pub imm_type: bool,
    pub imm_shape: bool,
    pub no_varargs: bool,
    pub no_typevar: bool,
}

/// Returns the first shape that is broken.
pub fn first_shape(faults: &Faults) -> Option<Shape>
    ensures { result ≡ find (told faults.now) shapes }
{
    if faults.bad_name {
        Some(Shape::BadName)
    } else if faults.repeated_name {
        Some(Shape::RepeatedName)
    } else if faults.reserved_name {
        Some(Shape::ReservedName)
    } else if faults.ty_operand {
        Some(Shape::TyOperand)
    } else if faults.format_index {
        Some(Shape::FormatIndex)
    } else if faults.value_count {
        Some(Shape::ValueCount)
    } else if faults.block_count {
        Some(Shape::BlockCount)
    } else if faults.raw_block_count {
        Some(Shape::RawBlockCount)
    } else if faults.imm_count {
        Some(Shape::ImmCount)
    } else if faults.imm_type {
        Some(Shape::ImmType)
    } else if faults.imm_shape {
        Some(Shape::ImmShape)
    } else if faults.no_varargs {
        Some(Shape::NoVarargs)
    } else if faults.no_typevar {
        Some(Shape::NoTypevar)
    } else {
        None
    }
}
