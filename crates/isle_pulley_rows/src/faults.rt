//! Which shapes a row breaks.

ghost use Rattle.std.specs.Prelude.{◌≡◌, find};
ghost use Rattle.isle_meta.specs.FirstRow.{shapes};
ghost use Rattle.isle_pulley_rows.specs.Told.{told};

use isle_meta::Shape;

/// Which shapes a row breaks. The other shapes are those of other tables.
#[derive(Clone, Copy)]
pub struct Faults {
    pub bad_name: bool,
    pub repeated_name: bool,
    pub binary_operands: bool,
    pub results: bool,
    pub field_type: bool,
}

/// Returns the first shape that is broken.
pub fn first_shape(faults: &Faults) -> Option<Shape>
    ensures { result ≡ find (told faults.now) shapes }
{
    if faults.bad_name {
        Some(Shape::BadName)
    } else if faults.repeated_name {
        Some(Shape::RepeatedName)
    } else if faults.binary_operands {
        Some(Shape::BinaryOperands)
    } else if faults.results {
        Some(Shape::Results)
    } else if faults.field_type {
        Some(Shape::FieldType)
    } else {
        None
    }
}
