//! The shapes that rows break.

ghost use Rattle.std.specs.Prelude.{◌≡◌, ◌↔◌, ◌++◌, List, ℕ, IfOk, IsTrue};
ghost use Rattle.std.specs.List.{list_any};
ghost use Rattle.isle_meta.specs.declared.pulley.PulleyInst.{PulleyInst as Row};
ghost use Rattle.isle_meta.specs.TableNames.{repeats, repeats_after};
ghost use Rattle.isle_pulley_rows.specs.Names.{operand_names as names_in};
ghost use Rattle.isle_pulley_rows.specs.Operands.{operands as operands_of};
ghost use Rattle.isle_pulley_rows.specs.PulleyRow.{BadName, BinaryOperands, FieldType, Results};
ghost use Rattle.isle_pulley_rows.specs.PulleyRow.{all_terms, row_terms};
ghost use Rattle.isle_pulley_rows.specs.PulleyRow.{field_names as names_of_fields, is_misnamed};
ghost use Rattle.isle_pulley_rows.specs.PulleyRow.{repeats_part};
ghost use Rattle.isle_pulley_rows.specs.PulleyRows.{PulleyBreaks};
ghost use Rattle.isle_pulley_rows.specs.Told.{Tells};

use crate::answers::results;
use crate::binary::binary;
use crate::faults::Faults;
use crate::fields::{is_skipped, operands};
use crate::names::{field_names, operand_names, operand_types, row_names};
use crate::operand::Operand;
use isle_core::Text;
use isle_meta::{PulleyInst, are_all_identifiers, has_repeat};
use std::alloc::{AllocError, Global};

// Whether one of its names is no identifier.
fn has_bad_name(alloc: Global, row: &PulleyInst) -> Result<bool, AllocError>
    ensures { IfOk result (λ bad. IsTrue bad ↔ BadName row.now) }
{
    let names = row_names(alloc, row)?;
    let lawful = are_all_identifiers(names.as_slice());
    Ok(!lawful)
}

// Whether two of the fields have one name.
fn repeats_field(alloc: Global, fields: &[(Text, Text)]) -> Result<bool, AllocError>
    ensures { IfOk result (λ found. found ≡ repeats (names_of_fields fields.now)) }
{
    let names = field_names(alloc, fields)?;
    has_repeat(alloc, names.as_slice())
}

// Whether two of the operands have one name.
fn repeats_operand(alloc: Global, given: &[Operand<'_>]) -> Result<bool, AllocError>
    ensures { IfOk result (λ found. found ≡ repeats (names_in given.now)) }
{
    let names = operand_names(alloc, given)?;
    has_repeat(alloc, names.as_slice())
}

// Whether two of the row's fields or operands have one name.
fn repeats_part(alloc: Global, row: &PulleyInst, given: &[Operand<'_>]) -> Result<bool, AllocError>
    requires { given.now ≡ operands_of row.now }
    ensures { IfOk result (λ found. found ≡ repeats_part row.now) }
{
    let field = repeats_field(alloc, row.fields.as_slice())?;
    let operand = repeats_operand(alloc, given)?;
    Ok(field | operand)
}

// Whether a field that is named as binary operands has another type.
fn is_misnamed(field: &(Text, Text)) -> bool
    ensures { result ≡ is_misnamed field.now }
{
    if field.0.as_str() != "operands" {
        return false;
    }
    binary(field.1.as_str()).is_none()
}

// Whether one of the fields is so.
fn has_misnamed(fields: &[(Text, Text)]) -> bool
    ensures { result ≡ list_any is_misnamed fields.now }
{
    for field in fields {
        if is_misnamed(field) {
            return true;
        }
    }
    false
}

// Whether its field of binary operands has another type.
fn breaks_binary(row: &PulleyInst) -> bool
    ensures { IsTrue result ↔ BinaryOperands row.now }
{
    if is_skipped(row) {
        return false;
    }
    has_misnamed(row.fields.as_slice())
}

// Whether it has more than two results.
fn breaks_results(
    alloc: Global,
    row: &PulleyInst,
    given: &[Operand<'_>],
) -> Result<bool, AllocError>
    requires { given.now ≡ operands_of row.now }
    ensures { IfOk result (λ bad. IsTrue bad ↔ Results row.now) }
{
    if is_skipped(row) {
        return Ok(false);
    }
    let types = results(alloc, given)?;
    Ok(types.len() > 2)
}

// Whether the type of one of its operands is no identifier.
fn breaks_types(alloc: Global, row: &PulleyInst, given: &[Operand<'_>]) -> Result<bool, AllocError>
    requires { given.now ≡ operands_of row.now }
    ensures { IfOk result (λ bad. IsTrue bad ↔ FieldType row.now) }
{
    if is_skipped(row) {
        return Ok(false);
    }
    let types = operand_types(alloc, given)?;
    let lawful = are_all_identifiers(types.as_slice());
    Ok(!lawful)
}

/// Returns the shapes that a row breaks, of whose terms it is known whether one repeats an earlier one. The only error
/// is want of memory.
pub fn row_faults(
    alloc: Global,
    row: &PulleyInst,
    repeated_term: bool,
) -> Result<Faults, AllocError>
    ensures { (earlier : List (List ℕ)) → (before : List Row)
        → repeated_term ≡ repeats_after (earlier ++ all_terms before) (row_terms row.now)
        → IfOk result (λ faults. Tells faults (PulleyBreaks earlier before row.now)) }
{
    let given = operands(alloc, row)?;
    let bad_name = has_bad_name(alloc, row)?;
    let repeated_part = repeats_part(alloc, row, given.as_slice())?;
    let results = breaks_results(alloc, row, given.as_slice())?;
    let field_type = breaks_types(alloc, row, given.as_slice())?;
    Ok(Faults {
        bad_name,
        repeated_name: repeated_term | repeated_part,
        binary_operands: breaks_binary(row),
        results,
        field_type,
    })
}
