//! Instructions that aren't supported.

ghost use Rattle.std.specs.Prelude.{◌≡◌, ◌↔◌, ◌++◌, ◌∷◌, [], ◌||◌};
ghost use Rattle.std.specs.Prelude.{List, ℕ, IfOk, OnOk, IsTrue};
ghost use Rattle.isle_lawful_names.specs.NameSet.{HasNames};
ghost use Rattle.isle_meta.specs.declared.clif.Instruction.{Instruction as InstructionOf};
ghost use Rattle.isle_meta.specs.InstructionRow as Row;
ghost use Rattle.isle_meta.specs.Misfits.{TellsNames};
ghost use Rattle.isle_numerics.specs.Definitions.{numeric_terms};
ghost use Rattle.isle_meta.specs.ClifRows.{InstructionBreaks, IsFirstInstruction};
ghost use Rattle.isle_meta.specs.TableNames.{is_among, repeats};
ghost use Rattle.isle_meta.specs.Told.{found_row, Tells};

use crate::clif::{Instruction, InstructionFormat};
use crate::faults::{Faults, first_shape};
use crate::kept_names::{
    are_all_identifiers, is_reserved_term, is_term_name, name_set, numeric_names,
};
use crate::misfits::misfits_among;
use crate::operands::operand_names;
use crate::repeats::has_repeat;
use crate::shapes::Shape;
use isle_lawful_names::added;
use isle_spelling::is_identifier;
use std::alloc::{AllocError, Global};
use std::collections::BTreeSet;

/// Which shapes the names of an instruction break.
#[derive(Clone, Copy)]
pub struct NameFaults {
    pub bad: bool,
    pub repeated: bool,
    pub reserved: bool,
}

// Whether one of its names can't stand for what it names.
fn has_bad_name(alloc: Global, instruction: &Instruction) -> Result<bool, AllocError>
    ensures { IfOk result (λ bad. IsTrue bad ↔ Row.BadName instruction.now) }
{
    let names = operand_names(alloc, instruction)?;
    let own = is_term_name(instruction.name.as_str());
    let camel = is_identifier(instruction.camel_name.as_str());
    let operands = are_all_identifiers(names.as_slice());
    Ok(!(own & camel & operands))
}

// Whether two of its operands have one name.
fn has_repeated_operand(alloc: Global, instruction: &Instruction) -> Result<bool, AllocError>
    ensures { IfOk result (λ found. found ≡ repeats (Row.operand_names instruction.now)) }
{
    let names = operand_names(alloc, instruction)?;
    has_repeat(alloc, names.as_slice())
}

// Whether its name or its camel name is among the earlier ones, to which they are added, or two of its operands have
// one name.
fn has_repeated_name<'t>(
    alloc: Global,
    instruction: &'t Instruction,
    names: &mut BTreeSet<&'t str>,
    camels: &mut BTreeSet<&'t str>,
) -> Result<bool, AllocError>
    ensures told { (earlier cased : List (List ℕ)) → HasNames earlier names.old
        → HasNames cased camels.old
        → IfOk result (λ found.
        found ≡ (is_among instruction.now.name earlier
        || is_among instruction.now.camel_name cased
        || repeats (Row.operand_names instruction.now))) }
    ensures names { (earlier : List (List ℕ)) → HasNames earlier names.old
        → OnOk result (HasNames (earlier ++ instruction.now.name ∷ []) names.new) }
    ensures camels { (cased : List (List ℕ)) → HasNames cased camels.old
        → OnOk result (HasNames (cased ++ instruction.now.camel_name ∷ []) camels.new) }
{
    let repeated = has_repeated_operand(alloc, instruction)?;
    let fresh = added(names, instruction.name.as_str())?;
    let cased = added(camels, instruction.camel_name.as_str())?;
    Ok(!fresh | !cased | repeated)
}

// The shapes that an instruction's names break, after earlier instructions whose names are known. Its own are added.
// The set `numeric` has the terms of the numeric prelude.
fn name_faults<'t>(
    alloc: Global,
    numeric: &BTreeSet<&str>,
    instruction: &'t Instruction,
    names: &mut BTreeSet<&'t str>,
    camels: &mut BTreeSet<&'t str>,
) -> Result<NameFaults, AllocError>
    requires { HasNames numeric_terms numeric.now }
    ensures told { (before : List InstructionOf) → HasNames (Row.own_names before) names.old
        → HasNames (Row.camel_names before) camels.old
        → IfOk result (λ faults. TellsNames faults before instruction.now) }
    ensures names { (earlier : List (List ℕ)) → HasNames earlier names.old
        → OnOk result (HasNames (earlier ++ instruction.now.name ∷ []) names.new) }
    ensures camels { (cased : List (List ℕ)) → HasNames cased camels.old
        → OnOk result (HasNames (cased ++ instruction.now.camel_name ∷ []) camels.new) }
{
    let bad = has_bad_name(alloc, instruction)?;
    let repeated = has_repeated_name(alloc, instruction, names, camels)?;
    let reserved = is_reserved_term(numeric, instruction.name.as_str());
    Ok(NameFaults {
        bad,
        repeated,
        reserved,
    })
}

// The shapes that an instruction breaks, of whose names they are known.
fn instruction_faults(
    alloc: Global,
    formats: &[InstructionFormat],
    instruction: &Instruction,
    named: NameFaults,
) -> Result<Faults, AllocError>
    ensures { (before : List InstructionOf) → TellsNames named before instruction.now
        → IfOk result (λ faults. Tells faults (InstructionBreaks formats.now before instruction.now)) }
{
    let misfits = misfits_among(alloc, formats, instruction)?;
    Ok(Faults {
        bad_name: named.bad,
        repeated_name: named.repeated,
        reserved_name: named.reserved,
        ty_operand: misfits.ty_operand,
        format_index: instruction.format >= formats.len(),
        value_count: misfits.value_count,
        block_count: misfits.block_count,
        raw_block_count: misfits.raw_block_count,
        imm_count: misfits.imm_count,
        imm_type: misfits.imm_type,
        imm_shape: false,
        no_varargs: misfits.no_varargs,
        no_typevar: false,
    })
}

// The name of the first instruction of these formats that breaks a shape, and the first shape that it breaks. The set
// `numeric` has the terms of the numeric prelude.
fn unsupported_among<'t>(
    alloc: Global,
    numeric: &BTreeSet<&str>,
    formats: &[InstructionFormat],
    instructions: &'t [Instruction],
) -> Result<Option<(&'t str, Shape)>, AllocError>
    requires { HasNames numeric_terms numeric.now }
    ensures { IfOk result (λ found.
        IsFirstInstruction formats.now instructions.now (found_row found)) }
{
    let mut names = BTreeSet::new(alloc);
    let mut camels = BTreeSet::new(alloc);
    for instruction in instructions {
        let named = name_faults(alloc, numeric, instruction, &mut names, &mut camels)?;
        let faults = instruction_faults(alloc, formats, instruction, named)?;
        if let Some(shape) = first_shape(&faults) {
            return Ok(Some((instruction.name.as_str(), shape)));
        }
    }
    Ok(None)
}

/// Returns the name of the first instruction of these formats that breaks a shape, and the first shape that it breaks.
/// The only error is want of memory.
pub fn unsupported_instruction<'t>(
    alloc: Global,
    formats: &[InstructionFormat],
    instructions: &'t [Instruction],
) -> Result<Option<(&'t str, Shape)>, AllocError>
    ensures { IfOk result (λ found.
        IsFirstInstruction formats.now instructions.now (found_row found)) }
{
    let terms = numeric_names(alloc)?;
    let numeric = name_set(alloc, terms.as_slice())?;
    unsupported_among(alloc, &numeric, formats, instructions)
}
