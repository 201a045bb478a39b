//! The first instruction that isn't supported.

ghost use Rattle.std.specs.Prelude.{◌≡◌, [], IfOk, OnOk, map};
ghost use Rattle.isle_lawful_names.specs.NameSet.{HasNames};
ghost use Rattle.isle_meta.specs.TableNames.{texts};
ghost use Rattle.isle_meta.specs.Told.{found_row};
ghost use Rattle.isle_assembler_rows.specs.AssemblerRows.{IsFirstInst};
ghost use Rattle.isle_assembler_rows.specs.TermNames.{row_terms};

use crate::faults::{first_shape, row_faults};
use crate::term_names::row_terms;
use isle_core::{List, Text};
use isle_lawful_names::added;
use isle_meta::{Inst, Shape, has_repeated_term};
use std::alloc::{AllocError, Global};
use std::collections::BTreeSet;

// The terms of each instruction, in order.
fn all_terms(alloc: Global, insts: &[Inst]) -> Result<Vec<List<Text>>, AllocError>
    ensures { IfOk result (λ terms. terms.items ≡ map row_terms insts.now) }
{
    let mut terms = Vec::new(alloc);
    for inst in insts {
        terms.push(row_terms(alloc, inst)?)?;
    }
    Ok(terms)
}

// Puts names into an empty set.
fn put_names<'n>(met: &mut BTreeSet<&'n str>, names: &[&'n str]) -> Result<(), AllocError>
    requires { HasNames [] met.now }
    ensures { OnOk result (HasNames (texts names.now) met.new) }
{
    for name in names {
        added(met, name)?;
    }
    Ok(())
}

// The name of the first instruction that breaks a shape, and the first shape that it breaks; the terms of each are
// known.
fn unsupported_among<'t>(
    alloc: Global,
    earlier: &[&str],
    insts: &'t [Inst],
    terms: &[List<Text>],
) -> Result<Option<(&'t str, Shape)>, AllocError>
    requires { terms.now ≡ map row_terms insts.now }
    ensures { IfOk result (λ found. IsFirstInst (texts earlier.now) insts.now (found_row found)) }
{
    let mut met = BTreeSet::new(alloc);
    put_names(&mut met, earlier)?;
    for k in 0..insts.len() {
        let inst = &insts[k];
        let repeated = has_repeated_term(terms[k].as_slice(), &mut met)?;
        let faults = row_faults(alloc, inst, repeated)?;
        if let Some(shape) = first_shape(&faults) {
            return Ok(Some((inst.name.as_str(), shape)));
        }
    }
    Ok(None)
}

/// Returns the name of the first instruction that breaks a shape, and the first shape that it breaks; `earlier` has the
/// names of terms of other rows. The only error is want of memory. What breaks a shape stands in
/// `specs/AssemblerRows.antt`.
pub fn unsupported_inst<'t>(
    alloc: Global,
    earlier: &[&str],
    insts: &'t [Inst],
) -> Result<Option<(&'t str, Shape)>, AllocError>
    ensures { IfOk result (λ found. IsFirstInst (texts earlier.now) insts.now (found_row found)) }
{
    let terms = all_terms(alloc, insts)?;
    unsupported_among(alloc, earlier, insts, terms.as_slice())
}
