//! Calls of the library that no line of words makes, with what they answer.

use crate::failing::push_failing;
use crate::generated::push_generators;
use crate::samples::push_samples;
use crate::unit_files::push_unit_files;
use isle_case_calls::items::push_iterators;
use isle_case_calls::judged::push_judged;
use isle_case_calls::literals::push_literals;
use isle_case_calls::signatures::push_signatures;
use isle_case_calls::targets::push_targets;
use isle_case_calls::unit_paths::push_unit_paths;
use isle_case_calls::weights::push_weights;
use isle_case_reading::slip::Slip;
use std::alloc::{AllocError, Global};

// Writes what the calls answer.
fn push_calls(alloc: Global, lines: &mut String) -> Result<(), AllocError> {
    push_signatures(alloc, lines)?;
    push_literals(alloc, lines)?;
    push_judged(alloc, lines)?;
    push_weights(alloc, lines)?;
    push_samples(alloc, lines)?;
    match push_iterators(alloc, lines) {
        Ok(()) => Ok(()),
        Err(_) => Err(AllocError),
    }
}

/// Makes the calls, and holds the lines that they write against those that are wanted; `told` gets theirs
/// where these differ.
pub fn hold_calls(alloc: Global, wanted: &str, told: &mut String) -> Result<(), Slip> {
    let mut lines = String::new(alloc);
    push_calls(alloc, &mut lines)?;
    push_generators(alloc, &mut lines)?;
    push_targets(alloc, &mut lines)?;
    push_unit_files(alloc, &mut lines)?;
    push_unit_paths(alloc, &mut lines)?;
    push_failing(alloc, &mut lines)?;
    if lines.as_str() == wanted {
        return Ok(());
    }
    told.push_str("\n")?;
    told.push_str(lines.as_str())?;
    Err(Slip::Lines)
}
