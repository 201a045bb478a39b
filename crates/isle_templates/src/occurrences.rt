//! How often each parameter stands in a template with those that it uses put in, which is counted without making it.

ghost use Rattle.std.specs.Prelude.{◌==◌, ◌*◌, List, Option, IfOk, OnOk, ℕ, map, if◌then◌else◌};
ghost use Rattle.isle_base.specs.declared.ids.TypeId.{TypeId};
ghost use Rattle.isle_core.specs.Pattern.{Pattern as Tree};
ghost use Rattle.isle_core.specs.RuleViews.{pattern as elaborated, patterns_of};
ghost use Rattle.isle_templates.specs.Occurrences.{AreAdded, CountsTimes, times_in};
ghost use Rattle.isle_templates.specs.Renumbered.{pattern_variables, patterns_variables};
ghost use Rattle.isle_templates.specs.Standing.{IsKept, StandFor};
ghost use Rattle.isle_templates.specs.Substituted.{expanded, opened, substituted, template_of};

use crate::known::{Known, kept_of};
use crate::template::Kept;
use isle_core::{Pattern, TermId};
use std::alloc::{AllocError, Global};

// Counts so many more places of a parameter.
fn add(times: &mut Vec<usize>, parameter: usize, more: usize) -> Result<(), AllocError>
    ensures { OnOk result (AreAdded (λ (x : ℕ). if parameter == x then more else 0)
        times.old.items times.new.items) }
{
    while times.len() <= parameter {
        times.push(0)?;
    }
    times[parameter] = times[parameter].saturating_add(more);
    Ok(())
}

// Counts those of a pattern that stands so often, with the templates that it uses put in.
#[cycle(noting)]
fn note(
    p: &Pattern,
    often: usize,
    known: Known<'_>,
    times: &mut Vec<usize>,
) -> Result<(), AllocError>
    ensures { OnOk result ((whole : List (Option Tree))
        → StandFor whole known.entry.table.now known.entry.below
        → AreAdded (λ (x : ℕ).
        often * times_in (pattern_variables (expanded whole (elaborated p.now))) x)
        times.old.items times.new.items) }
{
    match p {
        Pattern::BindPattern(_, parameter, inner) => {
            add(times, parameter.index(), often)?;
            note(inner.get(), often, known, times)
        }
        Pattern::Var(_, parameter) => add(times, parameter.index(), often),
        Pattern::ConstBool(_) => Ok(()),
        Pattern::ConstInt(_, _) => Ok(()),
        Pattern::ConstPrim(_, _) => Ok(()),
        Pattern::Term(_, term, parts) => note_term(parts.as_slice(), *term, often, known, times),
        Pattern::Wildcard(_) => Ok(()),
        Pattern::And(_, parts) => note_each(parts.as_slice(), often, known, times),
    }
}

// Those of patterns.
#[cycle(noting)]
fn note_each(
    parts: &[Pattern],
    often: usize,
    known: Known<'_>,
    times: &mut Vec<usize>,
) -> Result<(), AllocError>
    ensures { OnOk result ((whole : List (Option Tree))
        → StandFor whole known.entry.table.now known.entry.below
        → AreAdded (λ (x : ℕ). often * times_in
        (patterns_variables (patterns_of (map (expanded whole) (map elaborated parts.now)))) x)
        times.old.items times.new.items) }
{
    for p in parts {
        note(p, often, known, times)?;
    }
    Ok(())
}

// Those of a term on these parts, or of its template with them.
#[cycle(noting)]
fn note_term(
    parts: &[Pattern],
    term: TermId,
    often: usize,
    known: Known<'_>,
    times: &mut Vec<usize>,
) -> Result<(), AllocError>
    ensures { OnOk result ((whole : List (Option Tree)) (ty : TypeId)
        → StandFor whole known.entry.table.now known.entry.below
        → AreAdded (λ (x : ℕ). often * times_in (pattern_variables (opened (template_of whole term)
        ty term (map (expanded whole) (map elaborated parts.now)))) x)
        times.old.items times.new.items) }
{
    match kept_of(known, term) {
        None => note_each(parts, often, known, times),
        Some(kept) => note_opened(parts, kept, often, known, times),
    }
}

// Those of a template with patterns in place of its parameters. One without a pattern stands for itself.
#[cycle(noting)]
fn note_opened(
    args: &[Pattern],
    kept: &Kept,
    often: usize,
    known: Known<'_>,
    times: &mut Vec<usize>,
) -> Result<(), AllocError>
    ensures { OnOk result ((whole inner : List (Option Tree)) (template : Tree)
        → StandFor whole known.entry.table.now known.entry.below → IsKept inner template kept.now
        → AreAdded (λ (x : ℕ). often * times_in (pattern_variables
        (substituted (map (expanded whole) (map elaborated args.now)) template)) x)
        times.old.items times.new.items) }
{
    for (parameter, arg) in args.iter().enumerate() {
        note(
            arg,
            often.saturating_mul(kept.times(parameter)),
            known,
            times,
        )?;
    }
    for own in args.len()..kept.times.len() {
        add(times, own, often.saturating_mul(kept.times(own)))?;
    }
    Ok(())
}

/// How often each parameter stands in a template, with the templates that it uses put in. The only error is want of
/// memory.
pub fn occurrences(
    alloc: Global,
    template: &Pattern,
    known: Known<'_>,
) -> Result<Vec<usize>, AllocError>
    ensures { IfOk result (λ times. (whole : List (Option Tree))
        → StandFor whole known.entry.table.now known.entry.below
        → CountsTimes (pattern_variables (expanded whole (elaborated template.now))) times.items) }
{
    let mut times = Vec::new(alloc);
    note(template, 1, known, &mut times)?;
    Ok(times)
}
