//! Constants of a source that answers leave out.

ghost use Rattle.std.specs.Prelude.{◌≡◌, ◌&&◌, ◌++◌, not, ℕ, List, map, IfOk, OnOk, is_some};
ghost use Rattle.std.specs.List.{list_any};
ghost use Rattle.isle_core.specs.Having.{const_of};
ghost use Rattle.isle_core.specs.Rule.{Environment};
ghost use Rattle.isle_core.specs.Terms.{sym_text};
ghost use Rattle.isle_core.specs.ValueViews.{meaning};
ghost use Rattle.isle_core.specs.declared.values.Value.{Value as CodeValue};
ghost use Rattle.isle_tree.specs.Views.{function};
ghost use Rattle.isle_operand_names.specs.Sets.{has_name};
ghost use Rattle.isle_run.specs.Compiled.{attempt};
ghost use Rattle.isle_run.specs.LeftOut.{is_left_out as IsLeftOut, leave_out};

use crate::outcome::Compiled;
use isle_core::{Answers, Sym, Text, TypeEnv, TypeId, Value};
use isle_interpreter::function_of;
use isle_operand_names::{set_of, standing};
use isle_tree::Function;
use std::alloc::{AllocError, Global};
use std::collections::BTreeSet;
use std::slice;

// Appends the names of the constants that are given values.
fn push_given<'a>(names: &mut Vec<&'a str>, given: &'a [(Text, Value)]) -> Result<(), AllocError>
    ensures { OnOk result
        (map (λ x. x.now) names.new.items
        ≡ map (λ x. x.now) names.old.items ++ map (λ (c : List ℕ × CodeValue). c.0) given.now) }
{
    for constant in given {
        names.push(constant.0.as_str())?;
    }
    Ok(())
}

// The names of the constants that answers give values, as a set.
fn given<'a>(alloc: Global, answers: &'a Answers) -> Result<BTreeSet<&'a str>, AllocError>
    ensures { IfOk result (λ found.
        (name : List ℕ) → has_name found name ≡ is_some (const_of (meaning answers.now) name)) }
{
    let mut names = Vec::new(alloc);
    push_given(&mut names, answers.consts.as_slice())?;
    set_of(alloc, names.as_slice())
}

// Whether a constant stands among the names, and has no value.
fn is_left_out(
    typeenv: &TypeEnv,
    standing: &BTreeSet<&str>,
    given: &BTreeSet<&str>,
    constant: &(Sym, TypeId),
) -> bool
    ensures { (env : Environment) → env.types ≡ typeenv.now
        → result ≡ has_name standing.now (sym_text env constant.now.0) && not
        (has_name given.now (sym_text env constant.now.0)) }
{
    let name = typeenv.symbol(constant.0);
    standing.contains(name) && !given.contains(name)
}

// Whether one of the constants does and has none.
fn any_left_out(
    typeenv: &TypeEnv,
    standing: &BTreeSet<&str>,
    given: &BTreeSet<&str>,
    constants: &[(Sym, TypeId)],
) -> bool
    ensures { (env : Environment) → env.types ≡ typeenv.now
        → result ≡ list_any
        (λ (c : Sym × TypeId). has_name standing.now (sym_text env c.0) && not
        (has_name given.now (sym_text env c.0))) constants.now }
{
    for constant in constants {
        if is_left_out(typeenv, standing, given, constant) {
            return true;
        }
    }
    false
}

// Whether answers leave out a constant that stands in the function.
fn function_leaves_out(
    alloc: Global,
    typeenv: &TypeEnv,
    f: &Function,
    answers: &Answers,
) -> Result<bool, AllocError>
    ensures { IfOk result (λ left. (env : Environment) → env.types ≡ typeenv.now
        → left ≡ list_any (IsLeftOut env (function f.now) (meaning answers.now)) env.types.consts) }
{
    let standing = standing(alloc, slice::from_ref(f))?;
    let given = given(alloc, answers)?;
    Ok(any_left_out(typeenv, &standing, &given, typeenv.consts.as_slice()))
}

/// Tells whether answers leave out a constant of the source that stands in the function of the term. The only error is
/// want of memory.
pub fn leaves_out(
    alloc: Global,
    compiled: &Compiled<'_>,
    term: &str,
    answers: &Answers,
) -> Result<bool, AllocError>
    ensures { IfOk result (λ left.
        (args : List CodeValue)
        → left ≡ leave_out (attempt compiled.now term.now args) (meaning answers.now)) }
{
    match function_of(compiled.program.fns.as_slice(), term) {
        Some(f) => function_leaves_out(alloc, compiled.typeenv, f, answers),
        None => Ok(false),
    }
}
