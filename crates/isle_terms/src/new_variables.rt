//! The variables that a pattern binds first.

ghost use Rattle.std.specs.Prelude.{◌≡◌, List, IfOk, OnOk, fold, map, is_some, not};
ghost use Rattle.std.specs.List.{list_any};
ghost use Rattle.isle_ast.specs.Views.{pattern, patterns_of};
ghost use Rattle.isle_declarations.specs.Symbols.{index_of};
ghost use Rattle.isle_terms.specs.NewVariables.{variable_of, variables_in, all_variables_in, joined, new_count};

use crate::variables::{Variables, is_blank};
use isle_ast::AstPattern;
use isle_core::Name;
use isle_declarations::Symbols;
use std::alloc::{AllocError, Global};

// A variable that is not bound yet joins those that are new.
fn join<'b, 'd>(
    vars: &Variables,
    new: &mut Symbols<'b>,
    name: &'b Name<'d>,
) -> Result<(), AllocError>
    ensures { OnOk result (new.new ≡ joined vars.now new.old name.now) }
{
    if vars.find(name).is_some() {
        return Ok(());
    }
    match new.intern(name.as_str()) {
        Ok(_) => Ok(()),
        Err(e) => Err(e),
    }
}

// So does the one that `@` names.
fn join_named<'b, 'd>(
    vars: &Variables,
    new: &mut Symbols<'b>,
    name: &'b Name<'d>,
) -> Result<(), AllocError>
    ensures { OnOk result (new.new ≡ fold (joined vars.now) new.old (variable_of name.now)) }
{
    if is_blank(name) {
        return Ok(());
    }
    join(vars, new, name)
}

// So do those of a pattern.
#[cycle(patterns)]
#[tactic(auto, using(isle_ast::proofs::Sees::pattern_sees))]
fn join_pattern<'b, 'd>(
    vars: &Variables,
    new: &mut Symbols<'b>,
    p: &'b AstPattern<'d>,
) -> Result<(), AllocError>
    ensures { OnOk result
        (new.new ≡ fold (joined vars.now) new.old (variables_in (pattern p.now))) }
{
    match p {
        AstPattern::Int(_) => Ok(()),
        AstPattern::Bool(_) => Ok(()),
        AstPattern::Const(_) => Ok(()),
        AstPattern::Wildcard => Ok(()),
        AstPattern::Var(name) => join(vars, new, name),
        AstPattern::Bind(name, inner) => {
            join_named(vars, new, name)?;
            join_pattern(vars, new, inner.get())
        }
        AstPattern::And(parts) => join_patterns(vars, new, parts.as_slice()),
        AstPattern::Term(_, parts) => join_patterns(vars, new, parts.as_slice()),
    }
}

// So do those of patterns.
#[cycle(patterns)]
fn join_patterns<'b, 'd>(
    vars: &Variables,
    new: &mut Symbols<'b>,
    patterns: &'b [AstPattern<'d>],
) -> Result<(), AllocError>
    ensures { OnOk result
        (new.new ≡ fold (joined vars.now) new.old
        (all_variables_in (patterns_of (map pattern patterns.now)))) }
{
    for p in patterns {
        join_pattern(vars, new, p)?;
    }
    Ok(())
}

// Whether one of these names is not among those.
fn misses_one(names: &Symbols, wanted: &[Name]) -> bool
    ensures { result
        ≡ list_any (λ (name : List _). not (is_some (index_of names.now name))) wanted.now }
{
    for name in wanted {
        if names.find(name.as_str()).is_none() {
            return true;
        }
    }
    false
}

/// Tells whether one of these variables does not stand in a pattern. The only error is want of memory.
pub fn misses_variable<'b, 'd>(
    alloc: Global,
    wanted: &[Name],
    p: &'b AstPattern<'d>,
) -> Result<bool, AllocError>
    ensures { IfOk result (λ misses.
        misses ≡ list_any
        (λ (name : List _). not (is_some (index_of (variables_in (pattern p.now)) name)))
        wanted.now) }
{
    let vars = Variables::new(alloc);
    let mut names = Symbols::new(alloc);
    join_pattern(&vars, &mut names, p)?;
    Ok(misses_one(&names, wanted))
}

/// Returns how many variables a pattern binds first after these. The only error is want of memory.
pub fn new_count<'b, 'd>(
    alloc: Global,
    vars: &Variables,
    p: &'b AstPattern<'d>,
) -> Result<usize, AllocError>
    ensures { IfOk result (λ count. count ≡ new_count vars.now (pattern p.now)) }
{
    let mut new = Symbols::new(alloc);
    join_pattern(vars, &mut new, p)?;
    Ok(new.len())
}
