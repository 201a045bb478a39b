//! The names in patterns, from left to right.

ghost use Rattle.std.specs.Prelude.{◌≡◌, OnOk, fold, map};
ghost use Rattle.isle_ast.specs.Views.{pattern, patterns_of};
ghost use Rattle.isle_declarations.specs.Symbols.{added};
ghost use Rattle.isle_declarations.specs.Names.{pattern_names, patterns_names};

use crate::symbols::Symbols;
use crate::text_interning::intern;
use isle_ast::AstPattern;
use std::alloc::AllocError;

/// The names in a pattern, its own before those of its parts. The only error is want of memory.
#[cycle(patterns)]
#[tactic(auto, using(isle_ast::proofs::Sees::pattern_sees))]
pub fn intern_pattern<'b, 'd>(
    names: &mut Symbols<'b>,
    p: &'b AstPattern<'d>,
) -> Result<(), AllocError>
    ensures { OnOk result (names.new ≡ fold added names.old (pattern_names (pattern p.now))) }
{
    match p {
        AstPattern::Int(_) => Ok(()),
        AstPattern::Bool(_) => Ok(()),
        AstPattern::Const(name) => intern(names, name),
        AstPattern::Wildcard => Ok(()),
        AstPattern::Var(name) => intern(names, name),
        AstPattern::Bind(name, inner) => {
            intern(names, name)?;
            intern_pattern(names, inner.get())
        }
        AstPattern::And(parts) => intern_patterns(names, parts.as_slice()),
        AstPattern::Term(name, args) => {
            intern(names, name)?;
            intern_patterns(names, args.as_slice())
        }
    }
}

/// The names in patterns, in order. The only error is want of memory.
#[cycle(patterns)]
pub fn intern_patterns<'b, 'd>(
    names: &mut Symbols<'b>,
    patterns: &'b [AstPattern<'d>],
) -> Result<(), AllocError>
    ensures { OnOk result
        (names.new ≡ fold added names.old
        (patterns_names (patterns_of (map pattern patterns.now)))) }
{
    for p in patterns {
        intern_pattern(names, p)?;
    }
    Ok(())
}
