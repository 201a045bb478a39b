//! The names in rules, from left to right.

ghost use Rattle.std.specs.Prelude.{◌≡◌, Some, IfOk, OnOk, map, fold, flat_map, option_to_list};
ghost use Rattle.isle_ast.specs.Views.{pattern, iflet, expr};
ghost use Rattle.isle_declarations.specs.Symbols.{index_of, added};
ghost use Rattle.isle_declarations.specs.Names.{iflet_names, rule_names};

use crate::expr_interning::intern_expr;
use crate::pattern_interning::{intern_pattern, intern_patterns};
use crate::symbols::Symbols;
use crate::text_interning::intern;
use isle_ast::{AstExpr, AstIfLet, AstPattern};
use isle_core::Name;
use std::alloc::AllocError;

// A rule's own name.
fn intern_name<'b, 'd>(
    names: &mut Symbols<'b>,
    name: &'b Option<Name<'d>>,
) -> Result<(), AllocError>
    ensures { OnOk result (names.new ≡ fold added names.old (option_to_list name.now)) }
{
    match name {
        Some(name) => intern(names, name),
        None => Ok(()),
    }
}

// The names in conditions, in order.
fn intern_iflets<'b, 'd>(
    names: &mut Symbols<'b>,
    iflets: &'b [AstIfLet<'d>],
) -> Result<(), AllocError>
    ensures { OnOk result
        (names.new ≡ fold added names.old (flat_map iflet_names (map iflet iflets.now))) }
{
    for condition in iflets {
        intern_pattern(names, &condition.lhs)?;
        intern_expr(names, &condition.rhs)?;
    }
    Ok(())
}

/// The names in a rule, and the number of its term's. The only error is want of memory.
pub fn intern_rule<'b, 'd>(
    names: &mut Symbols<'b>,
    name: &'b Option<Name<'d>>,
    term: &'b Name<'d>,
    args: &'b [AstPattern<'d>],
    iflets: &'b [AstIfLet<'d>],
    rhs: &'b AstExpr<'d>,
) -> Result<usize, AllocError>
    ensures names { OnOk result
        (names.new ≡ fold added names.old
        (rule_names name.now term.now (map pattern args.now) (map iflet iflets.now)
        (expr rhs.now))) }
    ensures number { IfOk result (λ number. index_of names.new term.now ≡ Some number) }
{
    intern_name(names, name)?;
    let number = names.intern(term.as_str())?;
    intern_patterns(names, args)?;
    intern_iflets(names, iflets)?;
    intern_expr(names, rhs)?;
    Ok(number)
}
