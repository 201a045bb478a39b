//! Both sides of a rule, and its conditions, with types in them.

ghost use Rattle.std.specs.Prelude.{IfOk};
ghost use Rattle.isle_declarations.specs.Collected.{rule as seen};
ghost use Rattle.isle_terms.specs.Whole.{whole};
ghost use Rattle.isle_sema.specs.Known.{IsHead};
ghost use Rattle.isle_sema.specs.ElaboratedAt.{AreSides};

use crate::conditions::{conditions_at, expr_over};
use crate::elaborated_patterns::patterns_at;
use crate::judging::Judging;
use crate::known::{Called, Known};
use isle_core::{Expr, IfLet, Pattern};
use isle_declarations::RuleDef;
use isle_terms::{Side, Variables};
use std::alloc::{AllocError, Global};

/// The patterns, the conditions and the right side of a rule, if they have trees, and what the rows say of the parts
/// of the patterns and conditions, and of those of the right side.
#[derive(Drop)]
pub struct Sides<'m, 'b, 'd> {
    pub args: Option<Vec<Pattern>>,
    pub iflets: Option<Vec<IfLet>>,
    pub rhs: Option<Expr>,
    pub left: Judging<'m, 'b, 'd>,
    pub right: Judging<'m, 'b, 'd>,
}

/// Elaborates both sides of a rule of this term, and its conditions, over these marks of terms that are `multi` if a
/// pattern uses them.
pub fn sides_of<'m, 'b, 'd>(
    alloc: Global,
    known: &Known,
    multis: &'m [bool],
    own: &Called,
    given: &RuleDef<'b, 'd>,
) -> Result<Sides<'m, 'b, 'd>, AllocError>
    requires { IsHead (whole known.now) given.now.term.now own.now }
    ensures { IfOk result (λ sides.
        AreSides (whole known.now) (seen given.now) multis.entry sides) }
{
    let mut vars = Variables::new(alloc);
    let (multi, partial, pure) = (own.multi, own.partial, own.pure);
    let mut left = Judging::new(multis, Side::Left { multi });
    let args = patterns_at(alloc, known, &mut vars, &mut left, own.args, given.args)?;
    let iflets = conditions_at(alloc, known, &mut vars, &mut left, given.iflets)?;
    let side = Side::Right {
        multi,
        partial,
        pure,
    };
    let mut right = Judging::new(multis, side);
    let found = expr_over(
        alloc,
        known,
        &vars,
        &mut right,
        vars.next(),
        Some(own.ret),
        given.rhs,
    )?;
    Ok(Sides {
        args,
        iflets,
        rhs: found.0,
        left,
        right,
    })
}
