//! How many nodes expressions have.

ghost use Rattle.std.specs.Prelude.{◌≡◌, ◌-◌, ◌^◌, map, min};
ghost use Rattle.isle_core.specs.RuleViews.{expr as elaborated, exprs_of, bindings_of};
ghost use Rattle.isle_templates.specs.CodeBinding.{binding};
ghost use Rattle.isle_templates.specs.NodeCount.{expr_nodes, exprs_nodes, bindings_nodes};

use isle_core::{Expr, LetBinding};

/// Returns how many nodes an expression has, each variable of a `let` with them.
#[cycle(counting)]
#[tactic(auto, using(crate::proofs::SeesLets::sees))]
pub fn expr_nodes(e: &Expr) -> usize
    ensures { result ≡ min (expr_nodes (elaborated e.now)) (2 ^ 64 - 1) }
{
    match e {
        Expr::Term(_, _, args) => exprs_nodes(args.as_slice()).saturating_add(1),
        Expr::Var(_, _) => 1,
        Expr::ConstBool(_) => 1,
        Expr::ConstInt(_, _) => 1,
        Expr::ConstPrim(_, _) => 1,
        Expr::Let(_, bindings, inner) => {
            let bindings = bindings_nodes(bindings.as_slice());
            let inner = expr_nodes(inner.get());
            bindings.saturating_add(inner).saturating_add(1)
        }
    }
}

// Those of expressions.
#[cycle(counting)]
fn exprs_nodes(args: &[Expr]) -> usize
    ensures { result ≡ min (exprs_nodes (exprs_of (map elaborated args.now))) (2 ^ 64 - 1) }
{
    let mut nodes: usize = 0;
    for e in args {
        nodes = nodes.saturating_add(expr_nodes(e));
    }
    nodes
}

// Those of variables of a `let`.
#[cycle(counting)]
fn bindings_nodes(bindings: &[LetBinding]) -> usize
    ensures { result ≡ min (bindings_nodes (bindings_of (map binding bindings.now))) (2 ^ 64 - 1) }
{
    let mut nodes: usize = 0;
    for b in bindings {
        nodes = nodes.saturating_add(expr_nodes(&b.val)).saturating_add(1);
    }
    nodes
}
