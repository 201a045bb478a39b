//! Calls, before it is known what they fill.

ghost use Rattle.std.specs.Prelude.{◌≡◌};
ghost use Rattle.isle_emission.specs.Calls.{call_expr};

use isle_tree::{TCall, TExpr};

/// A call, and whether it stands after a `&` if its one answer is bound.
#[derive(Drop)]
pub struct Called {
    pub borrow: bool,
    pub call: TCall,
}

/// Makes what a call computes.
pub fn called_expr(of: Called) -> TExpr
    ensures { result ≡ call_expr of }
{
    TExpr::Call {
        borrow: of.borrow,
        call: of.call,
    }
}
