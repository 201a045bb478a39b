//! The statement that binds a local.

ghost use Rattle.std.specs.Prelude.{◌≡◌, IfOk, Some as Is};
ghost use Rattle.isle_tree.specs.Views.{stmt};
ghost use Rattle.isle_emission.specs.Built.{IsComputed};
ghost use Rattle.isle_emission.specs.Emitter.{setting_in};
ghost use Rattle.isle_simulation.specs.Statements as Statements;

use crate::emitter::Emitter;
use isle_core::BindingId;
use isle_operands::binds_list;
use isle_scope::Scope;
use isle_tree::Stmt;
use std::alloc::AllocError;

impl Emitter<'_> {
    /// Makes the statement that binds the local of a binding: a list, which a call fills, or anything else.
    #[tactic(auto, using(isle_tree::proofs::Sees::sees))]
    pub fn bound_stmt(&self, bound: &Scope, binding: BindingId) -> Result<Stmt, AllocError>
        requires { IsComputed (setting_in self.now) bound.now binding }
        ensures { IfOk result (λ s. Is (stmt s) ≡ Statements.let_of
            (Statements.binds_list (setting_in self.now) binding) binding.0
            (Statements.bound_expr (setting_in self.now) bound.now binding)) }
    {
        if binds_list(&self.typed.context, binding) {
            return Ok(Stmt::LetList {
                local: binding.index(),
                call: self.filling_call(bound, binding)?.call,
            });
        }
        Ok(Stmt::Let(binding.index(), self.bound_expr(bound, binding)?))
    }
}
