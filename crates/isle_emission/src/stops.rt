//! Where a function that answers several times stops after a result.

ghost use Rattle.std.specs.Prelude.{◌≡◌, Some as Is, OnOk};
ghost use Rattle.isle_core.specs.BlockViews as BlockViews;
ghost use Rattle.isle_core.specs.Setting as Setting;
ghost use Rattle.isle_simulation.specs.Statements.{stmt_before, stop_before};
ghost use Rattle.isle_tree.specs.Program.{Overflow};
ghost use Rattle.isle_emission.specs.BodyOnto.{ArePushedAs};
ghost use Rattle.isle_emission.specs.Emitter.{setting_in, manner_in};

use crate::emitter::Emitter;
use isle_core::{ControlFlow, ReturnKind};
use isle_operands::kind_of;
use isle_tree::Stmt;
use std::alloc::AllocError;

// Adds the statement that stops where the list of results is full.
#[tactic(auto, using(isle_tree::proofs::Sees::sees))]
fn push_overflow(out: &mut Vec<Stmt>, inside: bool, limit: usize) -> Result<(), AllocError>
    ensures { OnOk result (ArePushedAs out.old.items out.new.items
        (λ end. stmt_before (Is (Overflow inside limit)) end)) }
{
    out.push(Stmt::Overflow { inside, limit })?;
    Ok(())
}

impl Emitter<'_> {
    /// Tells whether the term answers several times.
    pub fn gives_several(&self) -> bool
        ensures { result ≡ Setting.gives_several (setting_in self.now) }
    {
        match kind_of(&self.typed.context.term.kind) {
            ReturnKind::Plain | ReturnKind::Option => false,
            ReturnKind::Iterator => true,
        }
    }

    /// Adds the stop after a step: after a Return of a term that answers several times. The only error is want of
    /// memory.
    #[inline(never)]
    #[tactic(auto, using(isle_core::proofs::SeesBlocks::sees_blocks))]
    pub fn push_stop(&self, control: &ControlFlow, out: &mut Vec<Stmt>) -> Result<(), AllocError>
        ensures { OnOk result (ArePushedAs out.old.items out.new.items
            (λ end. stop_before (manner_in self.now) (Setting.gives_several (setting_in self.now))
            (BlockViews.control control.now) end)) }
    {
        if !self.gives_several() {
            return Ok(());
        }
        match control {
            ControlFlow::Return { .. } => {
                push_overflow(out, self.inside, self.options.max_returns)
            }
            ControlFlow::Match { .. } | ControlFlow::Equal { .. } | ControlFlow::Loop { .. } => {
                Ok(())
            }
        }
    }
}
