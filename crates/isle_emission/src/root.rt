//! The statements of a term's function.

ghost use Rattle.std.specs.Prelude.{false, ◌≡◌, [], Some as Is, map, option_map, IfOk, OnOk};
ghost use Rattle.isle_core.specs.BlockViews as BlockViews;
ghost use Rattle.isle_tree.specs.Program.{Tail};
ghost use Rattle.isle_tree.specs.Views.{stmt, body};
ghost use Rattle.isle_emission.specs.BodyOnto.{body_onto};
ghost use Rattle.isle_emission.specs.Built.{IsBuilt};
ghost use Rattle.isle_emission.specs.Emitter.{setting_in, IsPlaced, mark_for, tail_after, root_for};
ghost use Rattle.isle_simulation.specs.TermFunction as TermFunction;

use crate::emitter::Emitter;
use isle_core::{Block, ControlFlow, OutOfMemory, ReturnKind, Text};
use isle_operands::kind_of;
use isle_scope::Scope;
use isle_tree::Stmt;

// Returns whether a step ends the run.
#[tactic(auto, using(isle_core::proofs::SeesBlocks::sees_blocks))]
fn is_return(control: &ControlFlow) -> bool
    ensures { result ≡ TermFunction.is_return (BlockViews.control control.now) }
{
    match control {
        ControlFlow::Return { .. } => true,
        ControlFlow::Match { .. } | ControlFlow::Equal { .. } | ControlFlow::Loop { .. } => false,
    }
}

// Returns whether the last step of a block ends the run.
#[tactic(auto, using(isle_core::proofs::SeesBlocks::sees_blocks))]
fn ends_in_return(block: &Block) -> bool
    ensures { result ≡ TermFunction.ends_in_return (BlockViews.block block.now) }
{
    let steps = block.steps.as_slice();
    if steps.is_empty() {
        return false;
    }
    is_return(&steps[steps.len() - 1].check)
}

impl Emitter<'_> {
    // Makes the tail of a function, if it has one.
    #[tactic(auto, using(isle_tree::proofs::Sees::sees))]
    fn tail(&self) -> Result<Option<Stmt>, OutOfMemory>
        requires { IsPlaced self.now }
        ensures { IfOk result (λ tail. option_map stmt tail ≡ option_map Tail (mark_for self.now)) }
    {
        let term = self.typed.context.term;
        match kind_of(&term.kind) {
            ReturnKind::Plain => {
                let name = self.name(term.name)?;
                let place = self.starts.place(self.alloc, self.files, term.decl_pos)?;
                Ok(Some(Stmt::Tail(Some((name, Text::new(place))))))
            }
            ReturnKind::Option => Ok(Some(Stmt::Tail(None))),
            ReturnKind::Iterator => Ok(None),
        }
    }

    // Adds the tail after the statements of a block, if the block can end without a result.
    fn push_tail(&self, block: &Block, stmts: &mut Vec<Stmt>) -> Result<(), OutOfMemory>
        requires { IsPlaced self.now }
        ensures { OnOk result (Is (body stmts.new.items) ≡ body_onto (map stmt stmts.old.items)
            (Is (tail_after self.now (BlockViews.block block.now)))) }
    {
        if ends_in_return(block) {
            return Ok(());
        }
        let Some(last) = self.tail()? else {
            return Ok(());
        };
        stmts.push(last)?;
        Ok(())
    }

    /// Makes the statements of the term's function: those of its block, with log lines if the options ask for them,
    /// and the tail if the block can end without a result.
    pub fn root_stmts(&self, block: &Block) -> Result<Vec<Stmt>, OutOfMemory>
        requires placed { IsPlaced self.now }
        requires built { IsBuilt (setting_in self.now) [] (BlockViews.block block.now) }
        requires outside { self.now.inside ≡ false }
        ensures { IfOk result (λ stmts.
            Is (body stmts.items) ≡ root_for self.now (BlockViews.block block.now)) }
    {
        let mut bound = Scope::new(self.alloc);
        let mut stmts = self.block_stmts(&mut bound, block)?;
        self.push_tail(block, &mut stmts)?;
        Ok(stmts)
    }
}
