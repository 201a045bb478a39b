//! Log lines before the results of a function.

ghost use Rattle.std.specs.Prelude.{◌≡◌, option_map, IfOk, OnOk};
ghost use Rattle.isle_core.specs.BlockViews as BlockViews;
ghost use Rattle.isle_simulation.specs.Telling.{told_before, line_before, log_line};
ghost use Rattle.isle_emission.specs.BodyOnto.{ArePushedAs};
ghost use Rattle.isle_emission.specs.Emitter.{setting_in, manner_in};

use crate::emitter::Emitter;
use isle_core::{ControlFlow, OutOfMemory, Pos, Text};
use isle_tree::Stmt;

impl Emitter<'_> {
    // Makes the line of a position: the term's name, and the position's place.
    fn line_of(&self, pos: Pos) -> Result<(Text, Text), OutOfMemory>
        ensures { IfOk result (λ line.
            line ≡ log_line self.now.files.now (setting_in self.now) pos) }
    {
        let name = self.name(self.typed.context.term.name)?;
        let place = self.starts.place(self.alloc, self.files, pos)?;
        Ok((name, Text::new(place)))
    }

    // Adds the line of a position.
    #[tactic(auto, using(isle_tree::proofs::Sees::sees))]
    fn push_line(&self, pos: Pos, out: &mut Vec<Stmt>) -> Result<(), OutOfMemory>
        ensures { OnOk result (ArePushedAs out.old.items out.new.items
            (λ end. option_map
            (line_before (log_line self.now.files.now (setting_in self.now) pos)) end)) }
    {
        let (term, place) = self.line_of(pos)?;
        out.push(Stmt::Log { term, place })?;
        Ok(())
    }

    /// Adds what is told before a step: before a Return its line, where lines are asked for. The only error is want of
    /// memory.
    #[inline(never)]
    #[tactic(auto, using(isle_core::proofs::SeesBlocks::sees_blocks))]
    pub fn push_told(&self, control: &ControlFlow, out: &mut Vec<Stmt>) -> Result<(), OutOfMemory>
        ensures { OnOk result (ArePushedAs out.old.items out.new.items
            (λ end. told_before (manner_in self.now).telling (BlockViews.control control.now)
            end)) }
    {
        if !self.options.emit_logging {
            return Ok(());
        }
        match control {
            ControlFlow::Return { pos, .. } => self.push_line(*pos, out),
            ControlFlow::Match { .. } | ControlFlow::Equal { .. } | ControlFlow::Loop { .. } => {
                Ok(())
            }
        }
    }
}
