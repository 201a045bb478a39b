//! Which arms have closures of their own, and statements in them.

ghost use Rattle.std.specs.Prelude.{◌≡◌, IfOk, map, option_map, Some as Is};
ghost use Rattle.isle_core.specs.BlockViews as BlockViews;
ghost use Rattle.isle_tree.specs.Program.{Done};
ghost use Rattle.isle_tree.specs.Views.{stmt};
ghost use Rattle.isle_emission.specs.BodyOnto.{body_onto};
ghost use Rattle.isle_emission.specs.Emitter.{setting_in, manner_in};
ghost use Rattle.isle_simulation.specs.Manner as Manner;

use crate::emitter::Emitter;
use crate::weight::weight_up_to;
use isle_core::{Block, List};
use isle_tree::Stmt;
use std::alloc::{AllocError, Global};

/// The weight above which a body stands in a closure, if the options give none.
const THRESHOLD: usize = 256;

/// Makes a closure of these statements if they have one, which stops the closure around it if inside one.
#[inline(never)]
pub fn closed_if(
    alloc: Global,
    own: bool,
    inside: bool,
    stmts: Vec<Stmt>,
) -> Result<Vec<Stmt>, AllocError>
    ensures { IfOk result (λ closed. body_onto (map stmt closed.items) (Is Done)
        ≡ option_map (Manner.closed_if own inside) (body_onto (map stmt stmts.items) (Is Done))) }
{
    if !own {
        return Ok(stmts);
    }
    let mut closed = Vec::new(alloc);
    closed.push(Stmt::Split {
        body: List::new(stmts),
        inside,
    })?;
    Ok(closed)
}

impl<'a> Emitter<'a> {
    // Returns the weight above which a body stands in a closure, if any does.
    fn closes_above(&self) -> Option<usize>
        ensures { result ≡ Manner.closes_above self.now.options.now (setting_in self.now) }
    {
        if self.options.split_match_arms && self.gives_several() {
            Some(self.options.match_arm_split_threshold.unwrap_or(THRESHOLD))
        } else {
            None
        }
    }

    /// Tells whether the body of an arm stands in a closure of its own.
    pub fn has_closure(&self, body: &Block) -> bool
        ensures { result ≡ Manner.has_closure (manner_in self.now) (BlockViews.block body.now) }
    {
        match self.closes_above() {
            Some(above) => weight_up_to(body, above.saturating_add(1)) > above,
            None => false,
        }
    }

    /// Returns what the statements of an arm are made from that has a closure of its own, or none.
    pub fn within(&self, own: bool) -> Emitter<'a>
        ensures setting { setting_in result ≡ setting_in self.now }
        ensures manner { manner_in result ≡ Manner.within own (manner_in self.now) }
    {
        Emitter {
            alloc: self.alloc,
            typed: self.typed,
            files: self.files,
            starts: self.starts,
            options: self.options,
            inside: self.inside || own,
        }
    }
}
