//! The results of a function that gives several.

ghost use Rattle.std.specs.Prelude.{◌≡◌, IfOk, OnOk, if◌then◌else◌};
ghost use Rattle.isle_tree.specs.Run as run;
ghost use Rattle.isle_running.specs.RunViews.{held, locals, state, flow};
ghost use Rattle.isle_running.specs.declared.frame.Frame.{Frame};
ghost use Rattle.isle_running.specs.Frames.{Follows};
ghost use Rattle.isle_running.specs.Steps.{RunsSo};

use crate::around::Around;
use crate::flow::Flow;
use crate::frame::Frame;
use crate::holding::{Holding, value_in};
use std::alloc::AllocError;

/// Gives one result more: the value that a place holds.
#[tactic(auto, using(crate::proofs::ValuesIn::on_value_in))]
pub fn run_extend(frame: &mut Frame<'_>, holding: Holding) -> Result<Flow, AllocError>
    ensures runs { IfOk result (λ f.
        run.on_value (held holding)
        (λ v. run.Goes (locals frame.old.locals) (run.one_given (state frame.old) v))
        ≡ flow f frame.new) }
    ensures follows { OnOk result (Follows frame.old frame.new) }
{
    match value_in(holding) {
        Some(value) => {
            frame.given.push(value)?;
            Ok(Flow::Goes)
        }
        None => Ok(Flow::Stuck),
    }
}

// Leaves the closure around, or else ends the function with the results given.
fn stops(inside: bool) -> Flow
    ensures { (frame : Frame) → run.stops inside (state frame) ≡ flow result frame }
{
    if inside { Flow::Leaves } else { Flow::Full }
}

/// Stops if the list of results has reached the limit.
pub fn run_overflow(around: &Around<'_>, frame: &Frame<'_>, inside: bool, limit: usize) -> Flow
    ensures { RunsSo
        (λ w env s. if run.is_full w.held limit s.given then run.stops inside s else run.Goes env s)
        around.now frame.now frame.now result }
{
    if limit.saturating_sub(around.held) <= frame.given.len() {
        stops(inside)
    } else {
        Flow::Goes
    }
}

/// What follows a closure that ended so: it goes on, or stops if the closure was left.
pub fn after_closure(end: Flow, inside: bool) -> Flow
    ensures { (frame : Frame)
        → run.after_closure inside (locals frame.locals) (flow end frame) ≡ flow result frame }
{
    match end {
        Flow::Goes => Flow::Goes,
        Flow::Ends(end) => Flow::Ends(end),
        Flow::Full => Flow::Full,
        Flow::Leaves => stops(inside),
        Flow::Stuck => Flow::Stuck,
    }
}
