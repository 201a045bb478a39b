//! The arms of a match.

ghost use Rattle.std.specs.Prelude.{IfOk, OnOk};
ghost use Rattle.isle_tree.specs.Run.{read_value};
ghost use Rattle.isle_running.specs.Frames.{Follows};
ghost use Rattle.isle_running.specs.RunViews.{locals, within};
ghost use Rattle.isle_running.specs.Steps.{Chosen};

use crate::around::Around;
use crate::fit::fit;
use crate::frame::Frame;
use crate::reading::read_value;
use isle_core::List;
use isle_tree::{Read, Stmt, TPat};
use std::alloc::{AllocError, Global};

/// Returns the place of the first arm whose pattern fits what is read, and binds what that binds; if none fits, how
/// many arms there are. Not inlined, so that what is read costs no stack where the arm runs.
#[inline(never)]
pub fn first_fit(
    alloc: Global,
    around: &Around<'_>,
    read: &Read,
    cases: &[(TPat, List<Stmt>)],
    frame: &mut Frame<'_>,
) -> Result<usize, AllocError>
    ensures chosen { IfOk result (Chosen cases.now
        (read_value (within around.now frame.old) (locals frame.old.locals) read.now)
        around.now frame.old frame.new) }
    ensures follows { OnOk result (Follows frame.old frame.new) }
{
    let holding = read_value(alloc, around, frame, read)?;
    for place in 0..cases.len() {
        if fit(alloc, &cases[place].0, &holding, frame)? {
            return Ok(place);
        }
    }
    Ok(cases.len())
}
