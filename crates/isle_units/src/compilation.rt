//! A unit.

ghost use Rattle.std.specs.Prelude.{◌≡◌, ◌++◌, IfOk, OnOk, map};
ghost use Rattle.isle_core.specs.Inputs.{bytes_each};
ghost use Rattle.isle_units.specs.Units.{inputs_of};

use isle_core::{List, OutOfMemory, Text};
use std::alloc::{AllocError, Global};

/// A unit: what is compiled together. An input is a file or a folder of files.
#[derive(Debug, Drop)]
pub struct IsleCompilation {
    pub name: Text,
    /// The file that its text is written to.
    pub output: Text,
    /// The inputs that are written by hand.
    pub tracked_inputs: List<Text>,
    /// The inputs that are generated.
    pub untracked_inputs: List<Text>,
}

// Appends copies of names.
fn push_copies(alloc: Global, names: &mut Vec<String>, copied: &[Text]) -> Result<(), AllocError>
    ensures { OnOk result (bytes_each names.new.items ≡ bytes_each names.old.items ++ copied.now) }
{
    for name in copied {
        names.push(String::from_str(alloc, name.as_str())?)?;
    }
    Ok(())
}

impl IsleCompilation {
    /// Returns the names of its inputs: tracked ones, and then untracked ones. The only error is want of memory.
    pub fn inputs(&self, alloc: Global) -> Result<Vec<String>, OutOfMemory>
        ensures { IfOk result (λ names. bytes_each names.items ≡ inputs_of self.now) }
    {
        let mut names = Vec::new(alloc);
        push_copies(alloc, &mut names, self.tracked_inputs.as_slice())?;
        push_copies(alloc, &mut names, self.untracked_inputs.as_slice())?;
        Ok(names)
    }
}
