//! The paths of a unit's inputs.

use isle_case_reading::shown::push_all;
use isle_case_reading::slip::Slip;
use isle_core::{List, Text};
use isle_outside::MemDir;
use isle_units::IsleCompilation;
use std::alloc::Global;

/// The files of the directory, none of which has a byte.
const FILES: [&str; 6] = [
    "d/b.isle",
    "d/a.isle",
    "d/x.txt",
    "d/.isle",
    "d/e/c.isle",
    "f.isle",
];

// A unit of these inputs.
fn unit(alloc: Global, inputs: &[&str]) -> Result<IsleCompilation, Slip> {
    let mut tracked = Vec::new(alloc);
    for input in inputs {
        tracked.push(Text::copied(alloc, input)?)?;
    }
    Ok(IsleCompilation {
        name: Text::copied(alloc, "u")?,
        output: Text::copied(alloc, "u.rs")?,
        tracked_inputs: List::new(tracked),
        untracked_inputs: List::new(Vec::new(alloc)),
    })
}

// The directory, whose calls of these numbers fail.
fn dir(alloc: Global, fails: &[usize]) -> Result<MemDir, Slip> {
    let mut files = Vec::new(alloc);
    for name in FILES {
        files.push((String::from_str(alloc, name)?, Vec::new(alloc)))?;
    }
    let mut failing = Vec::new(alloc);
    failing.extend_from_slice(fails)?;
    Ok(MemDir::new(alloc, files, failing, 100))
}

// Writes the paths of inputs, or why there are none.
fn push_paths(
    alloc: Global,
    lines: &mut String,
    inputs: &[&str],
    fails: &[usize],
) -> Result<(), Slip> {
    let mut dir = dir(alloc, fails)?;
    match unit(alloc, inputs)?.paths(alloc, &mut dir) {
        Ok(paths) => {
            for path in &paths {
                push_all(lines, &["path ", path.as_str(), "\n"])?;
            }
        }
        Err(error) => {
            let told = format!(in alloc; "no paths: {error:?}, {error}\n")?;
            lines.push_str(told.as_str())?;
        }
    }
    Ok(())
}

/// Writes the paths of a folder and of files, and why there are none of one that is absent, or where a call fails.
pub fn push_unit_paths(alloc: Global, lines: &mut String) -> Result<(), Slip> {
    push_paths(alloc, lines, &["d"], &[])?;
    push_paths(alloc, lines, &["f.isle", "d/e", "d/x.txt"], &[])?;
    push_paths(alloc, lines, &["f.isle", "g"], &[])?;
    push_paths(alloc, lines, &["d"], &[1])?;
    push_paths(alloc, lines, &["d"], &[2])
}
