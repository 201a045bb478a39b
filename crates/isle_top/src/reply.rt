//! The reply to a line.

ghost use Rattle.std.specs.Prelude.{◌≡◌, ◌≤◌, false, IfOk, IfErr};
ghost use Rattle.std.specs.Prelude.{◌+◌, ◌*◌, ◌^◌, length, ◌-◌};
ghost use Rattle.std.specs.String.{string_bytes};
ghost use Rattle.isle_outside.specs.Directory.{Rose};
ghost use Rattle.isle_settings.specs.Groups.{settings_of};
ghost use Rattle.isle_settings.specs.TargetLines.{IsGroupText};
ghost use Rattle.isle_top.specs.Job.{surroundings, IsReply};
ghost use Rattle.isle_top.specs.Jobs.{job_asked};
ghost use Rattle.isle_top.specs.SampleLine.{sample_source, AreCounts};
ghost use Rattle.isle_top.specs.Wants.{IsEarly, IsWant};

use crate::about::{help, version};
use crate::asked::{Asked, Over};
use crate::built::built;
use crate::compiled::compiled;
use crate::preluded::preluded;
use crate::ran::ran;
use crate::refusal::Refusal;
use crate::sampled::sampled;
use isle_command_line::Command;
use isle_core::Dir;
use isle_settings::{Isa, isa_text};
use isle_units::units_text;
use std::alloc::Global;

/// Returns the reply to a line (`specs/Jobs.antt`). Where the line is valid and no call of the directory fails, the
/// only refusal is want of memory.
pub fn reply<D: Dir>(alloc: Global, line: &Asked<'_>, dir: &mut D) -> Result<String, Refusal>
    ensures ok { let around = surroundings (D.files dir.old) (D.counts dir.old) (D.counts dir.new)
        in
        IfOk result (λ text.
        IsReply (job_asked line.now) around (string_bytes text)) }
    ensures err { let around = surroundings (D.files dir.old) (D.counts dir.old) (D.counts dir.new)
        in
        IfErr result (λ e. (job_asked line.now).fails e around) }
    ensures untried { (job_asked line.now).reads ≡ false → dir.new ≡ dir.old }
    ensures unasked { IfErr result (λ e. IsEarly e → dir.new ≡ dir.old) }
    ensures complete { (job_asked line.now).valid (D.files dir.old)
        → (Rose (D.counts dir.old).faults (D.counts dir.new).faults → ⊥) → IfErr result IsWant }
    ensures files { D.files dir.new ≡ D.files dir.old }
    ensures later { (D.counts dir.old).faults ≤ (D.counts dir.new).faults }
    ensures stays { (D.counts dir.old).faults ≡ 2 ^ 64 - 1
        → (D.counts dir.new).faults ≡ 2 ^ 64 - 1 }
    ensures given { let names = (job_asked line.now).inputs in
        (D.counts dir.new).given ≤ (D.counts dir.old).given + (2 ^ 24 + 1) * length names }
{
    match line.command {
        Command::Help => Ok(String::from_str(alloc, help())?),
        Command::Version => Ok(String::from_str(alloc, version())?),
        Command::Compile { options, names } => match compiled(
            alloc,
            names.as_slice(),
            options,
            dir,
        ) {
            Ok(text) => Ok(text),
            Err(e) => Err(Refusal::Files(e)),
        },
        Command::Build { options, unit } => {
            let over = Over {
                tables: line.tables,
                options,
            };
            built(alloc, &over, unit.as_str(), dir)
        }
        Command::Run(run) => ran(alloc, line.tables, run, dir),
        Command::Sample(size) => sample_reply(alloc, *size),
        Command::Prelude(kind) => preluded(alloc, line.tables, *kind),
        Command::Units => Ok(units_text(alloc)?),
        Command::Isa(target) => isa_reply(alloc, *target),
    }
}

// The reply to a line that tells what a sample becomes.
fn sample_reply(alloc: Global, size: usize) -> Result<String, Refusal>
    ensures ok { IfOk result (λ lines. AreCounts (sample_source size) (string_bytes lines)) }
    ensures err { IfErr result IsWant }
{
    match sampled(alloc, size) {
        Ok(lines) => Ok(lines),
        Err(e) => Err(Refusal::Files(e)),
    }
}

// The reply to a line that writes what a target has.
fn isa_reply(alloc: Global, target: Isa) -> Result<String, Refusal>
    ensures ok { IfOk result (λ text. IsGroupText (settings_of target) (string_bytes text)) }
    ensures err { IfErr result IsWant }
{
    Ok(isa_text(alloc, target)?)
}
