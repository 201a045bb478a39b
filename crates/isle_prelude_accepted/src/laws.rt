//! The laws as clauses.

ghost use Rattle.isle_meta.specs.declared.tables.Tables.{Tables};
ghost use Rattle.isle_table_check.specs.ProgramTables.{sample_tables};
ghost use Rattle.isle_table_check.specs.SupportedTables.{AreSupported};
ghost use Rattle.isle_prelude_accepted.specs.Accepted.{IsPreludeAccepted, IsPreludeLawful};
ghost use Rattle.isle_prelude_accepted.specs.Compiled.{AreDefsCompiled, AreFilesCompiled};
ghost use Rattle.isle_prelude_accepted.specs.Compiled.{AreTextsCompiled};
ghost use Rattle.isle_prelude_accepted.specs.Plain.{ArePlain};

/// Says that the written prelude of supported and plain tables, with the file of an optimizer behind it, is valid input:
/// its definitions have a lawful environment, and texts that spell them are accepted. It does nothing.
#[tactic(auto, using(crate::proofs::PreludeAccepted::prelude_lawful, crate::proofs::AcceptedTexts::prelude_accepted))]
pub fn prelude_accepted()
    ensures lawful { (t : Tables) → AreSupported t → ArePlain t → IsPreludeLawful t }
    ensures accepted { (t : Tables) → AreSupported t → ArePlain t → IsPreludeAccepted t }
{}

/// Says that compiling it is refused only for want of memory: its definitions at whatever places, its texts, and files
/// of a directory that hold them, if none of the directory's calls fails. It does nothing.
#[tactic(auto, using(crate::proofs::CompiledPrelude::defs_compiled))]
pub fn prelude_compiled()
    ensures defs { (t : Tables) → AreSupported t → ArePlain t → AreDefsCompiled t }
    ensures texts { (t : Tables) → AreSupported t → ArePlain t → AreTextsCompiled t }
    ensures files { (t : Tables) → AreSupported t → ArePlain t → AreFilesCompiled t }
{}

/// Says so of the program's own tables, which are supported and plain. It does nothing.
#[tactic(auto, using(crate::proofs::ProgramPrelude::sample_plain, crate::proofs::ProgramPrelude::sample_accepted))]
pub fn sample_compiled()
    ensures plain { ArePlain sample_tables }
    ensures accepted { IsPreludeAccepted sample_tables }
    ensures files { AreFilesCompiled sample_tables }
{}
