//! The texts of the four files.

ghost use Rattle.std.specs.Prelude.{◌≡◌, IfOk};
ghost use Rattle.isle_prelude_files.specs.Made.{AreTexts, MakesTexts, of_table};

use isle_core::OutOfMemory;
use isle_meta::{GenError, TableFail, Tables};
use isle_numeric_methods::numerics_rust;
use isle_numeric_text::numerics_isle;
use isle_prelude::{lower_of, opt_of};
use isle_table_check::check_tables;
use std::alloc::Global;

/// The texts: the two of the numeric prelude, and those of instructions in an optimizer and in lowering.
#[derive(Drop)]
pub struct Texts {
    pub numerics: String,
    pub methods: String,
    pub opt: String,
    pub lower: String,
}

// The refusal of tables, where no file was written.
fn of_table(fail: TableFail) -> GenError
    ensures { result ≡ of_table fail }
{
    match fail {
        TableFail::Unsupported(found) => GenError::Unsupported(found),
        TableFail::Memory => GenError::Memory { written: 0 },
    }
}

// Makes the texts, whether the rows of the tables are supported or not.
fn texts_of(alloc: Global, tables: &Tables) -> Result<Texts, OutOfMemory>
    ensures { IfOk result (AreTexts tables.now) }
{
    Ok(Texts {
        numerics: numerics_isle(alloc)?,
        methods: numerics_rust(alloc)?,
        opt: opt_of(alloc, tables)?,
        lower: lower_of(alloc, tables)?,
    })
}

/// Makes the texts. `Unsupported` has the first row of the tables that isn't supported, and the first shape that it
/// breaks; `Memory` says that memory ran out.
pub fn made_texts(alloc: Global, tables: &Tables) -> Result<Texts, GenError>
    ensures { MakesTexts tables.now result }
{
    match check_tables(alloc, tables) {
        Ok(()) => {}
        Err(fail) => return Err(of_table(fail)),
    }
    match texts_of(alloc, tables) {
        Ok(texts) => Ok(texts),
        Err(_) => Err(GenError::Memory { written: 0 }),
    }
}
