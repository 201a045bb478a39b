//! Names as they stand, one after the other.

ghost use Rattle.std.specs.Prelude.{◌≡◌, OnOk, fold, flat_map};
ghost use Rattle.isle_declarations.specs.Symbols.{added};

use crate::symbols::Symbols;
use isle_core::{List, Name, Text};
use std::alloc::AllocError;

/// One name. The only error is want of memory.
pub fn intern<'b, 'd>(names: &mut Symbols<'b>, name: &'b Name<'d>) -> Result<(), AllocError>
    ensures { OnOk result (names.new ≡ added names.old name.now) }
{
    names.intern(name.as_str())?;
    Ok(())
}

/// Names in order. The only error is want of memory.
pub fn intern_names<'b, 'd>(
    names: &mut Symbols<'b>,
    given: &'b [Name<'d>],
) -> Result<(), AllocError>
    ensures { OnOk result (names.new ≡ fold added names.old given.now) }
{
    for name in given {
        intern(names, name)?;
    }
    Ok(())
}

// Texts in order.
fn intern_texts<'b>(names: &mut Symbols<'b>, texts: &'b [Text]) -> Result<(), AllocError>
    ensures { OnOk result (names.new ≡ fold added names.old texts.now) }
{
    for text in texts {
        names.intern(text.as_str())?;
    }
    Ok(())
}

/// Lists of texts in order. The only error is want of memory.
pub fn intern_lists<'b>(names: &mut Symbols<'b>, lists: &'b [List<Text>]) -> Result<(), AllocError>
    ensures { OnOk result (names.new ≡ fold added names.old (flat_map (λ texts. texts) lists.now)) }
{
    for texts in lists {
        intern_texts(names, texts.as_slice())?;
    }
    Ok(())
}
