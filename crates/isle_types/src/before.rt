//! What definitions declare before one.

ghost use Rattle.std.specs.Prelude.{◌≡◌, [], ◌++◌, IfOk, is_some, false};
ghost use Rattle.isle_declarations.specs.Repeats.{repeats_after};
ghost use Rattle.isle_declarations.specs.Symbols.{index_of, number_or};
ghost use Rattle.isle_types.specs.Builtins.{builtin_names, type_id};
ghost use Rattle.isle_types.specs.Gathered.{IsBefore};

use crate::bodies::meets;
use isle_core::{Name, Text, TypeId};
use isle_declarations::Symbols;
use std::alloc::{AllocError, Global};

/// The names of types and constants, and the terms that types make.
#[derive(Drop)]
pub struct Before<'b> {
    pub types: Symbols<'b>,
    pub made: Symbols<'b>,
    pub constants: Symbols<'b>,
}

impl<'b> Before<'b> {
    /// Begins before the first definition.
    pub fn new(alloc: Global) -> Result<Before<'b>, AllocError>
        ensures { IfOk result (λ before. IsBefore [] before) }
    {
        Ok(Before {
            types: builtin_types(alloc)?,
            made: Symbols::new(alloc),
            constants: Symbols::new(alloc),
        })
    }

    /// Returns the type of a name, by its number; if there is none, the first.
    pub fn type_id(&self, name: &Name) -> TypeId
        ensures { result ≡ type_id (number_or (index_of self.now.types name.now)) }
    {
        match self.types.find(name.as_str()) {
            Some(number) => TypeId(number),
            None => TypeId(0),
        }
    }
}

// The names of the builtin types, by their numbers.
fn builtin_types<'b>(alloc: Global) -> Result<Symbols<'b>, AllocError>
    ensures { IfOk result (λ names. names ≡ builtin_names) }
{
    let mut names = Symbols::new(alloc);
    names.intern("bool")?;
    names.intern("u8")?;
    names.intern("u16")?;
    names.intern("u32")?;
    names.intern("u64")?;
    names.intern("u128")?;
    names.intern("usize")?;
    names.intern("i8")?;
    names.intern("i16")?;
    names.intern("i32")?;
    names.intern("i64")?;
    names.intern("i128")?;
    names.intern("isize")?;
    Ok(names)
}

/// Returns the first of the names that was met before; those before it, or else all, are met now.
pub fn repeated_term<'b>(
    before: &mut Symbols<'b>,
    names: &'b [Text],
) -> Result<Option<&'b str>, AllocError>
    ensures found { IfOk result (λ found. is_some found ≡ repeats_after before.old names.now) }
    ensures names { IfOk result (λ found.
        is_some found ≡ false → before.new ≡ before.old ++ names.now) }
{
    for name in names {
        if meets(before, name.as_str())? {
            return Ok(Some(name.as_str()));
        }
    }
    Ok(None)
}
