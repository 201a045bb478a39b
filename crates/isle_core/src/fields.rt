//! The fields of variants and structs, by number.

ghost use Rattle.std.specs.Prelude.{◌≡◌, IfOk, length, slice_get};
ghost use Rattle.std.specs.Fmt.{decimal};
ghost use Rattle.isle_core.specs.HasType.{typed_fields};
ghost use Rattle.isle_core.specs.Rule.{Environment};

use crate::types::{Fields, TypeEnv};
use isle_base::{Text, TypeId};
use std::alloc::{AllocError, Global};

/// Returns how many fields there are.
pub fn field_count(fields: &Fields) -> usize
    ensures { (env : Environment) → result ≡ length (typed_fields env fields.now) }
{
    match fields {
        Fields::Unit => 0,
        Fields::Struct(named) => named.as_slice().len(),
        Fields::Tuple(tys) => tys.as_slice().len(),
    }
}

/// Makes the text of a number, in decimal. The only error is want of memory.
pub fn numbered(alloc: Global, index: usize) -> Result<Text, AllocError>
    ensures { IfOk result (λ text. text ≡ decimal index) }
{
    Ok(Text::new(format!(in alloc; "{index}")?))
}

impl TypeEnv {
    /// Returns the name and the type of the field of this number, if there is one; the fields of a tuple have their
    /// numbers for names. The only error is want of memory.
    pub fn field_at(
        &self,
        alloc: Global,
        fields: &Fields,
        index: usize,
    ) -> Result<Option<(Text, TypeId)>, AllocError>
        ensures { IfOk result (λ found.
            (env : Environment) → env.types ≡ self.now
            → found ≡ slice_get (typed_fields env fields.now) index) }
    {
        match fields {
            Fields::Unit => Ok(None),
            Fields::Struct(named) => match named.as_slice().get(index) {
                Some(field) => Ok(Some((Text::copied(alloc, self.symbol(field.name))?, field.ty))),
                None => Ok(None),
            },
            Fields::Tuple(tys) => match tys.as_slice().get(index) {
                Some(ty) => Ok(Some((numbered(alloc, index)?, *ty))),
                None => Ok(None),
            },
        }
    }
}
