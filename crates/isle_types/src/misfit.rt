//! What is wrong with a definition, and how it is reported.

ghost use Rattle.std.specs.Prelude.{◌≡◌};
ghost use Rattle.isle_types.specs.Gathered.{misfit_row};

use crate::row::Row;
use crate::words::{push_name, told};
use isle_core::{Name, OutOfMemory, Text};
use std::alloc::Global;

/// What is wrong with a type or a constant, with the names concerned.
#[derive(Clone, Copy)]
pub enum Misfit<'b, 'd> {
    TypeTwice(&'b Name<'d>),
    VariantTwice(&'b Name<'d>),
    FieldTwice(&'b Name<'d>),
    TypeMissing(&'b Name<'d>),
    ManyFields(&'b Name<'d>),
    TermTwice(&'b str),
    ConstantTwice(&'b Name<'d>),
    /// A constant, and its type's name.
    NotScalar(&'b Name<'d>, &'b Name<'d>),
}

impl<'b, 'd> Misfit<'b, 'd> {
    /// Returns the row of the typing table that it is of.
    pub fn row(&self) -> Row
        ensures { result ≡ misfit_row self.now }
    {
        match self {
            Misfit::TypeTwice(_) => Row::TypeRepeats,
            Misfit::VariantTwice(_) => Row::FieldRepeats,
            Misfit::FieldTwice(_) => Row::FieldRepeats,
            Misfit::TypeMissing(_) => Row::FieldTypeMissing,
            Misfit::ManyFields(_) => Row::ManyFields,
            Misfit::TermTwice(_) => Row::MadeTermRepeats,
            Misfit::ConstantTwice(_) => Row::ConstantMisfit,
            Misfit::NotScalar(_, _) => Row::ConstantMisfit,
        }
    }

    /// Reports it in words, for the user: no clause speaks of them.
    pub fn words(&self, alloc: Global) -> Result<Text, OutOfMemory> {
        match self {
            Misfit::TypeTwice(name) => told(alloc, "type '", name.as_str(), "' is declared twice"),
            Misfit::VariantTwice(name) => told(
                alloc,
                "variant '",
                name.as_str(),
                "' is declared twice",
            ),
            Misfit::FieldTwice(name) => told(
                alloc,
                "field '",
                name.as_str(),
                "' is declared twice",
            ),
            Misfit::TypeMissing(name) => told(alloc, "type '", name.as_str(), "' is not declared"),
            Misfit::ManyFields(name) => told(
                alloc,
                "'",
                name.as_str(),
                "' has more than 256 fields",
            ),
            Misfit::TermTwice(name) => told(alloc, "term '", name, "' is made twice"),
            Misfit::ConstantTwice(name) => told(
                alloc,
                "constant '",
                name.as_str(),
                "' is declared twice",
            ),
            Misfit::NotScalar(name, ty) => not_scalar(alloc, name, ty),
        }
    }
}

// That a constant's type is not one that a constant may have.
fn not_scalar(alloc: Global, name: &Name, ty: &Name) -> Result<Text, OutOfMemory> {
    let mut words = String::from_str(alloc, "constant '")?;
    push_name(&mut words, name.as_str())?;
    words.push_str("' has the type '")?;
    push_name(&mut words, ty.as_str())?;
    words.push_str("', which is neither builtin nor primitive")?;
    Ok(Text::new(words))
}
