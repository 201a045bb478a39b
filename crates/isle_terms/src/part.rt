//! The parts of rules and of templates, as they are reported.

use isle_core::{Name, TypeId};

/// What a part is, with its name: a parameter of a template, or what stands in a pattern or in an expression.
#[derive(Clone, Copy)]
pub enum Thing<'b, 'd> {
    Parameter(&'b Name<'d>),
    Integer(&'b i128),
    Truth(bool),
    Variable(&'b Name<'d>),
    /// The name stands without its `$`.
    Constant(&'b Name<'d>),
    Term(&'b Name<'d>),
    /// A converter that is put around a part of this type.
    Converter(Option<TypeId>),
    /// The type of a variable of a `let`.
    Type(&'b Name<'d>),
}

/// How many arguments a term is given, and how many it takes.
#[derive(Clone, Copy)]
pub struct Counts {
    pub given: usize,
    pub wanted: usize,
}

/// A part with the type that is expected where it stands and its own, if they are known, and the counts of a term
/// that is there.
#[derive(Clone, Copy)]
pub struct Part<'b, 'd> {
    pub thing: Thing<'b, 'd>,
    pub expected: Option<TypeId>,
    pub found: Option<TypeId>,
    pub counts: Option<Counts>,
}
