//! What of a row may not be supported.

/// What isn't supported of a row. If several of these are so of one row, the first in this order is reported.
#[derive(Clone, Copy, Debug, PartialEq, Eq)]
pub enum Shape {
    /// A name that can't stand in the generated texts.
    BadName,
    /// A name that was met before.
    RepeatedName,
    /// A name that the preludes give to something else.
    ReservedName,
    /// An operand `ty` beside a type argument, which has that name.
    TyOperand,
    /// The format isn't there.
    FormatIndex,
    /// Another number of value operands than the format has.
    ValueCount,
    /// Too many block operands, or another number of them than the format has.
    BlockCount,
    /// Too many raw block operands, or another number of them than the format has.
    RawBlockCount,
    /// Another number of immediates than the format has.
    ImmCount,
    /// An immediate of another type than the format's.
    ImmType,
    /// A type of immediates with a value twice, or with two sets of values.
    ImmShape,
    /// A value list, and not exactly one operand for any number of values.
    NoVarargs,
    /// Several value operands, and none that has the controlling type.
    NoTypevar,
    /// An immediate operand that is written.
    WrittenImm,
    /// A memory operand that must be aligned.
    AlignedMem,
    /// Written operands for which there is no constructor.
    WrittenOperands,
    /// Operands that aren't read, and of which there is more than a register for the result.
    ImplicitOperand,
    /// An alternate of an instruction without a vector operand.
    AlternateWithoutXmm,
    /// Binary operands that aren't one, two or three types.
    BinaryOperands,
    /// More than two results.
    Results,
    /// A field's type that isn't one of operands.
    FieldType,
}
