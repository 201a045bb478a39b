//! The rows of the typing table: what may be wrong with definitions.

ghost use Rattle.std.specs.Prelude.{◌≡◌};
ghost use Rattle.isle_types.specs.Row.{number};

/// A row, named after what it refuses.
#[derive(Clone, Copy, Debug, PartialEq, Eq)]
pub enum Row {
    /// A type's name repeats an earlier type's or a builtin's.
    TypeRepeats,
    /// A variant's name repeats in its enum, or a field's in its variant or struct.
    FieldRepeats,
    /// A field's type is not declared.
    FieldTypeMissing,
    /// A variant or a struct has more than 256 fields.
    ManyFields,
    /// The term made by a variant or a struct repeats another made term.
    MadeTermRepeats,
    /// A constant's name repeats, or its type is neither builtin nor primitive.
    ConstantMisfit,
    /// A declaration repeats an earlier one or a made term.
    DeclarationRepeats,
    /// A declaration names a type that is not declared.
    TypeMissing,
    /// A declaration has more than 256 arguments.
    ManyArguments,
    /// A declaration is `multi` and `partial`.
    MultiAndPartial,
    /// An external constructor, an extractor of either kind or a converter names a term that is
    /// not declared.
    TermUndeclared,
    /// A second external constructor of a term, or a second extractor of either kind.
    SecondOfTerm,
    /// An infallible extractor of a `multi` term.
    InfallibleMulti,
    /// An extractor has another number of parameters than its term, or one parameter twice.
    ParametersMisfit,
    /// A converter names a type that is not declared, its term does not take one into the other,
    /// or its pair repeats.
    ConverterMisfit,
    /// A rule's head is not declared, or its term has an external constructor.
    HeadMisfit,
    /// An extractor reaches itself through the extractors in its pattern.
    ExtractorReachesItself,
    /// A template names a variable that is no parameter, lacks a parameter, or has one at another
    /// type.
    TemplateMisfit,
    /// A term in a pattern is not there, has another number of arguments or no extractor; a head
    /// has another number.
    PatternTermMisfit,
    /// A pattern's type is not the expected one, and no converter fits.
    PatternTypeMisfit,
    /// An integer where no type of integers is expected, or `true` or `false` if another type
    /// than bool is.
    LiteralMisfit,
    /// A constant is not declared.
    ConstantUndeclared,
    /// A variable that is met again has another type.
    VariableTypeMisfit,
    /// A `multi` term as extractor in a rule of a term without `multi`.
    MultiExtractor,
    /// An expression's variable is not bound, or its term is not there, has another number of
    /// arguments or no constructor.
    ExprNameMisfit,
    /// An expression's type is not the expected one, and no converter fits; a `let` names a type
    /// that is not declared.
    ExprTypeMisfit,
    /// A condition calls a term that is not `pure`.
    ImpureCondition,
    /// A right side calls a partial term in a term that is not `partial`.
    PartialCall,
    /// A right side calls a term that is not `pure` in a `pure` term.
    ImpureCall,
    /// An expression calls a `multi` term in a rule of a term without `multi`.
    MultiCall,
    /// A rule has more than 4,096 nodes.
    ManyNodes,
}

impl Row {
    /// Returns its number, by which rows are in order.
    pub fn number(self) -> u8
        ensures { result ≡ number self }
    {
        match self {
            Row::TypeRepeats => 1,
            Row::FieldRepeats => 2,
            Row::FieldTypeMissing => 3,
            Row::ManyFields => 4,
            Row::MadeTermRepeats => 5,
            Row::ConstantMisfit => 6,
            Row::DeclarationRepeats => 7,
            Row::TypeMissing => 8,
            Row::ManyArguments => 9,
            Row::MultiAndPartial => 10,
            Row::TermUndeclared => 11,
            Row::SecondOfTerm => 12,
            Row::InfallibleMulti => 13,
            Row::ParametersMisfit => 14,
            Row::ConverterMisfit => 15,
            Row::HeadMisfit => 16,
            Row::ExtractorReachesItself => 17,
            Row::TemplateMisfit => 18,
            Row::PatternTermMisfit => 19,
            Row::PatternTypeMisfit => 20,
            Row::LiteralMisfit => 21,
            Row::ConstantUndeclared => 22,
            Row::VariableTypeMisfit => 23,
            Row::MultiExtractor => 24,
            Row::ExprNameMisfit => 25,
            Row::ExprTypeMisfit => 26,
            Row::ImpureCondition => 27,
            Row::PartialCall => 28,
            Row::ImpureCall => 29,
            Row::MultiCall => 30,
            Row::ManyNodes => 31,
        }
    }
}
