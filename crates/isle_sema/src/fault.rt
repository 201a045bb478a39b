//! What is wrong with a template or a rule, and how it is reported.

ghost use Rattle.std.specs.Prelude.{IfOk};
ghost use Rattle.isle_types.specs.Gathered.{TellsFault};

use isle_core::{Error, Name, OutOfMemory, Pos, Text, TypeEnv};
use isle_terms::{Culprit, push_culprit};
use isle_types::{Row, push_name, told, type_error};
use std::alloc::Global;

/// The row that a template or a rule breaks, its place, the name of its term, and the part that breaks it, if one
/// does.
#[derive(Clone, Copy)]
pub struct Fault<'b, 'd> {
    pub row: Row,
    pub pos: Pos,
    pub term: &'b Name<'d>,
    pub culprit: Option<Culprit<'b, 'd>>,
}

impl<'b, 'd> Fault<'b, 'd> {
    /// Returns the error that reports it, with the names of these types.
    pub fn error(&self, alloc: Global, types: &TypeEnv) -> Result<Error, OutOfMemory>
        ensures { IfOk result (λ error. TellsFault (self.now.row, self.now.pos) error) }
    {
        let msg = match &self.culprit {
            Some(culprit) => {
                let mut words = String::from_str(alloc, "'")?;
                push_name(&mut words, self.term.as_str())?;
                words.push_str("': ")?;
                push_culprit(alloc, &mut words, types, self.term, culprit)?;
                Text::new(words)
            }
            None => told(alloc, "'", self.term.as_str(), whole(self.row))?,
        };
        Ok(type_error(self.row, self.pos, msg))
    }
}

// What a row refuses in a whole extractor or rule, in words after the name of its term.
fn whole(row: Row) -> &'static str {
    match row {
        Row::ExtractorReachesItself => "': its extractor uses itself, by itself or through others",
        Row::ManyNodes => "': the rule has more than 4,096 nodes when its templates are replaced",
        Row::TemplateMisfit
        | Row::PatternTermMisfit
        | Row::PatternTypeMisfit
        | Row::LiteralMisfit
        | Row::ConstantUndeclared
        | Row::VariableTypeMisfit
        | Row::MultiExtractor
        | Row::ExprNameMisfit
        | Row::ExprTypeMisfit
        | Row::ImpureCondition
        | Row::PartialCall
        | Row::ImpureCall
        | Row::MultiCall
        | Row::TypeRepeats
        | Row::FieldRepeats
        | Row::FieldTypeMissing
        | Row::ManyFields
        | Row::MadeTermRepeats
        | Row::ConstantMisfit
        | Row::DeclarationRepeats
        | Row::TypeMissing
        | Row::ManyArguments
        | Row::MultiAndPartial
        | Row::TermUndeclared
        | Row::SecondOfTerm
        | Row::InfallibleMulti
        | Row::ParametersMisfit
        | Row::ConverterMisfit
        | Row::HeadMisfit => "' is wrong",
    }
}
