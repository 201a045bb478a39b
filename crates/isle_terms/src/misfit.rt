//! What is wrong with a declaration, with what names a term, with a converter or with a head, and how it is reported.

ghost use Rattle.std.specs.Prelude.{◌≡◌};
ghost use Rattle.isle_terms.specs.Misfits.{misfit_row};

use crate::converters::Conversion;
use isle_core::{Name, OutOfMemory, Text};
use isle_types::{Row, push_name, told};
use std::alloc::Global;

/// What is wrong with a definition, with the names concerned.
#[derive(Clone, Copy)]
pub enum Misfit<'b, 'd> {
    DeclaredTwice(&'b Name<'d>),
    Made(&'b Name<'d>),
    TypeMissing(&'b Name<'d>),
    ManyArguments(&'b Name<'d>),
    MultiAndPartial(&'b Name<'d>),
    Undeclared(&'b Name<'d>),
    SecondConstructor(&'b Name<'d>),
    SecondExtractor(&'b Name<'d>),
    InfallibleMulti(&'b Name<'d>),
    /// A term, how many parameters its extractor has, and how many arguments it has itself.
    ParameterCount(&'b Name<'d>, usize, usize),
    ParameterTwice(&'b Name<'d>),
    ConverterTypeMissing(&'b Name<'d>),
    SecondConverter(Conversion<'b, 'd>),
    ConverterUnfit(Conversion<'b, 'd>),
    HeadUndeclared(&'b Name<'d>),
    HeadExternal(&'b Name<'d>),
}

impl<'b, 'd> Misfit<'b, 'd> {
    /// Returns the row of the typing table that it is of.
    pub fn row(&self) -> Row
        ensures { result ≡ misfit_row self.now }
    {
        match self {
            Misfit::DeclaredTwice(_) => Row::DeclarationRepeats,
            Misfit::Made(_) => Row::DeclarationRepeats,
            Misfit::TypeMissing(_) => Row::TypeMissing,
            Misfit::ManyArguments(_) => Row::ManyArguments,
            Misfit::MultiAndPartial(_) => Row::MultiAndPartial,
            Misfit::Undeclared(_) => Row::TermUndeclared,
            Misfit::SecondConstructor(_) => Row::SecondOfTerm,
            Misfit::SecondExtractor(_) => Row::SecondOfTerm,
            Misfit::InfallibleMulti(_) => Row::InfallibleMulti,
            Misfit::ParameterCount(_, _, _) => Row::ParametersMisfit,
            Misfit::ParameterTwice(_) => Row::ParametersMisfit,
            Misfit::ConverterTypeMissing(_) => Row::ConverterMisfit,
            Misfit::SecondConverter(_) => Row::ConverterMisfit,
            Misfit::ConverterUnfit(_) => Row::ConverterMisfit,
            Misfit::HeadUndeclared(_) => Row::HeadMisfit,
            Misfit::HeadExternal(_) => Row::HeadMisfit,
        }
    }

    /// Reports it in words, for the user: no clause speaks of them.
    pub fn words(&self, alloc: Global) -> Result<Text, OutOfMemory> {
        let (before, name, after) = match self {
            Misfit::ParameterCount(term, params, args) => {
                return counts(alloc, term, *params, *args);
            }
            Misfit::SecondConverter(given) => return second(alloc, given),
            Misfit::ConverterUnfit(given) => return unfit(alloc, given),
            Misfit::DeclaredTwice(term) => ("term '", term, "' is declared twice"),
            Misfit::Made(term) => ("term '", term, "' is made by a type"),
            Misfit::TypeMissing(ty) | Misfit::ConverterTypeMissing(ty) => {
                ("type '", ty, "' is not declared")
            }
            Misfit::ManyArguments(term) => ("'", term, "' has more than 256 arguments"),
            Misfit::MultiAndPartial(term) => ("'", term, "' is multi and partial"),
            Misfit::Undeclared(term) | Misfit::HeadUndeclared(term) => {
                ("term '", term, "' is not declared")
            }
            Misfit::SecondConstructor(term) => ("term '", term, "' has two external constructors"),
            Misfit::SecondExtractor(term) => ("term '", term, "' has two extractors"),
            Misfit::InfallibleMulti(term) => (
                "'",
                term,
                "' is multi, and its extractor infallible",
            ),
            Misfit::ParameterTwice(term) => ("'", term, "' has one parameter twice"),
            Misfit::HeadExternal(term) => ("'", term, "' has a rule and an external constructor"),
        };
        told(alloc, before, name.as_str(), after)
    }
}

// That an extractor has that many parameters, and its term that many arguments.
fn counts(alloc: Global, term: &Name, params: usize, args: usize) -> Result<Text, OutOfMemory> {
    let many_params = plural(params);
    let many_args = plural(args);
    let behind = format!(in alloc;
        "' has {params} parameter{many_params}, its term has {args} argument{many_args}"
    )?;
    told(alloc, "'", term.as_str(), behind.as_str())
}

// How a noun ends of which there are so many.
fn plural(count: usize) -> &'static str {
    if count == 1 { "" } else { "s" }
}

// That there is an earlier converter between the types.
fn second(alloc: Global, given: &Conversion) -> Result<Text, OutOfMemory> {
    let mut words = converter(alloc, given)?;
    words.push_str("there is an earlier one")?;
    Ok(Text::new(words))
}

// That a converter's term does not fit it.
fn unfit(alloc: Global, given: &Conversion) -> Result<Text, OutOfMemory> {
    let mut words = converter(alloc, given)?;
    words.push_str("term '")?;
    push_name(&mut words, given.term.as_str())?;
    words.push_str("' does not take the one alone and give the other")?;
    Ok(Text::new(words))
}

// Between which types a converter stands.
fn converter(alloc: Global, given: &Conversion) -> Result<String, OutOfMemory> {
    let mut words = String::from_str(alloc, "converter from '")?;
    push_name(&mut words, given.from.as_str())?;
    words.push_str("' to '")?;
    push_name(&mut words, given.to.as_str())?;
    words.push_str("': ")?;
    Ok(words)
}
