//! Definitions of the numeric prelude, one by one.

ghost use Rattle.std.specs.Prelude.{◌≡◌, ◌++◌, [], ◌∷◌, Bool, true, false, OnOk, IfOk, codes};
ghost use Rattle.std.specs.Prelude.{string_bytes};
ghost use Rattle.isle_ast.specs.Tree.{ExternConstructor, ExternExtractor, Extractor, Converter};
ghost use Rattle.isle_ast.specs.Views.{pattern};
ghost use Rattle.isle_writing.specs.Text.{def_text, def_texts};
ghost use Rattle.isle_numerics.specs.Definitions.{constructed, declared, no_place, prefixed};

use isle_ast::{AstPattern, Def};
use isle_core::{List, Name, Pos};
use isle_writing::push_def;
use std::alloc::{AllocError, Global};

/// The place that all definitions get.
pub const NO_PLACE: Pos = Pos { file: 0, offset: 0 };

/// Returns a type's name, and a word after `_`.
pub fn prefixed(alloc: Global, ty: &str, word: &str) -> Result<String, AllocError>
    ensures { IfOk result (λ text. string_bytes text ≡ prefixed ty.now word.now) }
{
    let mut text = String::from_str(alloc, ty)?;
    text.push_str("_")?;
    text.push_str(word)?;
    Ok(text)
}

/// Returns a type's name, and two words after `_`.
pub fn prefixed_twice(
    alloc: Global,
    ty: &str,
    first: &str,
    second: &str,
) -> Result<String, AllocError>
    ensures { IfOk result (λ text. string_bytes text ≡ prefixed ty.now (first.now ++ second.now)) }
{
    let mut text = String::from_str(alloc, ty)?;
    text.push_str("_")?;
    text.push_str(first)?;
    text.push_str(second)?;
    Ok(text)
}

/// Appends the declaration of a pure term.
pub fn push_declared(
    text: &mut String,
    term: &str,
    partial: bool,
    args: List<Name<'_>>,
    ret: &str,
) -> Result<(), AllocError>
    ensures { OnOk result
        (string_bytes text.new
        ≡ string_bytes text.old ++ def_text (declared term.now partial args.entry ret.now)) }
{
    let def = Def::Decl {
        term: Name::new(term),
        pure: true,
        multi: false,
        partial,
        recursive: false,
        args,
        ret: Name::new(ret),
        pos: NO_PLACE,
    };
    push_def(text, &def)
}

/// Appends a pure term that the Rust function of its name computes.
pub fn push_constructed(
    text: &mut String,
    term: &str,
    partial: bool,
    args: List<Name<'_>>,
    ret: &str,
) -> Result<(), AllocError>
    ensures { OnOk result
        (string_bytes text.new
        ≡ string_bytes text.old ++ def_texts (constructed term.now partial args.entry ret.now)) }
{
    push_declared(text, term, partial, args, ret)?;
    let def = Def::ExternConstructor {
        term: Name::new(term),
        func: Name::new(term),
        pos: NO_PLACE,
    };
    push_def(text, &def)
}

/// Appends an external extractor and the Rust function that answers it.
pub fn push_answered(text: &mut String, term: &str, func: &str) -> Result<(), AllocError>
    ensures { OnOk result
        (string_bytes text.new
        ≡ string_bytes text.old ++ def_text (ExternExtractor term.now func.now false no_place)) }
{
    let def = Def::ExternExtractor {
        term: Name::new(term),
        func: Name::new(func),
        infallible: false,
        pos: NO_PLACE,
    };
    push_def(text, &def)
}

/// Appends an extractor that stands for a pattern.
pub fn push_template<'t>(
    text: &mut String,
    term: &'t str,
    params: List<Name<'t>>,
    template: AstPattern<'t>,
) -> Result<(), AllocError>
    ensures { OnOk result
        (string_bytes text.new
        ≡ string_bytes text.old
        ++ def_text (Extractor term.now params.entry (pattern template.entry) no_place)) }
{
    let def = Def::Extractor {
        term: Name::new(term),
        params,
        template,
        pos: NO_PLACE,
    };
    push_def(text, &def)
}

/// Appends a converter.
pub fn push_converter(text: &mut String, from: &str, to: &str, term: &str) -> Result<(), AllocError>
    ensures { OnOk result
        (string_bytes text.new
        ≡ string_bytes text.old ++ def_text (Converter from.now to.now term.now no_place)) }
{
    let def = Def::Converter {
        from: Name::new(from),
        to: Name::new(to),
        term: Name::new(term),
        pos: NO_PLACE,
    };
    push_def(text, &def)
}
