//! The text of declared types.

ghost use Rattle.std.specs.Prelude.{◌≡◌, ◌++◌, OnOk};
ghost use Rattle.std.specs.List.{AllByRecursion};
ghost use Rattle.isle_spelling.specs.Identifier.{IsIdentifier};
ghost use Rattle.isle_tree.specs.WellFormed.{IsField, AreFields, IsVariant, IsTypeBody, IsTypeItem};
ghost use Rattle.isle_target.specs.Spelling.{visible, field_tokens, named_tokens, places_tokens};
ghost use Rattle.isle_target.specs.Spelling.{fields_tokens, variant_tokens, variants_tokens};
ghost use Rattle.isle_target.specs.Spelling.{struct_end};
ghost use Rattle.isle_target.specs.Spelling.{type_body_tokens, derive_tokens, type_tokens};
ghost use Rattle.isle_target.specs.Spelling.{types_tokens};

use crate::context::print_comma;
use crate::function::print_colon;
use isle_core::Text;
use isle_printer::Printer;
use isle_tree::{TFields, TypeBody, TypeItem, is_plain};
use std::alloc::AllocError;

// Prints `#[derive(..)]`.
#[tactic(auto, unfolding(isle_printer::specs::Token::step, isle_printer::specs::Token::begun))]
fn print_derive(out: &mut Printer, plain: bool, debug: bool) -> Result<(), AllocError>
    ensures { OnOk result (out.new ≡ out.old ++ derive_tokens plain debug) }
{
    match (plain, debug) {
        (true, true) => out.piece("#[derive(Copy, Clone, PartialEq, Eq, Debug)]"),
        (true, false) => out.piece("#[derive(Copy, Clone, PartialEq, Eq)]"),
        (false, true) => out.piece("#[derive(Clone, Debug)]"),
        (false, false) => out.piece("#[derive(Clone)]"),
    }
}

// Prints what stands before a field that others see.
#[tactic(auto, unfolding(isle_printer::specs::Token::step, isle_printer::specs::Token::begun))]
fn print_visible(out: &mut Printer, public: bool) -> Result<(), AllocError>
    ensures { OnOk result (out.new ≡ out.old ++ visible public) }
{
    if public { out.piece("pub ") } else { Ok(()) }
}

// Prints a field with its name and type, on a line of its own.
#[tactic(auto, using(crate::proofs::Names::identifier_is_word))]
fn print_field(out: &mut Printer, public: bool, field: &(Text, Text)) -> Result<(), AllocError>
    requires { IsField field.now }
    ensures { OnOk result (out.new ≡ out.old ++ field_tokens public field.now) }
{
    out.line()?;
    print_visible(out, public)?;
    out.word(field.0.as_str())?;
    print_colon(out)?;
    out.word(field.1.as_str())?;
    out.mark(",")
}

// Prints fields with names, each on a line, and what closes them.
fn print_named(out: &mut Printer, public: bool, fields: &[(Text, Text)]) -> Result<(), AllocError>
    requires { AllByRecursion IsField fields.now }
    ensures { OnOk result (out.new ≡ out.old ++ named_tokens public fields.now) }
{
    out.indent();
    for field in fields {
        print_field(out, public, field)?;
    }
    out.dedent();
    out.line()?;
    out.mark("}")
}

// Prints fields without names, and what closes them.
#[tactic(auto, using(crate::proofs::Names::identifier_is_word))]
fn print_places(out: &mut Printer, public: bool, tys: &[Text]) -> Result<(), AllocError>
    requires { AllByRecursion IsIdentifier tys.now }
    ensures { OnOk result (out.new ≡ out.old ++ places_tokens public 0 tys.now) }
{
    for (i, ty) in tys.iter().enumerate() {
        print_comma(out, i)?;
        print_visible(out, public)?;
        out.word(ty.as_str())?;
    }
    out.mark(")")
}

// Prints the fields of a variant or a struct.
fn print_fields(out: &mut Printer, public: bool, fields: &TFields) -> Result<(), AllocError>
    requires { AreFields fields.now }
    ensures { OnOk result (out.new ≡ out.old ++ fields_tokens public fields.now) }
{
    match fields {
        TFields::Unit => Ok(()),
        TFields::Named(fields) => {
            out.space()?;
            out.mark("{")?;
            print_named(out, public, fields.as_slice())
        }
        TFields::Tuple(tys) => {
            out.mark("(")?;
            print_places(out, public, tys.as_slice())
        }
    }
}

// Prints a variant on a line of its own.
#[tactic(auto, using(crate::proofs::Names::identifier_is_word))]
fn print_variant(out: &mut Printer, variant: &(Text, TFields)) -> Result<(), AllocError>
    requires { IsVariant variant.now }
    ensures { OnOk result (out.new ≡ out.old ++ variant_tokens variant.now) }
{
    out.line()?;
    out.word(variant.0.as_str())?;
    print_fields(out, false, &variant.1)?;
    out.mark(",")
}

// Prints variants, each on a line, and what closes them.
fn print_variants(out: &mut Printer, variants: &[(Text, TFields)]) -> Result<(), AllocError>
    requires { AllByRecursion IsVariant variants.now }
    ensures { OnOk result (out.new ≡ out.old ++ variants_tokens variants.now) }
{
    if variants.is_empty() {
        return out.mark("}");
    }
    out.indent();
    for variant in variants {
        print_variant(out, variant)?;
    }
    out.dedent();
    out.line()?;
    out.mark("}")
}

// Prints what stands after the fields of a struct.
fn print_end(out: &mut Printer, fields: &TFields) -> Result<(), AllocError>
    ensures { OnOk result (out.new ≡ out.old ++ struct_end fields.now) }
{
    match fields {
        TFields::Unit | TFields::Tuple(_) => out.mark(";"),
        TFields::Named(_) => Ok(()),
    }
}

// Prints an enum.
#[tactic(auto, using(crate::proofs::Names::identifier_is_word), unfolding(isle_printer::specs::Token::step, isle_printer::specs::Token::begun))]
fn print_enum(out: &mut Printer, name: &str, variants: &[(Text, TFields)]) -> Result<(), AllocError>
    requires name { IsIdentifier name.now }
    requires variants { AllByRecursion IsVariant variants.now }
    ensures { OnOk result
        (out.new ≡ out.old ++ type_body_tokens name.now (TypeBody.Enum variants.now)) }
{
    out.piece("pub enum ")?;
    out.word(name)?;
    out.piece(" {")?;
    print_variants(out, variants)
}

// Prints a struct.
#[tactic(auto, using(crate::proofs::Names::identifier_is_word), unfolding(isle_printer::specs::Token::step, isle_printer::specs::Token::begun))]
fn print_struct(out: &mut Printer, name: &str, fields: &TFields) -> Result<(), AllocError>
    requires name { IsIdentifier name.now }
    requires fields { AreFields fields.now }
    ensures { OnOk result
        (out.new ≡ out.old ++ type_body_tokens name.now (TypeBody.Struct fields.now)) }
{
    out.piece("pub struct ")?;
    out.word(name)?;
    print_fields(out, true, fields)?;
    print_end(out, fields)
}

// Prints an enum or a struct.
fn print_body(out: &mut Printer, name: &str, body: &TypeBody) -> Result<(), AllocError>
    requires name { IsIdentifier name.now }
    requires body { IsTypeBody body.now }
    ensures { OnOk result (out.new ≡ out.old ++ type_body_tokens name.now body.now) }
{
    match body {
        TypeBody::Enum(variants) => print_enum(out, name, variants.as_slice()),
        TypeBody::Struct(fields) => print_struct(out, name, fields),
    }
}

// Prints a type, its derive on a line of its own.
#[tactic(auto, unfolding(crate::specs::Spelling::type_tokens))]
fn print_type(out: &mut Printer, item: &TypeItem) -> Result<(), AllocError>
    requires { IsTypeItem item.now }
    ensures { OnOk result (out.new ≡ out.old ++ type_tokens item.now) }
{
    out.line()?;
    print_derive(out, is_plain(&item.body), item.debug)?;
    out.line()?;
    print_body(out, item.name.as_str(), &item.body)?;
    out.line()
}

/// Prints the declared types of a program, each after a blank line. What is printed after an error is left open.
pub fn print_types(out: &mut Printer, items: &[TypeItem]) -> Result<(), AllocError>
    requires { AllByRecursion IsTypeItem items.now }
    ensures { OnOk result (out.new ≡ out.old ++ types_tokens items.now) }
{
    for item in items {
        print_type(out, item)?;
    }
    Ok(())
}
