//! What a written name makes at a type.

ghost use Rattle.std.specs.Prelude.{◌≡◌, Bool, List, IfOk};
ghost use Rattle.std.specs.Option.{option_copied};
ghost use Rattle.isle_core.specs.declared.position.Pos.{Pos as ThePos};
ghost use Rattle.isle_core.specs.declared.types.TypeDef.TheVariants as def;
ghost use Rattle.isle_core.specs.declared.types.Variant.{Variant as VariantDef};
ghost use Rattle.isle_core.specs.Rule.{Environment};
ghost use Rattle.isle_run_inputs.specs.Makers.{variant_part, making};
ghost use Rattle.isle_run_inputs.specs.MakerViews.{making_seen};
ghost use Rattle.isle_run_inputs.specs.VariantFields.{variants_of, first_fields, FindsFields};

use isle_core::{Fields, Sym, TypeDef, TypeEnv, Variant};
use std::alloc::{AllocError, Global};
use std::collections::BTreeMap;
use std::marker::Model;

/// What a name makes: a variant of an enum, or a struct, of these names and with these fields.
#[derive(Clone, Copy, Debug)]
pub enum Making<'e, 'n> {
    Variant(&'e str, &'n str, &'e Fields),
    Struct(&'n str, &'e Fields),
    Nothing,
}

/// What names make at a type: the type, with the fields of its variants found by the variants' names.
#[derive(Drop)]
pub struct TypeMakers<'e> {
    typeenv: &'e TypeEnv,
    def: &'e TypeDef,
    variants: BTreeMap<&'e str, &'e Fields>,
}

impl<'e> Model for TypeMakers<'e> {
    ghost use Rattle.isle_core.specs.declared.types.TypeDef.{TypeDef};
    ghost use Rattle.isle_core.specs.declared.types.TypeEnv.{TypeEnv};
    ghost use Rattle.isle_run_inputs.specs.VariantFields.{variants_of, FindsFields};

    ghost Value = { TypeEnv × TypeDef };

    ghost view = { λ m. (m.typeenv.now, m.def.now) };

    ghost invariant = { λ m. FindsFields m.typeenv.now (variants_of m.def.now) m.variants };
}

// The name of a variant, in a written name that begins with the enum's name and a point.
fn variant_part<'a>(ty: &str, name: &'a str) -> Option<&'a str>
    ensures { option_copied result ≡ variant_part ty.now name.now }
{
    match name.strip_prefix(ty) {
        Some(rest) => rest.strip_prefix("."),
        None => None,
    }
}

// The variants of a type; one that is no enum has none.
fn variants_of(def: &TypeDef) -> &[Variant]
    ensures { result.now ≡ variants_of def.now }
{
    match def {
        TypeDef::Enum { variants, .. } => variants.as_slice(),
        TypeDef::Builtin(_) | TypeDef::Primitive { .. } | TypeDef::Struct { .. } => &[],
    }
}

// The fields of variants by the variants' names, of each name those of the first.
fn by_name<'e>(
    alloc: Global,
    typeenv: &'e TypeEnv,
    variants: &'e [Variant],
) -> Result<BTreeMap<&'e str, &'e Fields>, AllocError>
    ensures { IfOk result (λ found. FindsFields typeenv.now variants.now found) }
{
    let mut found = BTreeMap::new(alloc);
    for index in (0..variants.len()).rev() {
        let variant = &variants[index];
        found.insert(typeenv.symbol(variant.name), &variant.fields)?;
    }
    Ok(found)
}

impl<'e> TypeMakers<'e> {
    /// Finds the variants of a type by their names.
    pub fn new(
        alloc: Global,
        typeenv: &'e TypeEnv,
        def: &'e TypeDef,
    ) -> Result<TypeMakers<'e>, AllocError>
        ensures { IfOk result (λ m. m ≡ (typeenv.now, def.now)) }
    {
        let variants = by_name(alloc, typeenv, variants_of(def))?;
        Ok(TypeMakers {
            typeenv,
            def,
            variants,
        })
    }

    /// Returns the type.
    pub fn def(&self) -> &'e TypeDef
        ensures { result.now ≡ self.now.1 }
    {
        self.def
    }

    // The fields of the first variant that has the name.
    fn fields_named(&self, name: &str) -> Option<&'e Fields>
        ensures { (env : Environment) → env.types ≡ self.now.0
            → option_copied result ≡ first_fields env (variants_of self.now.1) name.now }
    {
        self.variants.get(name).copied()
    }

    // What a name makes of an enum of this name.
    fn variant_making<'n>(&self, own: Sym, name: &'n str) -> Making<'e, 'n>
        ensures { (env : Environment) → env.types ≡ self.now.0
            → (is_extern is_nodebug : Bool) (variants : List VariantDef) (at : ThePos)
            → self.now.1 ≡ def.Enum own is_extern is_nodebug variants at
            → making_seen env result ≡ making env self.now.1 name.now }
    {
        let ty = self.typeenv.symbol(own);
        match variant_part(ty, name) {
            Some(variant) => match self.fields_named(variant) {
                Some(fields) => Making::Variant(ty, variant, fields),
                None => Making::Nothing,
            },
            None => Making::Nothing,
        }
    }

    /// Returns what a written name makes at the type.
    pub fn makes<'n>(&self, name: &'n str) -> Making<'e, 'n>
        ensures { (env : Environment) → env.types ≡ self.now.0
            → making_seen env result ≡ making env self.now.1 name.now }
    {
        match self.def {
            TypeDef::Enum { name: own, .. } => self.variant_making(*own, name),
            TypeDef::Struct {
                name: own,
                fields,
                ..
            } => {
                if name == self.typeenv.symbol(*own) {
                    Making::Struct(name, fields)
                } else {
                    Making::Nothing
                }
            }
            TypeDef::Builtin(_) | TypeDef::Primitive { .. } => Making::Nothing,
        }
    }
}
