use crate::position::Pos;
use isle_base::{List, Sym, TermId, Text, TypeId};

/// The integer types of Rust.
#[derive(Clone, Copy, Debug, PartialEq, Eq)]
pub enum IntType {
    U8,
    U16,
    U32,
    U64,
    U128,
    USize,
    I8,
    I16,
    I32,
    I64,
    I128,
    ISize,
}

/// The types that are there before any definition, numbered `bool` first and then as `IntType` lists them.
#[derive(Clone, Copy, Debug, PartialEq, Eq)]
pub enum BuiltinType {
    Bool,
    Int(IntType),
}

/// A named field.
#[derive(Clone, Copy, Debug, PartialEq, Eq)]
pub struct Field {
    pub name: Sym,
    pub ty: TypeId,
}

/// The fields of a variant or a struct.
#[derive(Debug)]
pub enum Fields {
    Unit,
    Struct(List<Field>),
    Tuple(List<TypeId>),
}

impl Drop for Fields {
    // Gives up what the variant holds, in one call wherever a value is dropped.
    fn drop(self) {
        match self {
            Fields::Unit => {}
            Fields::Struct(_part0) => {}
            Fields::Tuple(_part0) => {}
        }
    }
}

/// A variant of an enum.
#[derive(Debug, Drop)]
pub struct Variant {
    pub name: Sym,
    pub fields: Fields,
}

/// A type: built in, or declared at its position.
#[derive(Debug)]
pub enum TypeDef {
    Builtin(BuiltinType),
    Primitive {
        name: Sym,
        rust: Sym,
        pos: Pos,
    },
    Enum {
        name: Sym,
        is_extern: bool,
        is_nodebug: bool,
        variants: List<Variant>,
        pos: Pos,
    },
    Struct {
        name: Sym,
        is_extern: bool,
        is_nodebug: bool,
        fields: Fields,
        pos: Pos,
    },
}

impl Drop for TypeDef {
    // Gives up what the variant holds, in one call wherever a value is dropped.
    fn drop(self) {
        match self {
            TypeDef::Builtin(_part0) => {}
            TypeDef::Primitive {
                name: _name,
                rust: _rust,
                pos: _pos,
            } => {}
            TypeDef::Enum {
                name: _name,
                is_extern: _is_extern,
                is_nodebug: _is_nodebug,
                variants: _variants,
                pos: _pos,
            } => {}
            TypeDef::Struct {
                name: _name,
                is_extern: _is_extern,
                is_nodebug: _is_nodebug,
                fields: _fields,
                pos: _pos,
            } => {}
        }
    }
}

/// The symbols, types and constants of a list of definitions.
#[derive(Debug, Drop)]
pub struct TypeEnv {
    pub syms: List<Text>,
    pub types: List<TypeDef>,
    pub consts: List<(Sym, TypeId)>,
}

/// How often a function answers.
#[derive(Clone, Copy, Debug, PartialEq, Eq)]
pub enum ReturnKind {
    Plain,
    Option,
    Iterator,
}

/// The signature of the function of a term.
#[derive(Debug, Drop)]
pub struct ExternalSig {
    pub func_name: Text,
    pub full_name: Text,
    pub param_tys: List<TypeId>,
    pub ret_tys: List<TypeId>,
    pub ret_kind: ReturnKind,
}

/// Where a term's values come from.
#[derive(Clone, Copy, Debug, PartialEq, Eq)]
pub enum ConstructorKind {
    Absent,
    /// From the term's rules.
    Internal,
    External { func: Sym },
}

/// How a term is taken apart in patterns.
#[derive(Clone, Copy, Debug, PartialEq, Eq)]
pub enum ExtractorKind {
    Absent,
    /// By its template.
    Internal,
    External { func: Sym, infallible: bool },
}

/// What a term is: made by a variant or a struct, or declared.
#[derive(Debug)]
pub enum TermKind {
    Variant {
        ty: TypeId,
        variant: isle_base::VariantId,
    },
    Struct {
        ty: TypeId,
    },
    Decl {
        pure: bool,
        multi: bool,
        partial: bool,
        recursive: bool,
        constructor: ConstructorKind,
        extractor: ExtractorKind,
    },
}

impl Drop for TermKind {
    // Gives up what the variant holds, in one call wherever a value is dropped.
    fn drop(self) {
        match self {
            TermKind::Variant {
                ty: _ty,
                variant: _variant,
            } => {}
            TermKind::Struct { ty: _ty } => {}
            TermKind::Decl {
                pure: _pure,
                multi: _multi,
                partial: _partial,
                recursive: _recursive,
                constructor: _constructor,
                extractor: _extractor,
            } => {}
        }
    }
}

/// A term with its types.
#[derive(Debug, Drop)]
pub struct Term {
    pub name: Sym,
    pub decl_pos: Pos,
    pub arg_tys: List<TypeId>,
    pub ret_ty: TypeId,
    pub kind: TermKind,
}

/// The terms, rules and converters of a list of definitions.
#[derive(Debug, Drop)]
pub struct TermEnv {
    pub terms: List<Term>,
    pub rules: List<crate::rules::Rule>,
    /// From a type, to a type, by a term.
    pub converters: List<(TypeId, TypeId, TermId)>,
}
