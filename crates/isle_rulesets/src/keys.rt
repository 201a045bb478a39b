ghost use Rattle.std.specs.Prelude.{◌≡◌, IfOk};
ghost use Rattle.isle_rulesets.specs.Keys.{key_binding};

use crate::parts::Parts;
use isle_core::{Binding, BindingId, Sym, TermId, TupleIndex, TypeId, VariantId};
use std::alloc::{AllocError, Global};

/// What tells a binding from the others; the call of a constructor is a pure one.
#[derive(PartialEq, Eq, PartialOrd, Ord)]
pub enum Key {
    Argument(usize),
    ConstBool(bool),
    ConstInt(TypeId, i128),
    ConstPrim(Sym),
    Extractor {
        term: TermId,
        parameter: BindingId,
    },
    Constructor {
        term: TermId,
        parameters: Parts,
    },
    MatchVariant {
        source: BindingId,
        variant: VariantId,
        field: TupleIndex,
    },
    ExtractStruct {
        source: BindingId,
        field: TupleIndex,
    },
    MakeVariant {
        ty: TypeId,
        variant: VariantId,
        fields: Parts,
    },
    MakeStruct {
        ty: TypeId,
        fields: Parts,
    },
    Iterator {
        source: BindingId,
    },
    MatchSome {
        source: BindingId,
    },
    MatchTuple {
        source: BindingId,
        field: TupleIndex,
    },
}

impl Drop for Key {
    // Gives up what the variant holds, in one call wherever a value is dropped.
    fn drop(self) {
        match self {
            Key::Argument(_part0) => {}
            Key::ConstBool(_part0) => {}
            Key::ConstInt(_part0, _part1) => {}
            Key::ConstPrim(_part0) => {}
            Key::Extractor {
                term: _term,
                parameter: _parameter,
            } => {}
            Key::Constructor {
                term: _term,
                parameters: _parameters,
            } => {}
            Key::MatchVariant {
                source: _source,
                variant: _variant,
                field: _field,
            } => {}
            Key::ExtractStruct {
                source: _source,
                field: _field,
            } => {}
            Key::MakeVariant {
                ty: _ty,
                variant: _variant,
                fields: _fields,
            } => {}
            Key::MakeStruct {
                ty: _ty,
                fields: _fields,
            } => {}
            Key::Iterator { source: _source } => {}
            Key::MatchSome { source: _source } => {}
            Key::MatchTuple {
                source: _source,
                field: _field,
            } => {}
        }
    }
}

impl Key {
    /// Makes the binding; `bool` is the first of the types. The only error is want of memory.
    pub fn binding(&self, alloc: Global) -> Result<Binding, AllocError>
        ensures { IfOk result (λ b. b ≡ key_binding self.now) }
    {
        Ok(match self {
            Key::Argument(index) => Binding::Argument { index: *index },
            Key::ConstBool(val) => Binding::ConstBool {
                val: *val,
                ty: TypeId(0),
            },
            Key::ConstInt(ty, val) => Binding::ConstInt { val: *val, ty: *ty },
            Key::ConstPrim(val) => Binding::ConstPrim { val: *val },
            Key::Extractor { term, parameter } => Binding::Extractor {
                term: *term,
                parameter: *parameter,
            },
            Key::Constructor { term, parameters } => Binding::Constructor {
                term: *term,
                parameters: parameters.copied(alloc)?,
                instance: 0,
            },
            Key::MatchVariant {
                source,
                variant,
                field,
            } => Binding::MatchVariant {
                source: *source,
                variant: *variant,
                field: *field,
            },
            Key::ExtractStruct { source, field } => Binding::ExtractStruct {
                source: *source,
                field: *field,
            },
            Key::MakeVariant {
                ty,
                variant,
                fields,
            } => Binding::MakeVariant {
                ty: *ty,
                variant: *variant,
                fields: fields.copied(alloc)?,
            },
            Key::MakeStruct { ty, fields } => Binding::MakeStruct {
                ty: *ty,
                fields: fields.copied(alloc)?,
            },
            Key::Iterator { source } => Binding::Iterator { source: *source },
            Key::MatchSome { source } => Binding::MatchSome { source: *source },
            Key::MatchTuple { source, field } => Binding::MatchTuple {
                source: *source,
                field: *field,
            },
        })
    }
}
