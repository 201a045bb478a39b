ghost use Rattle.std.specs.Prelude.{◌≡◌, option_map};
ghost use Rattle.isle_core.specs.BindingParts as BindingParts;
ghost use Rattle.isle_core.specs.SameBinding.{IsPlaceOf};

use crate::position::Pos;
use isle_base::{BindingId, List, Sym, TermId, TupleIndex, TypeId, VariantId};
use std::slice;

/// A value that a rule speaks of, by the values that it comes from.
#[derive(Debug, PartialEq)]
pub enum Binding {
    ConstBool {
        val: bool,
        ty: TypeId,
    },
    ConstInt {
        val: i128,
        ty: TypeId,
    },
    ConstPrim {
        val: Sym,
    },
    Argument {
        index: usize,
    },
    Extractor {
        term: TermId,
        parameter: BindingId,
    },
    /// The instance numbers the occurrences of impure calls from 1; it is 0 for pure ones.
    Constructor {
        term: TermId,
        parameters: List<BindingId>,
        instance: usize,
    },
    Iterator {
        source: BindingId,
    },
    MakeVariant {
        ty: TypeId,
        variant: VariantId,
        fields: List<BindingId>,
    },
    MakeStruct {
        ty: TypeId,
        fields: List<BindingId>,
    },
    MatchVariant {
        source: BindingId,
        variant: VariantId,
        field: TupleIndex,
    },
    ExtractStruct {
        source: BindingId,
        field: TupleIndex,
    },
    MakeSome {
        inner: BindingId,
    },
    MatchSome {
        source: BindingId,
    },
    MatchTuple {
        source: BindingId,
        field: TupleIndex,
    },
}

impl Drop for Binding {
    // Gives up what the variant holds, in one call wherever a value is dropped.
    fn drop(self) {
        match self {
            Binding::ConstBool { val: _val, ty: _ty } => {}
            Binding::ConstInt { val: _val, ty: _ty } => {}
            Binding::ConstPrim { val: _val } => {}
            Binding::Argument { index: _index } => {}
            Binding::Extractor {
                term: _term,
                parameter: _parameter,
            } => {}
            Binding::Constructor {
                term: _term,
                parameters: _parameters,
                instance: _instance,
            } => {}
            Binding::Iterator { source: _source } => {}
            Binding::MakeVariant {
                ty: _ty,
                variant: _variant,
                fields: _fields,
            } => {}
            Binding::MakeStruct {
                ty: _ty,
                fields: _fields,
            } => {}
            Binding::MatchVariant {
                source: _source,
                variant: _variant,
                field: _field,
            } => {}
            Binding::ExtractStruct {
                source: _source,
                field: _field,
            } => {}
            Binding::MakeSome { inner: _inner } => {}
            Binding::MatchSome { source: _source } => {}
            Binding::MatchTuple {
                source: _source,
                field: _field,
            } => {}
        }
    }
}

// Returns the parts, if there are any.
fn some_parts<'a>(parts: &'a [BindingId]) -> Option<&'a [BindingId]>
    ensures { option_map (λ parts. parts.now) result ≡ BindingParts.some_parts parts.now }
{
    if parts.is_empty() { None } else { Some(parts) }
}

impl Binding {
    /// Returns what the binding is made over.
    pub fn parts(&self) -> &[BindingId]
        ensures { result.now ≡ BindingParts.over self.now }
    {
        match self {
            Binding::Extractor { parameter, .. } => slice::from_ref(parameter),
            Binding::Constructor { parameters, .. } => parameters.as_slice(),
            Binding::MakeVariant { fields, .. } => fields.as_slice(),
            Binding::MakeStruct { fields, .. } => fields.as_slice(),
            Binding::Iterator { source } => slice::from_ref(source),
            Binding::MatchVariant { source, .. } => slice::from_ref(source),
            Binding::ExtractStruct { source, .. } => slice::from_ref(source),
            Binding::MakeSome { inner } => slice::from_ref(inner),
            Binding::MatchSome { source } => slice::from_ref(source),
            Binding::MatchTuple { source, .. } => slice::from_ref(source),
            _ => &[],
        }
    }

    /// Returns what a call is made over, of a term's constructor or of its extractor.
    pub fn call_parts(&self) -> Option<&[BindingId]>
        ensures { option_map (λ parts. parts.now) result ≡ BindingParts.call_parts self.now }
    {
        match self {
            Binding::Constructor { parameters, .. } => Some(parameters.as_slice()),
            Binding::Extractor { parameter, .. } => Some(slice::from_ref(parameter)),
            _ => None,
        }
    }

    /// Returns the parts of a made value. A struct without fields is a name, and has none.
    pub fn made_parts(&self) -> Option<&[BindingId]>
        ensures { option_map (λ parts. parts.now) result ≡ BindingParts.made_parts self.now }
    {
        match self {
            Binding::MakeVariant { fields, .. } => Some(fields.as_slice()),
            Binding::MakeStruct { fields, .. } => some_parts(fields.as_slice()),
            _ => None,
        }
    }

    /// Returns the list of an item.
    pub fn list(&self) -> Option<BindingId>
        ensures { result ≡ BindingParts.list_of self.now }
    {
        match self {
            Binding::Iterator { source } => Some(*source),
            _ => None,
        }
    }

    /// Returns the option of an inner value.
    pub fn option(&self) -> Option<BindingId>
        ensures { result ≡ BindingParts.option_of self.now }
    {
        match self {
            Binding::MatchSome { source } => Some(*source),
            _ => None,
        }
    }
}

/// A test of one binding.
#[derive(Clone, Copy, Debug, PartialEq, Eq, PartialOrd, Ord)]
pub enum Constraint {
    Variant { ty: TypeId, variant: VariantId },
    Struct { ty: TypeId },
    ConstBool { val: bool },
    ConstInt { val: i128, ty: TypeId },
    ConstPrim { val: Sym },
    Some,
}

/// A rule as tests of bindings.
#[derive(Debug, Drop)]
pub struct FlatRule {
    pub pos: Pos,
    pub constraints: List<(BindingId, Constraint)>,
    pub equals: List<(BindingId, BindingId)>,
    /// The rule's calls of `multi` terms, each once.
    pub iterators: List<BindingId>,
    pub prio: i64,
    /// The right side's impure calls, fallible calls, and calls of `multi` terms on impure ones, in source order.
    pub ordered: List<BindingId>,
    pub result: BindingId,
}

/// The rules of a term over shared bindings.
#[derive(Debug, Drop)]
pub struct RuleSet {
    pub bindings: List<Binding>,
    pub rules: List<FlatRule>,
}

impl RuleSet {
    /// Returns the place of the first binding that is equal to this one, if there is one.
    pub fn find_binding(&self, binding: &Binding) -> Option<BindingId>
        ensures { IsPlaceOf self.now.bindings binding.now result }
    {
        for (place, known) in self.bindings.as_slice().iter().enumerate() {
            if known == binding {
                return Some(BindingId(place));
            }
        }
        None
    }
}
