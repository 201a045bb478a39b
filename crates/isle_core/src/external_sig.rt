//! The functions of a term, and their signatures.

ghost use Rattle.std.specs.Prelude.{◌≡◌, ◌++◌, ◌∷◌, [], IfOk, option_map};
ghost use Rattle.isle_core.specs.Calling.{kind_by, kind_of, extractor_kind};
ghost use Rattle.isle_core.specs.ExternalSig.{has_external_extractor, has_external_constructor, is_recursive};
ghost use Rattle.isle_core.specs.ExternalSig.{extractor_sig, constructor_sig, func_of, extracted_of};

use crate::types::{
    ConstructorKind, ExternalSig, ExtractorKind, ReturnKind, Term, TermKind, TypeEnv,
};
use isle_base::{List, Sym, Text, TypeId};
use isle_outside::OutOfMemory;
use std::alloc::{AllocError, Global};

/// Returns how often an external extractor answers.
pub fn extractor_kind(multi: bool, infallible: bool) -> ReturnKind
    ensures { result ≡ extractor_kind multi infallible }
{
    if multi {
        ReturnKind::Iterator
    } else if infallible {
        ReturnKind::Plain
    } else {
        ReturnKind::Option
    }
}

// How often a constructor answers.
fn constructor_kind(multi: bool, partial: bool) -> ReturnKind
    ensures { result ≡ kind_by multi partial }
{
    if multi {
        ReturnKind::Iterator
    } else if partial {
        ReturnKind::Option
    } else {
        ReturnKind::Plain
    }
}

/// Returns how often a term of this kind answers.
pub fn kind_of(kind: &TermKind) -> ReturnKind
    ensures { result ≡ kind_of kind.now }
{
    match kind {
        TermKind::Variant { .. } | TermKind::Struct { .. } => ReturnKind::Plain,
        TermKind::Decl { multi, partial, .. } => constructor_kind(*multi, *partial),
    }
}

// A name after a prefix.
fn joined(alloc: Global, prefix: &str, name: &str) -> Result<Text, AllocError>
    ensures { IfOk result (λ text. text ≡ prefix.now ++ name.now) }
{
    let mut text = String::from_str(alloc, prefix)?;
    text.push_str(name)?;
    Ok(Text::new(text))
}

// One type.
fn single(alloc: Global, ty: TypeId) -> Result<List<TypeId>, AllocError>
    ensures { IfOk result (λ types. types ≡ ty ∷ []) }
{
    let mut types = Vec::with_capacity(alloc, 1)?;
    types.push(ty)?;
    Ok(List::new(types))
}

// Types, copied.
fn copied(alloc: Global, given: &List<TypeId>) -> Result<List<TypeId>, AllocError>
    ensures { IfOk result (λ types. types ≡ given.now) }
{
    let mut types = Vec::new(alloc);
    types.extend_from_slice(given.as_slice())?;
    Ok(List::new(types))
}

impl Term {
    /// Tells whether a function of the trait takes values of the term apart.
    pub fn has_external_extractor(&self) -> bool
        ensures { result ≡ has_external_extractor self.now.kind }
    {
        match self.kind {
            TermKind::Decl {
                extractor: ExtractorKind::External { .. },
                ..
            } => true,
            TermKind::Decl { .. } | TermKind::Variant { .. } | TermKind::Struct { .. } => false,
        }
    }

    /// Tells whether a function of the trait makes the term's values.
    pub fn has_external_constructor(&self) -> bool
        ensures { result ≡ has_external_constructor self.now.kind }
    {
        match self.kind {
            TermKind::Decl {
                constructor: ConstructorKind::External { .. },
                ..
            } => true,
            TermKind::Decl { .. } | TermKind::Variant { .. } | TermKind::Struct { .. } => false,
        }
    }

    /// Returns the symbol of the function that makes the term's values, if there is one.
    pub fn maker(&self) -> Option<Sym>
        ensures { result ≡ func_of self.now.kind }
    {
        match &self.kind {
            TermKind::Decl {
                constructor: ConstructorKind::External { func },
                ..
            } => Some(*func),
            _ => None,
        }
    }

    /// Returns the symbol of the function that takes the term's values apart and how often it answers, if there is
    /// one.
    pub fn taker(&self) -> Option<(Sym, ReturnKind)>
        ensures { result ≡ extracted_of self.now.kind }
    {
        match &self.kind {
            TermKind::Decl {
                multi,
                extractor: ExtractorKind::External { func, infallible },
                ..
            } => Some((*func, extractor_kind(*multi, *infallible))),
            _ => None,
        }
    }

    /// Tells whether the term is declared with `rec`.
    pub fn is_recursive(&self) -> bool
        ensures { result ≡ is_recursive self.now.kind }
    {
        match self.kind {
            TermKind::Decl { recursive, .. } => recursive,
            TermKind::Variant { .. } | TermKind::Struct { .. } => false,
        }
    }

    /// Returns the signature of the term's external extractor, if it has one: it takes the term's result and gives its
    /// arguments, several times if the term is `multi`, once if the extractor is `infallible`, and at most once
    /// otherwise (`specs/ExternalSig.antt`). Names are symbols of `env`. The only error is want of memory.
    pub fn extractor_sig(
        &self,
        alloc: Global,
        env: &TypeEnv,
    ) -> Result<Option<ExternalSig>, OutOfMemory>
        ensures { IfOk result (λ sig. sig ≡ extractor_sig env.now self.now self.now.kind) }
    {
        let TermKind::Decl {
            multi,
            extractor: ExtractorKind::External { func, infallible },
            ..
        } = self.kind
        else {
            return Ok(None);
        };
        let name = env.symbol(func);
        Ok(Some(ExternalSig {
            func_name: Text::copied(alloc, name)?,
            full_name: joined(alloc, "C::", name)?,
            param_tys: single(alloc, self.ret_ty)?,
            ret_tys: copied(alloc, &self.arg_tys)?,
            ret_kind: extractor_kind(multi, infallible),
        }))
    }

    /// Returns the signature of the term's constructor, if it has an external one or rules: it takes the term's
    /// arguments and gives its result, several times if the term is `multi`, at most once if it is `partial`, and
    /// once otherwise (`specs/ExternalSig.antt`). Names are symbols of `env`. The only error is want of memory.
    pub fn constructor_sig(
        &self,
        alloc: Global,
        env: &TypeEnv,
    ) -> Result<Option<ExternalSig>, OutOfMemory>
        ensures { IfOk result (λ sig. sig ≡ constructor_sig env.now self.now self.now.kind) }
    {
        let TermKind::Decl {
            multi,
            partial,
            constructor,
            ..
        } = self.kind
        else {
            return Ok(None);
        };
        let (func_name, full_name) = match constructor {
            ConstructorKind::Absent => return Ok(None),
            ConstructorKind::Internal => {
                let name = env.symbol(self.name);
                (
                    joined(alloc, "constructor_", name)?,
                    joined(alloc, "constructor_", name)?,
                )
            }
            ConstructorKind::External { func } => {
                let name = env.symbol(func);
                (Text::copied(alloc, name)?, joined(alloc, "C::", name)?)
            }
        };
        Ok(Some(ExternalSig {
            func_name,
            full_name,
            param_tys: copied(alloc, &self.arg_tys)?,
            ret_tys: single(alloc, self.ret_ty)?,
            ret_kind: constructor_kind(multi, partial),
        }))
    }
}
