//! What the other modules speak of: numbers of terms, types and rules, places in files, errors, and texts, lists and
//! boxes as fields have them. `docs/DIFFERENCES.md` says where these differ from the upstream crates.

pub use isle_core::{
    BindingId, Boxed, Error, Errors, FieldId, Files, LineStarts, List, Pos, ReadError, RuleId,
    Span, Sym, TermId, Text, TupleIndex, TypeId, VarId, VariantId,
};
