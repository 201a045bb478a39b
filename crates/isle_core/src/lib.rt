//! The types that the other crates speak of, with the definitions of what rules and values mean.
#![tactic(auto)]

mod blocks;
mod errors;
mod external_sig;
mod fields;
mod files;
mod int_type;
mod line_starts;
mod names;
mod options;
mod position;
mod printed;
mod read_error;
mod rule_sets;
mod rules;
mod types;
mod values;

pub use blocks::{Block, ControlFlow, EvalStep, MatchArm};
pub use errors::{Error, Errors, masked};
pub use external_sig::{extractor_kind, kind_of};
pub use fields::{field_count, numbered};
pub use files::Files;
pub use isle_base::{
    BindingId, Boxed, FieldId, List, Name, RuleId, Sym, TermId, Text, TupleIndex, TypeId, VarId,
    VariantId,
};
pub use isle_outside::{
    Dir, DirFault, Failed, Found, IoCause, MemDir, MemSink, OutOfMemory, ReadFail, Sink, StdDir,
    StdSink, read_text, write_all,
};
pub use line_starts::LineStarts;
pub use options::{CodegenOptions, Prefix};
pub use position::{Pos, Span};
pub use printed::name_shown;
pub use read_error::ReadError;
pub use rule_sets::{Binding, Constraint, FlatRule, RuleSet};
pub use rules::{Expr, IfLet, LetBinding, Pattern, Rule};
pub use types::{
    BuiltinType, ConstructorKind, ExternalSig, ExtractorKind, Field, Fields, IntType, ReturnKind,
    Term, TermEnv, TermKind, TypeDef, TypeEnv, Variant,
};
pub use values::{
    Answer, Answers, CallMade, Callee, End, Outcome, PureAnswers, TurnAnswers, Value,
};
