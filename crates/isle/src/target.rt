//! Target programs as trees: judged, printed, counted, and run under given answers. What their text is, and what a run
//! does, stand in `docs/TARGET.md`.

pub use isle_core::{
    Answer, Answers, CallMade, Callee, End, Outcome, PureAnswers, TurnAnswers, Value,
};
pub use isle_interpreter::{RunError, run_term};
pub use isle_judging::well_formed;
pub use isle_target::{TreeCounts, print_program, rust_int_literal, tree_counts};
pub use isle_tree::{
    Function, Operand, Program, Read, Stmt, TBind, TCall, TExpr, TFields, TPat, TraitFn, Ty,
    TypeBody, TypeItem,
};
