//! Rule sets, and the blocks that mean them: `serialize`. How blocks are made stands in `docs/TARGET.md`.

pub use isle_blocks::serialize;
pub use isle_core::{
    Binding, Block, Constraint, ControlFlow, EvalStep, FlatRule, MatchArm, RuleSet,
};
