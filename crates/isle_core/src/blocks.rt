use crate::position::Pos;
use crate::rule_sets::Constraint;
use isle_base::{BindingId, List};

/// Steps that are taken in order.
#[cycle(block)]
#[derive(Debug)]
pub struct Block {
    pub steps: List<EvalStep>,
}

/// What is bound, and what is tested then.
#[cycle(block)]
#[derive(Debug)]
pub struct EvalStep {
    pub bind_order: List<BindingId>,
    pub check: ControlFlow,
}

/// A constraint, the bindings of the parts that it shows, and what follows if it holds.
#[cycle(block)]
#[derive(Debug)]
pub struct MatchArm {
    pub constraint: Constraint,
    pub bindings: List<Option<BindingId>>,
    pub body: Block,
}

/// What a step does after its bindings.
#[cycle(block)]
#[derive(Debug)]
pub enum ControlFlow {
    Match {
        source: BindingId,
        arms: List<MatchArm>,
    },
    Equal {
        a: BindingId,
        b: BindingId,
        body: Block,
    },
    Loop {
        result: BindingId,
        body: Block,
    },
    Return {
        pos: Pos,
        result: BindingId,
    },
}

impl Drop for Block {
    #[cycle(dropping)]
    fn drop(self) {
        let Block { steps: _steps } = self;
    }
}

impl Drop for EvalStep {
    #[cycle(dropping)]
    fn drop(self) {
        let EvalStep {
            bind_order: _bind_order,
            check: _check,
        } = self;
    }
}

impl Drop for MatchArm {
    #[cycle(dropping)]
    fn drop(self) {
        let MatchArm {
            constraint: _constraint,
            bindings: _bindings,
            body: _body,
        } = self;
    }
}

impl Drop for ControlFlow {
    #[cycle(dropping)]
    fn drop(self) {
        match self {
            ControlFlow::Match {
                source: _source,
                arms: _arms,
            } => {}
            ControlFlow::Equal {
                a: _a,
                b: _b,
                body: _body,
            } => {}
            ControlFlow::Loop {
                result: _result,
                body: _body,
            } => {}
            ControlFlow::Return {
                pos: _pos,
                result: _result,
            } => {}
        }
    }
}
