use crate::types::IntType;
use isle_base::{List, Text};

/// What a call goes to: `C::F`, or the function of a term.
#[derive(Debug)]
pub enum Callee {
    External(Text),
    Internal(Text),
}

impl Drop for Callee {
    // Gives up what the variant holds, in one call wherever a value is dropped.
    fn drop(self) {
        match self {
            Callee::External(_part0) => {}
            Callee::Internal(_part0) => {}
        }
    }
}

/// A value of a run.
#[derive(Debug)]
pub enum Value {
    Bool(bool),
    /// `u128` is held as its 128 signed bits.
    Int(IntType, i128),
    /// A number of a primitive or extern type, with the type's emitted name.
    Opaque(Text, i128),
    /// The enum, the variant, and the fields in order with their names.
    Variant(Text, Text, List<(Text, Value)>),
    /// The struct, and the fields in order with their names.
    Struct(Text, List<(Text, Value)>),
}

impl Drop for Value {
    // Gives up what the variant holds, in one call wherever a value is dropped.
    fn drop(self) {
        match self {
            Value::Bool(_part0) => {}
            Value::Int(_part0, _part1) => {}
            Value::Opaque(_part0, _part1) => {}
            Value::Variant(_part0, _part1, _part2) => {}
            Value::Struct(_part0, _part1) => {}
        }
    }
}

/// What a call answers. The lists hold the results of one answer.
#[derive(Debug)]
pub enum Answer {
    Plain(List<Value>),
    Some(List<Value>),
    Nothing,
    List(List<List<Value>>),
}

impl Drop for Answer {
    // Gives up what the variant holds, in one call wherever a value is dropped.
    fn drop(self) {
        match self {
            Answer::Plain(_part0) => {}
            Answer::Some(_part0) => {}
            Answer::Nothing => {}
            Answer::List(_part0) => {}
        }
    }
}

/// The answers of an extractor or a pure term: the first case with these arguments, or else the rest.
#[derive(Debug, Drop)]
pub struct PureAnswers {
    pub callee: Callee,
    pub cases: List<(List<Value>, Answer)>,
    pub rest: Answer,
}

/// The answers of an impure term, call by call, and then the rest.
#[derive(Debug, Drop)]
pub struct TurnAnswers {
    pub callee: Callee,
    pub turns: List<Answer>,
    pub rest: Answer,
}

/// What constants stand for and what calls answer (a meaning), and the length of the returns list at entry.
#[derive(Debug, Drop)]
pub struct Answers {
    pub consts: List<(Text, Value)>,
    pub pure: List<PureAnswers>,
    pub turns: List<TurnAnswers>,
    pub held: usize,
}

/// A call that was made.
#[derive(Debug, Drop)]
pub struct CallMade {
    pub callee: Callee,
    pub args: List<Value>,
}

/// How a run ends.
#[derive(Debug)]
pub enum End {
    Value(Value),
    Some(Value),
    Nothing,
    Unreachable,
    List(List<Value>),
}

impl Drop for End {
    // Gives up what the variant holds, in one call wherever a value is dropped.
    fn drop(self) {
        match self {
            End::Value(_part0) => {}
            End::Some(_part0) => {}
            End::Nothing => {}
            End::Unreachable => {}
            End::List(_part0) => {}
        }
    }
}

/// How a run ends, and the calls made in order.
#[derive(Debug, Drop)]
pub struct Outcome {
    pub end: End,
    pub calls: List<CallMade>,
}
