//! The operations, by what they do.

/// How two numbers are compared.
#[derive(Clone, Copy)]
pub enum Comparison {
    Eq,
    Ne,
    Lt,
    LtEq,
    Gt,
    GtEq,
}

/// What is computed of two numbers: checked, wrapped, or stopping the program.
#[derive(Clone, Copy)]
pub enum Arithmetic {
    CheckedAdd,
    WrappingAdd,
    Add,
    CheckedSub,
    WrappingSub,
    Sub,
    CheckedMul,
    WrappingMul,
    Mul,
    CheckedDiv,
    WrappingDiv,
    Div,
    CheckedRem,
    Rem,
}

/// What is done bit by bit.
#[derive(Clone, Copy)]
pub enum Bitwise {
    And,
    Or,
    Xor,
    Not,
}

/// How bits are moved by an amount.
#[derive(Clone, Copy)]
pub enum Shift {
    CheckedShl,
    WrappingShl,
    Shl,
    CheckedShr,
    WrappingShr,
    Shr,
    Rotl,
    Rotr,
}

/// What is asked of one number.
#[derive(Clone, Copy)]
pub enum Predicate {
    Zero,
    NonZero,
    Odd,
    Even,
    PowerOfTwo,
}

/// What is counted of one number's bits.
#[derive(Clone, Copy)]
pub enum Count {
    CheckedIlog2,
    Ilog2,
    TrailingZeros,
    TrailingOnes,
    LeadingZeros,
    LeadingOnes,
}

/// How a sign is turned.
#[derive(Clone, Copy)]
pub enum Negation {
    CheckedNeg,
    WrappingNeg,
    Neg,
}

/// An operation.
#[derive(Clone, Copy)]
pub enum Operation {
    Compare(Comparison),
    Compute(Arithmetic),
    Bits(Bitwise),
    Move(Shift),
    Ask(Predicate),
    Tally(Count),
    Negate(Negation),
}

/// What an operation takes: a number, two numbers, or a number and an amount.
#[derive(Clone, Copy)]
pub enum Takes {
    One,
    Two,
    Amount,
}

/// What an operation gives: a number of its type, a truth or a count.
#[derive(Clone, Copy)]
pub enum Gives {
    Same,
    Truth,
    Places,
}
