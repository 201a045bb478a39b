//! What the table says of each operation.

ghost use Rattle.std.specs.Prelude.{◌≡◌, drop};
ghost use Rattle.isle_numerics.specs.Operations.{row, comparison_row, arithmetic_row, bitwise_row};
ghost use Rattle.isle_numerics.specs.Operations.{shift_row, predicate_row, count_row, negation_row};
ghost use Rattle.isle_numerics.specs.Table.{is_predicate};

use crate::operation::{
    Arithmetic, Bitwise, Comparison, Count, Gives, Negation, Operation, Predicate, Shift, Takes,
};

impl Comparison {
    // The operation's name, without its type's.
    fn name(self) -> &'static str
        ensures { result.now ≡ (comparison_row self).name }
    {
        match self {
            Comparison::Eq => "eq",
            Comparison::Ne => "ne",
            Comparison::Lt => "lt",
            Comparison::LtEq => "lt_eq",
            Comparison::Gt => "gt",
            Comparison::GtEq => "gt_eq",
        }
    }

    // The operation's Rust text.
    fn body(self) -> &'static str
        ensures { result.now ≡ (comparison_row self).body }
    {
        match self {
            Comparison::Eq => "a == b",
            Comparison::Ne => "a != b",
            Comparison::Lt => "a < b",
            Comparison::LtEq => "a <= b",
            Comparison::Gt => "a > b",
            Comparison::GtEq => "a >= b",
        }
    }
}

impl Arithmetic {
    // The operation's name, without its type's.
    fn name(self) -> &'static str
        ensures { result.now ≡ (arithmetic_row self).name }
    {
        match self {
            Arithmetic::CheckedAdd => "checked_add",
            Arithmetic::WrappingAdd => "wrapping_add",
            Arithmetic::Add => "add",
            Arithmetic::CheckedSub => "checked_sub",
            Arithmetic::WrappingSub => "wrapping_sub",
            Arithmetic::Sub => "sub",
            Arithmetic::CheckedMul => "checked_mul",
            Arithmetic::WrappingMul => "wrapping_mul",
            Arithmetic::Mul => "mul",
            Arithmetic::CheckedDiv => "checked_div",
            Arithmetic::WrappingDiv => "wrapping_div",
            Arithmetic::Div => "div",
            Arithmetic::CheckedRem => "checked_rem",
            Arithmetic::Rem => "rem",
        }
    }

    // The operation's Rust text.
    fn body(self) -> &'static str
        ensures { result.now ≡ (arithmetic_row self).body }
    {
        match self {
            Arithmetic::CheckedAdd => "a.checked_add(b)",
            Arithmetic::WrappingAdd => "a.wrapping_add(b)",
            Arithmetic::Add =>
                "a.checked_add(b).unwrap_or_else(|| panic!(\"addition overflow: {a} + {b}\"))",
            Arithmetic::CheckedSub => "a.checked_sub(b)",
            Arithmetic::WrappingSub => "a.wrapping_sub(b)",
            Arithmetic::Sub =>
                "a.checked_sub(b).unwrap_or_else(|| panic!(\"subtraction overflow: {a} - {b}\"))",
            Arithmetic::CheckedMul => "a.checked_mul(b)",
            Arithmetic::WrappingMul => "a.wrapping_mul(b)",
            Arithmetic::Mul =>
                "a.checked_mul(b).unwrap_or_else(|| panic!(\"multiplication overflow: {a} * {b}\"))",
            Arithmetic::CheckedDiv => "a.checked_div(b)",
            Arithmetic::WrappingDiv => "a.wrapping_div(b)",
            Arithmetic::Div =>
                "a.checked_div(b).unwrap_or_else(|| panic!(\"div failure: {a} / {b}\"))",
            Arithmetic::CheckedRem => "a.checked_rem(b)",
            Arithmetic::Rem =>
                "a.checked_rem(b).unwrap_or_else(|| panic!(\"rem failure: {a} % {b}\"))",
        }
    }
}

impl Bitwise {
    // The operation's name, without its type's.
    fn name(self) -> &'static str
        ensures { result.now ≡ (bitwise_row self).name }
    {
        match self {
            Bitwise::And => "and",
            Bitwise::Or => "or",
            Bitwise::Xor => "xor",
            Bitwise::Not => "not",
        }
    }

    // The operation's Rust text.
    fn body(self) -> &'static str
        ensures { result.now ≡ (bitwise_row self).body }
    {
        match self {
            Bitwise::And => "a & b",
            Bitwise::Or => "a | b",
            Bitwise::Xor => "a ^ b",
            Bitwise::Not => "!a",
        }
    }
}

impl Shift {
    // The operation's name, without its type's.
    fn name(self) -> &'static str
        ensures { result.now ≡ (shift_row self).name }
    {
        match self {
            Shift::CheckedShl => "checked_shl",
            Shift::WrappingShl => "wrapping_shl",
            Shift::Shl => "shl",
            Shift::CheckedShr => "checked_shr",
            Shift::WrappingShr => "wrapping_shr",
            Shift::Shr => "shr",
            Shift::Rotl => "rotl",
            Shift::Rotr => "rotr",
        }
    }

    // The operation's Rust text.
    fn body(self) -> &'static str
        ensures { result.now ≡ (shift_row self).body }
    {
        match self {
            Shift::CheckedShl => "a.checked_shl(b)",
            Shift::WrappingShl => "a.wrapping_shl(b)",
            Shift::Shl =>
                "a.checked_shl(b).unwrap_or_else(|| panic!(\"shl overflow: {a} << {b}\"))",
            Shift::CheckedShr => "a.checked_shr(b)",
            Shift::WrappingShr => "a.wrapping_shr(b)",
            Shift::Shr =>
                "a.checked_shr(b).unwrap_or_else(|| panic!(\"shr overflow: {a} >> {b}\"))",
            Shift::Rotl => "a.rotate_left(b)",
            Shift::Rotr => "a.rotate_right(b)",
        }
    }
}

impl Predicate {
    // The operation's name, without its type's.
    fn name(self) -> &'static str
        ensures { result.now ≡ (predicate_row self).name }
    {
        match self {
            Predicate::Zero => "is_zero",
            Predicate::NonZero => "is_non_zero",
            Predicate::Odd => "is_odd",
            Predicate::Even => "is_even",
            Predicate::PowerOfTwo => "is_power_of_two",
        }
    }

    // The operation's Rust text.
    fn body(self) -> &'static str
        ensures { result.now ≡ (predicate_row self).body }
    {
        match self {
            Predicate::Zero => "a == 0",
            Predicate::NonZero => "a != 0",
            Predicate::Odd => "a & 1 == 1",
            Predicate::Even => "a & 1 == 0",
            Predicate::PowerOfTwo => "a.is_power_of_two()",
        }
    }

    /// Returns what the predicate is of: its name without `is_`.
    pub fn base(self) -> &'static str
        ensures { result.now ≡ drop 3 (predicate_row self).name }
    {
        match self {
            Predicate::Zero => "zero",
            Predicate::NonZero => "non_zero",
            Predicate::Odd => "odd",
            Predicate::Even => "even",
            Predicate::PowerOfTwo => "power_of_two",
        }
    }
}

impl Count {
    // The operation's name, without its type's.
    fn name(self) -> &'static str
        ensures { result.now ≡ (count_row self).name }
    {
        match self {
            Count::CheckedIlog2 => "checked_ilog2",
            Count::Ilog2 => "ilog2",
            Count::TrailingZeros => "trailing_zeros",
            Count::TrailingOnes => "trailing_ones",
            Count::LeadingZeros => "leading_zeros",
            Count::LeadingOnes => "leading_ones",
        }
    }

    // The operation's Rust text.
    fn body(self) -> &'static str
        ensures { result.now ≡ (count_row self).body }
    {
        match self {
            Count::CheckedIlog2 => "a.checked_ilog2()",
            Count::Ilog2 => "a.checked_ilog2().unwrap_or_else(|| panic!(\"ilog2 overflow: {a}\"))",
            Count::TrailingZeros => "a.trailing_zeros()",
            Count::TrailingOnes => "a.trailing_ones()",
            Count::LeadingZeros => "a.leading_zeros()",
            Count::LeadingOnes => "a.leading_ones()",
        }
    }
}

impl Negation {
    // The operation's name, without its type's.
    fn name(self) -> &'static str
        ensures { result.now ≡ (negation_row self).name }
    {
        match self {
            Negation::CheckedNeg => "checked_neg",
            Negation::WrappingNeg => "wrapping_neg",
            Negation::Neg => "neg",
        }
    }

    // The operation's Rust text.
    fn body(self) -> &'static str
        ensures { result.now ≡ (negation_row self).body }
    {
        match self {
            Negation::CheckedNeg => "a.checked_neg()",
            Negation::WrappingNeg => "a.wrapping_neg()",
            Negation::Neg =>
                "a.checked_neg().unwrap_or_else(|| panic!(\"negation overflow: {a}\"))",
        }
    }
}

impl Operation {
    /// Returns the operation's name, without its type's.
    pub fn name(self) -> &'static str
        ensures { result.now ≡ (row self).name }
    {
        match self {
            Operation::Compare(op) => op.name(),
            Operation::Compute(op) => op.name(),
            Operation::Bits(op) => op.name(),
            Operation::Move(op) => op.name(),
            Operation::Ask(op) => op.name(),
            Operation::Tally(op) => op.name(),
            Operation::Negate(op) => op.name(),
        }
    }

    /// Returns the operation's Rust text.
    pub fn body(self) -> &'static str
        ensures { result.now ≡ (row self).body }
    {
        match self {
            Operation::Compare(op) => op.body(),
            Operation::Compute(op) => op.body(),
            Operation::Bits(op) => op.body(),
            Operation::Move(op) => op.body(),
            Operation::Ask(op) => op.body(),
            Operation::Tally(op) => op.body(),
            Operation::Negate(op) => op.body(),
        }
    }

    /// Returns what the operation takes.
    pub fn takes(self) -> Takes
        ensures { result ≡ (row self).takes }
    {
        match self {
            Operation::Compare(_) | Operation::Compute(_) => Takes::Two,
            Operation::Bits(Bitwise::And | Bitwise::Or | Bitwise::Xor) => Takes::Two,
            Operation::Bits(Bitwise::Not) => Takes::One,
            Operation::Move(_) => Takes::Amount,
            Operation::Ask(_) | Operation::Tally(_) | Operation::Negate(_) => Takes::One,
        }
    }

    /// Returns what the operation gives.
    pub fn gives(self) -> Gives
        ensures { result ≡ (row self).gives }
    {
        match self {
            Operation::Compare(_) | Operation::Ask(_) => Gives::Truth,
            Operation::Compute(_) | Operation::Bits(_) => Gives::Same,
            Operation::Move(_) | Operation::Negate(_) => Gives::Same,
            Operation::Tally(_) => Gives::Places,
        }
    }

    /// Tells whether the operation may give nothing.
    pub fn is_partial(self) -> bool
        ensures { result ≡ (row self).is_partial }
    {
        match self {
            Operation::Compare(_) | Operation::Bits(_) | Operation::Ask(_) => false,
            Operation::Compute(op) => op.is_checked(),
            Operation::Move(op) => op.is_checked(),
            Operation::Tally(op) => matches!(op, Count::CheckedIlog2),
            Operation::Negate(op) => matches!(op, Negation::CheckedNeg),
        }
    }

    /// Tells whether the operation is a predicate, for which extractors are made.
    pub fn is_predicate(self) -> bool
        ensures { result ≡ is_predicate self }
    {
        match self {
            Operation::Ask(_) => true,
            Operation::Compare(_) | Operation::Compute(_) | Operation::Bits(_) => false,
            Operation::Move(_) | Operation::Tally(_) | Operation::Negate(_) => false,
        }
    }
}

impl Arithmetic {
    // Whether the operation may give nothing.
    fn is_checked(self) -> bool
        ensures { result ≡ (arithmetic_row self).is_partial }
    {
        match self {
            Arithmetic::CheckedAdd
            | Arithmetic::CheckedSub
            | Arithmetic::CheckedMul
            | Arithmetic::CheckedDiv
            | Arithmetic::CheckedRem => true,
            Arithmetic::WrappingAdd
            | Arithmetic::Add
            | Arithmetic::WrappingSub
            | Arithmetic::Sub
            | Arithmetic::WrappingMul
            | Arithmetic::Mul
            | Arithmetic::WrappingDiv
            | Arithmetic::Div
            | Arithmetic::Rem => false,
        }
    }
}

impl Shift {
    // Whether the operation may give nothing.
    fn is_checked(self) -> bool
        ensures { result ≡ (shift_row self).is_partial }
    {
        match self {
            Shift::CheckedShl | Shift::CheckedShr => true,
            Shift::WrappingShl
            | Shift::Shl
            | Shift::WrappingShr
            | Shift::Shr
            | Shift::Rotl
            | Shift::Rotr => false,
        }
    }
}
