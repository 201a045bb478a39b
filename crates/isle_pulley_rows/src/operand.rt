//! The operands of a row.

ghost use Rattle.std.specs.Prelude.{◌≡◌};
ghost use Rattle.isle_pulley_rows.specs.Results.{is_written as writes};

use isle_core::Name;

/// An operand of a row.
#[derive(Debug, Drop)]
pub enum Operand<'t> {
    /// What is read: its name and its type.
    Normal(Name<'t>, Name<'t>),
    /// What is written: its name and its type.
    Writable(Name<'t>, Name<'t>),
    /// Binary operands: the types of `dst`, `src1` and `src2`.
    Binop(Name<'t>, Name<'t>, Name<'t>),
    /// The code of a trap, `code`.
    Trap,
}

impl Operand<'_> {
    /// Tells whether something is written.
    pub fn is_written(&self) -> bool
        ensures { result ≡ writes self.now }
    {
        match self {
            Operand::Normal(_, _) => false,
            Operand::Writable(_, _) => true,
            Operand::Binop(_, _, _) => true,
            Operand::Trap => false,
        }
    }
}
