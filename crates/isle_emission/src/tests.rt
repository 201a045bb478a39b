//! What is tested before a block within.

ghost use Rattle.std.specs.Prelude.{◌≡◌, IfOk, IsSome, Some as Is, map};
ghost use Rattle.isle_tree.specs.Program.{Done};
ghost use Rattle.isle_tree.specs.Views.{stmt};
ghost use Rattle.isle_emission.specs.BodyOnto.{body_onto};
ghost use Rattle.isle_emission.specs.Built.{IsTested, HasPattern, HasRead};
ghost use Rattle.isle_emission.specs.Emitter.{setting_in};
ghost use Rattle.isle_emission.specs.Tests.{test_stmt, IsTestOf};
ghost use Rattle.isle_simulation.specs.Operands.{tested as tested_in};
ghost use Rattle.isle_simulation.specs.Patterns as Patterns;
ghost use Rattle.isle_simulation.specs.Statements as Statements;

use crate::emitter::Emitter;
use isle_core::{BindingId, Constraint, List};
use isle_operands::tested;
use isle_scope::Scope;
use isle_tree::{Operand, Read, Stmt, TPat};
use std::alloc::AllocError;

/// What is tested: whether two operands are equal, or whether what is read fits a pattern.
#[derive(Drop)]
pub enum Test {
    Equal(Operand, Operand),
    Fits(TPat, Read),
}

/// Makes the statement of a test, within which these statements stand.
#[tactic(auto, using(isle_tree::proofs::Sees::sees))]
pub fn test_within(test: Test, inside: Vec<Stmt>) -> Stmt
    ensures { Is (stmt result) ≡ test_stmt test (body_onto (map stmt inside.items) (Is Done)) }
{
    match test {
        Test::Equal(a, b) => Stmt::IfEq(a, b, List::new(inside)),
        Test::Fits(pat, read) => Stmt::IfLet(pat, read, List::new(inside)),
    }
}

impl Emitter<'_> {
    // Makes the constant that a constraint tests for, which is there, as is required.
    fn tested(&self, constraint: Constraint) -> Result<Operand, AllocError>
        requires { IsSome (tested_in (setting_in self.now).env constraint) }
        ensures { IfOk result (λ o. Is o ≡ tested_in (setting_in self.now).env constraint) }
    {
        match tested(self.alloc, &self.typed.context, constraint)? {
            Some(operand) => Ok(operand),
            None => unreachable!(),
        }
    }

    /// Makes the pattern of one of several arms: also that of a constant.
    pub fn arm_pattern(
        &self,
        constraint: Constraint,
        places: &[Option<BindingId>],
    ) -> Result<TPat, AllocError>
        requires { HasPattern (setting_in self.now) constraint places.now }
        ensures { IfOk result (λ pat.
            Is pat ≡ Patterns.arm_pattern (setting_in self.now).env constraint places.now) }
    {
        match constraint {
            Constraint::ConstBool { .. }
            | Constraint::ConstInt { .. }
            | Constraint::ConstPrim { .. } => Ok(TPat::Const(self.tested(constraint)?)),
            Constraint::Variant { .. } | Constraint::Struct { .. } | Constraint::Some => {
                self.pattern_of(constraint, places)
            }
        }
    }

    /// Makes what a match of several arms reads, the first of this constraint: a variant or a struct over a reference.
    pub fn match_read(
        &self,
        bound: &Scope,
        source: BindingId,
        constraint: Constraint,
    ) -> Result<Read, AllocError>
        requires { HasRead (setting_in self.now) bound.now source constraint }
        ensures { IfOk result (λ read.
            Is read ≡ Statements.match_read (setting_in self.now) bound.now source constraint) }
    {
        match constraint {
            Constraint::Variant { .. } | Constraint::Struct { .. } => {
                self.read(bound, true, source)
            }
            Constraint::ConstBool { .. }
            | Constraint::ConstInt { .. }
            | Constraint::ConstPrim { .. }
            | Constraint::Some => Ok(Read::Plain(self.operand(bound, source)?)),
        }
    }

    /// Makes the test of a binding against a constraint: for a constant, or by the pattern of a variant or a struct,
    /// over a reference, or of an option.
    pub fn arm_test(
        &self,
        bound: &Scope,
        source: BindingId,
        constraint: Constraint,
        places: &[Option<BindingId>],
    ) -> Result<Test, AllocError>
        requires { IsTested (setting_in self.now) bound.now source constraint places.now }
        ensures { IfOk result (λ test.
            IsTestOf (setting_in self.now) bound.now source constraint places.now test) }
    {
        match constraint {
            Constraint::ConstBool { .. }
            | Constraint::ConstInt { .. }
            | Constraint::ConstPrim { .. } => {
                let operand = self.operand(bound, source)?;
                Ok(Test::Equal(operand, self.tested(constraint)?))
            }
            Constraint::Variant { .. } | Constraint::Struct { .. } => {
                let pat = self.pattern_of(constraint, places)?;
                Ok(Test::Fits(pat, self.read(bound, true, source)?))
            }
            Constraint::Some => {
                let pat = self.pattern_of(constraint, places)?;
                Ok(Test::Fits(pat, Read::Plain(self.operand(bound, source)?)))
            }
        }
    }
}
