//! The statements of a block, made from the inside out. What holds a statement, a test or a pattern stands outside the
//! cycle of `block_stmts` and is not inlined into it, so that a block within a block costs little stack.

ghost use Rattle.std.specs.Prelude.{◌≡◌, ◌++◌, ◌∷◌, [], List as ListOf, ℕ, false, Some as Is};
ghost use Rattle.std.specs.Prelude.{IsSome, map, IfOk, OnOk};
ghost use Rattle.isle_core.specs.ArmPlaces.{bound_within};
ghost use Rattle.isle_core.specs.Block.{Equal, Loop};
ghost use Rattle.isle_core.specs.BlockViews as BlockViews;
ghost use Rattle.isle_core.specs.Calling as Calling;
ghost use Rattle.isle_tree.specs.Program.{Done, NoArm};
ghost use Rattle.isle_tree.specs.Views.{stmt};
ghost use Rattle.isle_emission.specs.BodyOnto.{body_onto, AreMadeAs, PushesStmt};
ghost use Rattle.isle_emission.specs.Built.{HasOperand, IsBuilt, IsBuiltControl, IsBuiltArm, AreBuilt, IsBuiltStep};
ghost use Rattle.isle_emission.specs.Built.{IsBuiltCase, IsTested, HasPattern, HasRead};
ghost use Rattle.isle_emission.specs.Cases.{cases_onto, PushesCase, PushesArm};
ghost use Rattle.isle_emission.specs.Emitter.{setting_in, manner_in, operand_in};
ghost use Rattle.isle_emission.specs.MadeBodies.{body_for, arm_body_for, control_for, arm_for, arms_for, PushesStep};
ghost use Rattle.isle_emission.specs.Views.{steps_block, match_arms};
ghost use Rattle.isle_simulation.specs.Statements as Statements;

use crate::closures::closed_if;
use crate::emitter::Emitter;
use crate::tests::{Test, test_within};
use isle_core::{
    BindingId, Block, Constraint, ControlFlow, EvalStep, List, MatchArm, OutOfMemory, ReturnKind,
};
use isle_operands::{kind_of, looped_local};
use isle_scope::Scope;
use isle_tree::{Read, Stmt, TExpr, TPat};
use std::alloc::AllocError;

// Makes a return: of a term that may answer nothing an option; one of several results is appended to the others.
#[tactic(auto, using(isle_tree::proofs::Sees::sees))]
fn return_of(kind: ReturnKind, read: Read) -> Stmt
    ensures { Is (stmt result) ≡ Statements.return_of kind (Is read) }
{
    match kind {
        ReturnKind::Plain => Stmt::Return(TExpr::Read(read)),
        ReturnKind::Option => Stmt::Return(TExpr::Some(read)),
        ReturnKind::Iterator => Stmt::Extend(read),
    }
}

// Makes the loop over the list of this local, within which these statements stand.
#[tactic(auto, using(isle_tree::proofs::Sees::sees))]
fn loop_within(list: usize, item: usize, inside: Vec<Stmt>) -> Stmt
    ensures { Is (stmt result) ≡ Statements.loop_of (Is list) item
        (body_onto (map stmt inside.items) (Is Done)) }
{
    Stmt::Loop {
        list,
        item,
        body: List::new(inside),
    }
}

// Makes the match of these arms over what is read.
#[tactic(auto, using(isle_tree::proofs::Sees::sees))]
fn match_over(read: Read, cases: Vec<(TPat, List<Stmt>)>) -> Stmt
    ensures { Is (stmt result) ≡ Statements.match_of (Is read)
        (cases_onto cases.items (Is NoArm)) }
{
    Stmt::Match(read, List::new(cases))
}

// Binds what a place binds.
fn bind_place(bound: &mut Scope, place: Option<BindingId>) -> Result<(), AllocError>
    ensures more { OnOk result (bound.new ≡ bound_within bound.old (place ∷ [])) }
    ensures grows { OnOk result ((more : ListOf ℕ) × (bound.new ≡ bound.old ++ more)) }
{
    match place {
        Some(local) => bound.bind(local.index()),
        None => Ok(()),
    }
}

// Binds what places bind, in order.
fn bind_places(bound: &mut Scope, places: &[Option<BindingId>]) -> Result<(), AllocError>
    ensures more { OnOk result (bound.new ≡ bound_within bound.old places.now) }
    ensures grows { OnOk result ((more : ListOf ℕ) × (bound.new ≡ bound.old ++ more)) }
{
    for place in places {
        bind_place(bound, *place)?;
    }
    Ok(())
}

impl Emitter<'_> {
    // Makes the return of a binding.
    fn return_stmt(&self, bound: &Scope, returned: BindingId) -> Result<Stmt, AllocError>
        requires { HasOperand (setting_in self.now) bound.now returned }
        ensures { IfOk result (λ s. Is (stmt s) ≡ Statements.return_of
            (Calling.kind_of (setting_in self.now).term.kind)
            (Statements.read_in (setting_in self.now) bound.now false returned)) }
    {
        let read = self.read(bound, false, returned)?;
        Ok(return_of(kind_of(&self.typed.context.term.kind), read))
    }

    // Adds the return of a binding.
    #[inline(never)]
    fn push_return(
        &self,
        bound: &Scope,
        returned: BindingId,
        out: &mut Vec<Stmt>,
    ) -> Result<(), AllocError>
        requires { HasOperand (setting_in self.now) bound.now returned }
        ensures { OnOk result (PushesStmt out.old.items out.new.items (Statements.return_of
            (Calling.kind_of (setting_in self.now).term.kind)
            (Statements.read_in (setting_in self.now) bound.now false returned))) }
    {
        let made = self.return_stmt(bound, returned)?;
        out.push(made)?;
        Ok(())
    }

    // Adds the test of two bindings, within which these statements stand.
    #[inline(never)]
    fn push_equal_test(
        &self,
        bound: &Scope,
        of: (BindingId, BindingId),
        inside: Vec<Stmt>,
        out: &mut Vec<Stmt>,
    ) -> Result<(), AllocError>
        requires first { HasOperand (setting_in self.now) bound.now of.0 }
        requires second { HasOperand (setting_in self.now) bound.now of.1 }
        ensures { OnOk result (PushesStmt out.old.items out.new.items (Statements.if_eq
            (operand_in self.now bound.now of.0) (operand_in self.now bound.now of.1)
            (body_onto (map stmt inside.items) (Is Done)))) }
    {
        let first = self.operand(bound, of.0)?;
        let second = self.operand(bound, of.1)?;
        let made = test_within(Test::Equal(first, second), inside);
        out.push(made)?;
        Ok(())
    }

    // Adds the test of a binding against an arm's constraint, within which these statements stand.
    #[inline(never)]
    fn push_arm_test(
        &self,
        bound: &Scope,
        source: BindingId,
        arm: &MatchArm,
        inside: Vec<Stmt>,
        out: &mut Vec<Stmt>,
    ) -> Result<(), AllocError>
        requires { IsTested (setting_in self.now) bound.now source
            (BlockViews.arm arm.now).0 (BlockViews.arm arm.now).1 }
        ensures { OnOk result (PushesStmt out.old.items out.new.items (Statements.arm_stmt
            (setting_in self.now) bound.now source
            (BlockViews.arm arm.now).0 (BlockViews.arm arm.now).1
            (body_onto (map stmt inside.items) (Is Done)))) }
    {
        let places = arm.bindings.as_slice();
        let test = self.arm_test(bound, source, arm.constraint, places)?;
        let made = test_within(test, inside);
        out.push(made)?;
        Ok(())
    }

    // Adds one of several arms, within which these statements stand.
    #[inline(never)]
    fn push_arm_case(
        &self,
        arm: &MatchArm,
        inside: Vec<Stmt>,
        out: &mut Vec<(TPat, List<Stmt>)>,
    ) -> Result<(), AllocError>
        requires { HasPattern (setting_in self.now)
            (BlockViews.arm arm.now).0 (BlockViews.arm arm.now).1 }
        ensures { OnOk result (PushesArm (setting_in self.now) (BlockViews.arm arm.now)
            (body_onto (map stmt inside.items) (Is Done)) out.old.items out.new.items) }
    {
        let pat = self.arm_pattern(arm.constraint, arm.bindings.as_slice())?;
        out.push((pat, List::new(inside)))?;
        Ok(())
    }

    // Adds the match of these arms over a binding, the first of them of this constraint.
    #[inline(never)]
    fn push_match(
        &self,
        bound: &Scope,
        of: (BindingId, Constraint),
        cases: Vec<(TPat, List<Stmt>)>,
        out: &mut Vec<Stmt>,
    ) -> Result<(), AllocError>
        requires { HasRead (setting_in self.now) bound.now of.0 of.1 }
        ensures { OnOk result (PushesStmt out.old.items out.new.items (Statements.match_of
            (Statements.match_read (setting_in self.now) bound.now of.0 of.1)
            (cases_onto cases.items (Is NoArm)))) }
    {
        let read = self.match_read(bound, of.0, of.1)?;
        let made = match_over(read, cases);
        out.push(made)?;
        Ok(())
    }

    // Returns the local of the list whose item a binding is, as is required.
    fn list_of(&self, item: BindingId) -> usize
        requires { IsSome (Statements.looped_local (setting_in self.now) item) }
        ensures { Is result ≡ Statements.looped_local (setting_in self.now) item }
    {
        match looped_local(&self.typed.context, item) {
            Some(list) => list,
            None => unreachable!(),
        }
    }

    // Adds the loop over the list of an item, within which these statements stand.
    #[inline(never)]
    fn push_loop_over(
        &self,
        item: BindingId,
        inside: Vec<Stmt>,
        out: &mut Vec<Stmt>,
    ) -> Result<(), AllocError>
        requires { IsSome (Statements.looped_local (setting_in self.now) item) }
        ensures { OnOk result (PushesStmt out.old.items out.new.items (Statements.loop_of
            (Statements.looped_local (setting_in self.now) item) item.0
            (body_onto (map stmt inside.items) (Is Done)))) }
    {
        let made = loop_within(self.list_of(item), item.index(), inside);
        out.push(made)?;
        Ok(())
    }

    /// Makes the statements of a block. What is bound is the same after them.
    #[cycle(statements)]
    #[tactic(auto, using(isle_core::proofs::SeesBlocks::sees_blocks))]
    pub fn block_stmts(&self, bound: &mut Scope, block: &Block) -> Result<Vec<Stmt>, OutOfMemory>
        requires { IsBuilt (setting_in self.now) bound.old (BlockViews.block block.now) }
        ensures stmts { IfOk result (λ stmts. AreMadeAs stmts.items
            (body_for self.now bound.old (BlockViews.block block.now))) }
        ensures bound { OnOk result (bound.new ≡ bound.old) }
    {
        let len = bound.len();
        let stmts = self.step_stmts(bound, block.steps.as_slice())?;
        bound.truncate(len);
        Ok(stmts)
    }

    // Adds the statements of a step.
    #[cycle(statements)]
    fn push_step(
        &self,
        bound: &mut Scope,
        step: &EvalStep,
        out: &mut Vec<Stmt>,
    ) -> Result<(), OutOfMemory>
        requires { IsBuiltStep (setting_in self.now) bound.old
            (BlockViews.step step.now).0 (BlockViews.step step.now).1 }
        ensures { OnOk result (PushesStep (manner_in self.now) (setting_in self.now) step.now
            bound.old bound.new out.old.items out.new.items) }
    {
        let binds = step.bind_order.as_slice();
        self.push_lets(bound, binds, &step.check, out)?;
        self.push_told(&step.check, out)?;
        self.push_control(bound, &step.check, out)?;
        self.push_stop(&step.check, out)?;
        Ok(())
    }

    // Makes the statements of steps in order.
    #[cycle(statements)]
    #[tactic(auto, using(isle_core::proofs::SeesBlocks::sees_blocks))]
    fn step_stmts(&self, bound: &mut Scope, steps: &[EvalStep]) -> Result<Vec<Stmt>, OutOfMemory>
        requires { IsBuilt (setting_in self.now) bound.old (steps_block steps.now) }
        ensures stmts { IfOk result (λ stmts. AreMadeAs stmts.items
            (body_for self.now bound.old (steps_block steps.now))) }
        ensures grows { OnOk result ((more : ListOf ℕ) × (bound.new ≡ bound.old ++ more)) }
    {
        let mut out = Vec::new(self.alloc);
        for step in steps {
            self.push_step(bound, step, &mut out)?;
        }
        Ok(out)
    }

    // Adds the statement of what a step does.
    #[cycle(statements)]
    #[tactic(auto, using(isle_core::proofs::SeesBlocks::sees_blocks))]
    fn push_control(
        &self,
        bound: &mut Scope,
        control: &ControlFlow,
        out: &mut Vec<Stmt>,
    ) -> Result<(), OutOfMemory>
        requires { IsBuiltControl (setting_in self.now) bound.old (BlockViews.control control.now) }
        ensures stmt { OnOk result (PushesStmt out.old.items out.new.items
            (control_for self.now bound.old (BlockViews.control control.now))) }
        ensures bound { OnOk result (bound.new ≡ bound.old) }
    {
        match control {
            ControlFlow::Match { source, arms } => {
                self.push_arms(bound, *source, arms.as_slice(), out)
            }
            ControlFlow::Equal { a, b, body } => self.push_equal(bound, *a, *b, body, out),
            ControlFlow::Loop { result, body } => self.push_loop(bound, *result, body, out),
            ControlFlow::Return { result, .. } => Ok(self.push_return(bound, *result, out)?),
        }
    }

    // Adds the test of two bindings, within which a block stands.
    #[cycle(statements)]
    fn push_equal(
        &self,
        bound: &mut Scope,
        a: BindingId,
        b: BindingId,
        body: &Block,
        out: &mut Vec<Stmt>,
    ) -> Result<(), OutOfMemory>
        requires { IsBuiltControl (setting_in self.now) bound.old
            (Equal a b (BlockViews.block body.now)) }
        ensures stmt { OnOk result (PushesStmt out.old.items out.new.items
            (control_for self.now bound.old (Equal a b (BlockViews.block body.now)))) }
        ensures bound { OnOk result (bound.new ≡ bound.old) }
    {
        let inside = self.block_stmts(bound, body)?;
        self.push_equal_test(bound, (a, b), inside, out)?;
        Ok(())
    }

    // Binds what the places before a block bind; that the block is built is said again of what is bound then.
    fn enter(
        &self,
        bound: &mut Scope,
        places: &[Option<BindingId>],
        _body: &Block,
    ) -> Result<(), AllocError>
        requires { IsBuilt (setting_in self.now) (bound_within bound.old places.now)
            (BlockViews.block _body.now) }
        ensures more { OnOk result (bound.new ≡ bound_within bound.old places.now) }
        ensures grows { OnOk result ((more : ListOf ℕ) × (bound.new ≡ bound.old ++ more)) }
        ensures built { OnOk result (IsBuilt (setting_in self.now) bound.new
            (BlockViews.block _body.now)) }
    {
        bind_places(bound, places)
    }

    // Adds the loop over a list, within which a block stands and its item is bound.
    #[cycle(statements)]
    fn push_loop(
        &self,
        bound: &mut Scope,
        item: BindingId,
        body: &Block,
        out: &mut Vec<Stmt>,
    ) -> Result<(), OutOfMemory>
        requires { IsBuiltControl (setting_in self.now) bound.old
            (Loop item (BlockViews.block body.now)) }
        ensures stmt { OnOk result (PushesStmt out.old.items out.new.items
            (control_for self.now bound.old (Loop item (BlockViews.block body.now)))) }
        ensures bound { OnOk result (bound.new ≡ bound.old) }
    {
        let outer = bound.len();
        self.enter(bound, &[Some(item)], body)?;
        let inside = self.block_stmts(bound, body)?;
        bound.truncate(outer);
        self.push_loop_over(item, inside, out)?;
        Ok(())
    }

    // Makes the statements of an arm's body, in a closure of their own if they have one; its places are bound in it.
    #[cycle(statements)]
    fn arm_stmts(
        &self,
        bound: &mut Scope,
        body: &Block,
        places: &[Option<BindingId>],
    ) -> Result<Vec<Stmt>, OutOfMemory>
        requires built { IsBuilt (setting_in self.now) (bound_within bound.old places.now)
            (BlockViews.block body.now) }
        ensures stmts { IfOk result (λ stmts. body_onto (map stmt stmts.items) (Is Done)
            ≡ arm_body_for self.now (bound_within bound.old places.now)
            (BlockViews.block body.now)) }
        ensures bound { OnOk result (bound.new ≡ bound.old) }
    {
        let own = self.has_closure(body);
        let inner = self.within(own);
        let outer = bound.len();
        inner.enter(bound, places, body)?;
        let stmts = inner.block_stmts(bound, body)?;
        bound.truncate(outer);
        Ok(closed_if(self.alloc, own, self.inside, stmts)?)
    }

    // Adds the test of a binding against an arm's constraint, within which its block stands and its places are bound.
    #[cycle(statements)]
    fn push_arm(
        &self,
        bound: &mut Scope,
        source: BindingId,
        arm: &MatchArm,
        out: &mut Vec<Stmt>,
    ) -> Result<(), OutOfMemory>
        requires { IsBuiltArm (setting_in self.now) bound.old source (BlockViews.arm arm.now) }
        ensures stmt { OnOk result (PushesStmt out.old.items out.new.items
            (arm_for self.now bound.old source arm.now)) }
        ensures bound { OnOk result (bound.new ≡ bound.old) }
    {
        let places = arm.bindings.as_slice();
        let inside = self.arm_stmts(bound, &arm.body, places)?;
        self.push_arm_test(bound, source, arm, inside, out)?;
        Ok(())
    }

    // Adds one of several arms, within which its block stands and its places are bound.
    #[cycle(statements)]
    fn push_case(
        &self,
        bound: &mut Scope,
        arm: &MatchArm,
        out: &mut Vec<(TPat, List<Stmt>)>,
    ) -> Result<(), OutOfMemory>
        requires { IsBuiltCase (setting_in self.now) bound.old (BlockViews.arm arm.now) }
        ensures case { OnOk result (PushesCase (manner_in self.now) (setting_in self.now) bound.old
            (BlockViews.arm arm.now) out.old.items out.new.items) }
        ensures bound { OnOk result (bound.new ≡ bound.old) }
    {
        let places = arm.bindings.as_slice();
        let inside = self.arm_stmts(bound, &arm.body, places)?;
        self.push_arm_case(arm, inside, out)?;
        Ok(())
    }

    // Adds the test of a binding against the one arm's constraint, or the match of several arms.
    #[cycle(statements)]
    fn push_arms(
        &self,
        bound: &mut Scope,
        source: BindingId,
        arms: &[MatchArm],
        out: &mut Vec<Stmt>,
    ) -> Result<(), OutOfMemory>
        requires { AreBuilt (setting_in self.now) bound.old source (match_arms arms.now) }
        ensures stmt { OnOk result (PushesStmt out.old.items out.new.items
            (arms_for self.now bound.old source (match_arms arms.now))) }
        ensures bound { OnOk result (bound.new ≡ bound.old) }
    {
        if arms.len() == 1 {
            return self.push_arm(bound, source, &arms[0], out);
        }
        let mut cases = Vec::new(self.alloc);
        for arm in arms {
            self.push_case(bound, arm, &mut cases)?;
        }
        self.push_match(bound, (source, arms[0].constraint), cases, out)?;
        Ok(())
    }
}
