//! The calls of a run.

ghost use Rattle.std.specs.Prelude.{◌≡◌, [], map, option_map, IfOk, OnOk};
ghost use Rattle.isle_core.specs.Answered.{answer_held, answer};
ghost use Rattle.isle_core.specs.Having.{const_of};
ghost use Rattle.isle_core.specs.ValueViews.{value, values, meaning, made};
ghost use Rattle.isle_running.specs.RunViews.{held};
ghost use Rattle.isle_running.specs.Called.{called_more};

use crate::calls::answered;
use crate::holding::Holding;
use crate::named::Named;
use crate::sources::{Sources, sources_of};
use isle_core::{Answers, CallMade, Callee, List, Value};
use std::alloc::{AllocError, Global};
use std::marker::Model;

/// The calls made in order, what constants stand for, and what callees answer. Contracts see the answers as given.
#[derive(Drop)]
pub struct Calls<'a> {
    answers: &'a Answers,
    constants: Named<'a>,
    sources: Sources<'a>,
    calls: Vec<CallMade>,
}

impl<'a> Model for Calls<'a> {
    ghost use Rattle.std.specs.Prelude.{◌≡◌};
    ghost use Rattle.std.specs.Coded.{codes};
    ghost use Rattle.isle_core.specs.contracts.values.Answers as code_answers;
    ghost use Rattle.isle_core.specs.contracts.values.CallMade as code_call;
    ghost use Rattle.isle_running.specs.Called.{Called, FindsAnswers};

    ghost Value = { Called };

    ghost coded = { Prim.hlevel (codes, code_answers.the_row.coded, code_call.the_row.coded) };

    ghost view = { λ c. record { answers = c.answers.now; made = c.calls.items } };

    ghost invariant = { λ c. FindsAnswers c.answers.now c.calls.items c.sources
        × (c.constants ≡ c.answers.now.consts) };
}

impl<'a> Calls<'a> {
    /// Begins with no calls made, and takes what they are to be answered.
    pub fn new(alloc: Global, answers: &'a Answers) -> Result<Calls<'a>, AllocError>
        ensures { IfOk result (λ c. c ≡ record { answers = answers.now; made = [] }) }
    {
        let constants = Named::new(alloc, answers.consts.as_slice())?;
        let sources = sources_of(alloc, answers)?;
        let calls = Vec::new(alloc);
        Ok(Calls {
            answers,
            constants,
            sources,
            calls,
        })
    }

    /// Returns the value of a constant, where it has one.
    pub fn constant(&self, name: &str) -> Option<&Value>
        ensures { option_map (λ v. value v.now) result
            ≡ const_of (meaning self.now.answers) name.now }
    {
        self.constants.value(name)
    }

    // What a call would be answered now.
    fn answer(&self, alloc: Global, callee: &Callee, args: &[Value]) -> Result<Holding, AllocError>
        ensures { IfOk result (λ h. held h
            ≡ answer_held
            (answer (meaning self.now.answers) callee.now (values args.now)
            (map made self.now.made))) }
    {
        answered(alloc, self.sources.get(callee), args)
    }

    // Notes a call as made, which takes a turn of its callee.
    fn note(&mut self, alloc: Global, callee: &Callee, args: Vec<Value>) -> Result<(), AllocError>
        ensures { OnOk result (self.new ≡ called_more self.old callee.now args.items) }
    {
        let made = CallMade {
            callee: callee.copied(alloc)?,
            args: List::new(args),
        };
        self.calls.push(made)?;
        self.sources.take(callee);
        Ok(())
    }

    /// Makes a call, and gives what it is answered.
    pub fn call(
        &mut self,
        alloc: Global,
        callee: &Callee,
        args: Vec<Value>,
    ) -> Result<Holding, AllocError>
        ensures answered { IfOk result (λ h. held h
            ≡ answer_held
            (answer (meaning self.old.answers) callee.now (values args.items)
            (map made self.old.made))) }
        ensures made { OnOk result (self.new ≡ called_more self.old callee.now args.items) }
    {
        let holding = self.answer(alloc, callee, args.as_slice())?;
        self.note(alloc, callee, args)?;
        Ok(holding)
    }

    /// Returns the calls made.
    pub fn into_vec(self) -> Vec<CallMade>
        ensures { result.items ≡ self.entry.made }
    {
        let Calls { calls, .. } = self;
        calls
    }
}
