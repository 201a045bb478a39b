//! The types of what callees answer.

ghost use Rattle.std.specs.Prelude.{◌≡◌, IfOk};
ghost use Rattle.isle_run_inputs.specs.Requested.{answer_type};
ghost use Rattle.isle_run_inputs.specs.AnswerTypes.{OfTypes};

use crate::callees::{Called, impure_callee};
use isle_core::{Callee, Term, TypeEnv, TypeId};
use std::alloc::{AllocError, Global};
use std::collections::BTreeMap;
use std::marker::Model;

/// The types of what calls of impure callees answer, found by the callees' names.
#[derive(Drop)]
pub struct AnswerTypes<'e> {
    typeenv: &'e TypeEnv,
    terms: &'e [Term],
    external: BTreeMap<&'e str, TypeId>,
    internal: BTreeMap<&'e str, TypeId>,
}

impl<'e> Model for AnswerTypes<'e> {
    ghost use Rattle.std.specs.Prelude.{List};
    ghost use Rattle.isle_core.specs.declared.types.TypeEnv.{TypeEnv};
    ghost use Rattle.isle_core.specs.declared.types.Term.{Term};
    ghost use Rattle.isle_run_inputs.specs.AnswerTypes.{FindsTypes};

    ghost Value = { TypeEnv × List Term };

    ghost view = { λ a. (a.typeenv.now, a.terms.now) };

    ghost invariant = { λ a. FindsTypes a.typeenv.now a.terms.now a.external a.internal };
}

impl<'e> AnswerTypes<'e> {
    /// Returns the types of what the impure callees of these terms answer.
    pub fn new(
        alloc: Global,
        typeenv: &'e TypeEnv,
        terms: &'e [Term],
    ) -> Result<AnswerTypes<'e>, AllocError>
        ensures { IfOk result (λ types. types ≡ (typeenv.now, terms.now)) }
    {
        let mut external = BTreeMap::new(alloc);
        let mut internal = BTreeMap::new(alloc);
        for index in (0..terms.len()).rev() {
            let term = &terms[index];
            match impure_callee(typeenv, term) {
                Called::External(name) => {
                    external.insert(name, term.ret_ty)?;
                }
                Called::Internal(name) => {
                    internal.insert(name, term.ret_ty)?;
                }
                Called::Nothing => {}
            }
        }
        Ok(AnswerTypes {
            typeenv,
            terms,
            external,
            internal,
        })
    }

    /// Returns the type of what a call of the callee answers.
    pub fn of(&self, callee: &Callee) -> Option<TypeId>
        ensures { OfTypes self.now (λ env. result ≡ answer_type env callee.now) }
    {
        match callee {
            Callee::External(name) => self.external.get(name.as_str()).copied(),
            Callee::Internal(name) => self.internal.get(name.as_str()).copied(),
        }
    }
}
