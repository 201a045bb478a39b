//! The functions that are asked by cases: external extractors, and the constructors of pure terms.

ghost use Rattle.std.specs.Prelude.{◌≡◌, IfOk, OnOk, option_map};
ghost use Rattle.isle_core.specs.Rule.{Environment};
ghost use Rattle.isle_run_inputs.specs.AnswerTypes.{OfTypes};
ghost use Rattle.isle_run_inputs.specs.Asked.{asked_as};
ghost use Rattle.isle_run_inputs.specs.AskedFunctions.{asked_seen, IsPut, ArePut};
ghost use Rattle.isle_run_inputs.specs.Called.{called};

use crate::callees::{Called, extractor_callee, pure_callee};
use isle_core::{Callee, Term, TypeEnv, TypeId};
use std::alloc::{AllocError, Global};
use std::collections::BTreeMap;
use std::marker::Model;
use std::slice;

/// The types of what a function that is asked by cases takes, and of what it gives.
#[derive(Clone, Copy, Debug)]
pub struct Asked<'e> {
    pub params: &'e [TypeId],
    pub results: &'e [TypeId],
}

/// Such functions, found by the names of what calls go to.
#[derive(Drop)]
pub struct ByName<'e> {
    external: BTreeMap<&'e str, Asked<'e>>,
    internal: BTreeMap<&'e str, Asked<'e>>,
}

impl<'e> ByName<'e> {
    // Puts a function there, if calls go to one.
    fn put(&mut self, callee: Called<'e>, asked: Asked<'e>) -> Result<(), AllocError>
        ensures { OnOk result
            (IsPut (called callee.entry) (asked_seen asked.entry) self.old self.new) }
    {
        match callee {
            Called::External(name) => {
                self.external.insert(name, asked)?;
            }
            Called::Internal(name) => {
                self.internal.insert(name, asked)?;
            }
            Called::Nothing => {}
        }
        Ok(())
    }

    // Puts the functions of a term there, the one of its extractor last.
    fn put_all(&mut self, typeenv: &'e TypeEnv, term: &'e Term) -> Result<(), AllocError>
        ensures { OnOk result (ArePut typeenv.now term.now self.old self.new) }
    {
        let made = slice::from_ref(&term.ret_ty);
        let parts = term.arg_tys.as_slice();
        let constructor = Asked {
            params: parts,
            results: made,
        };
        self.put(pure_callee(typeenv, term), constructor)?;
        let extractor = Asked {
            params: made,
            results: parts,
        };
        self.put(extractor_callee(typeenv, term), extractor)
    }
}

/// The functions of terms that are asked by cases, found by the names of what calls go to.
#[derive(Drop)]
pub struct AskedFunctions<'e> {
    typeenv: &'e TypeEnv,
    terms: &'e [Term],
    found: ByName<'e>,
}

impl<'e> Model for AskedFunctions<'e> {
    ghost use Rattle.std.specs.Prelude.{List};
    ghost use Rattle.isle_core.specs.declared.types.TypeEnv.{TypeEnv};
    ghost use Rattle.isle_core.specs.declared.types.Term.{Term};
    ghost use Rattle.isle_run_inputs.specs.AskedFunctions.{FindsAsked};

    ghost Value = { TypeEnv × List Term };

    ghost view = { λ a. (a.typeenv.now, a.terms.now) };

    ghost invariant = { λ a. FindsAsked a.typeenv.now a.terms.now a.found };
}

impl<'e> AskedFunctions<'e> {
    /// Returns the functions of these terms that are asked by cases.
    pub fn new(
        alloc: Global,
        typeenv: &'e TypeEnv,
        terms: &'e [Term],
    ) -> Result<AskedFunctions<'e>, AllocError>
        ensures { IfOk result (λ found. found ≡ (typeenv.now, terms.now)) }
    {
        let mut found = ByName {
            external: BTreeMap::new(alloc),
            internal: BTreeMap::new(alloc),
        };
        for index in (0..terms.len()).rev() {
            found.put_all(typeenv, &terms[index])?;
        }
        Ok(AskedFunctions {
            typeenv,
            terms,
            found,
        })
    }

    /// Returns the types of the first function that calls of the callee go to.
    pub fn of(&self, callee: &Callee) -> Option<Asked<'e>>
        ensures { OfTypes self.now (λ env. option_map asked_seen result ≡ asked_as env callee.now) }
    {
        match callee {
            Callee::External(name) => self.found.external.get(name.as_str()).copied(),
            Callee::Internal(name) => self.found.internal.get(name.as_str()).copied(),
        }
    }
}
