//! What the functions of a program may call: the functions of the trait, and those of terms.

ghost use Rattle.std.specs.Prelude.{◌≡◌, IfOk, map, option_map};
ghost use Rattle.isle_tree.specs.Views.{function};
ghost use Rattle.isle_tree.specs.WellFormed.{trait_fn, function_head, head_of};

use crate::callees::Callees;
use crate::terms::Terms;
use crate::tree::{Function, TraitFn};
use std::alloc::{AllocError, Global};
use std::marker::Model;

/// The functions of the trait, each found by its name, and the functions of terms, each found by its term.
#[derive(Drop)]
pub struct Callables<'p> {
    callees: Callees<'p>,
    terms: Terms<'p>,
}

impl<'p> Model for Callables<'p> {
    ghost use Rattle.std.specs.Prelude.{map};
    ghost use Rattle.isle_tree.specs.Views.{function};
    ghost use Rattle.isle_tree.specs.WellFormed.{Callables, function_head};

    ghost Value = { Callables };

    ghost view = { λ c.
        record { trait_fns = c.callees; heads = map function_head (map function c.terms) } };
}

impl<'p> Callables<'p> {
    /// Finds the functions of a trait by their names, and those of terms by their terms. The only error is want of
    /// memory.
    pub fn new(
        alloc: Global,
        trait_fns: &'p [TraitFn],
        fns: &'p [Function],
    ) -> Result<Callables<'p>, AllocError>
        ensures { IfOk result (λ c.
            c ≡ record {
              trait_fns = trait_fns.now;
              heads = map function_head (map function fns.now);
            }) }
    {
        let callees = Callees::new(alloc, trait_fns)?;
        let terms = Terms::new(alloc, fns)?;
        Ok(Callables { callees, terms })
    }

    /// Returns the function of the trait of this name.
    pub fn named(&self, name: &str) -> Option<&TraitFn>
        ensures { option_map (λ f. f.now) result ≡ trait_fn self.now.trait_fns name.now }
    {
        self.callees.named(name)
    }

    /// Returns the function of this term, whose head is the first of the term.
    pub fn head(&self, term: &str) -> Option<&Function>
        ensures { option_map (λ f. function_head (function f.now)) result
            ≡ head_of self.now.heads term.now }
    {
        self.terms.named(term)
    }
}
