//! The functions of a program, by their terms.

ghost use Rattle.std.specs.Prelude.{◌≡◌, IfOk, map, option_map};
ghost use Rattle.isle_tree.specs.Run.{function_of};
ghost use Rattle.isle_tree.specs.Views.{function};
ghost use Rattle.isle_tree.specs.Terms.{FindsTerms};

use crate::tree::Function;
use std::alloc::{AllocError, Global};
use std::collections::BTreeMap;
use std::marker::Model;

/// The functions of a program, each found by its term.
#[derive(Drop)]
pub struct Terms<'p> {
    fns: &'p [Function],
    found: BTreeMap<&'p str, &'p Function>,
}

impl<'p> Model for Terms<'p> {
    ghost use Rattle.std.specs.Prelude.{List};
    ghost use Rattle.std.specs.Coded.{codes};
    ghost use Rattle.isle_tree.specs.contracts.tree.Stmt as e;
    ghost use Rattle.isle_tree.specs.declared.tree.Function.{Function};
    ghost use Rattle.isle_tree.specs.Terms.{FindsTerms};

    ghost Value = { List Function };

    ghost coded = { Prim.hlevel (codes, e.the_row.coded) };

    ghost view = { λ t. t.fns.now };

    ghost invariant = { λ t. FindsTerms t.fns.now t.found };
}

// The functions by their terms, of each term the first.
fn by_term<'p>(
    alloc: Global,
    fns: &'p [Function],
) -> Result<BTreeMap<&'p str, &'p Function>, AllocError>
    ensures { IfOk result (λ found. FindsTerms fns.now found) }
{
    let mut found = BTreeMap::new(alloc);
    for index in (0..fns.len()).rev() {
        let f = &fns[index];
        found.insert(f.term.as_str(), f)?;
    }
    Ok(found)
}

impl<'p> Terms<'p> {
    /// Finds the functions of a program by their terms. The only error is want of memory.
    pub fn new(alloc: Global, fns: &'p [Function]) -> Result<Terms<'p>, AllocError>
        ensures { IfOk result (λ t. t ≡ fns.now) }
    {
        let found = by_term(alloc, fns)?;
        Ok(Terms { fns, found })
    }

    /// Returns the first function of this term.
    pub fn named(&self, term: &str) -> Option<&Function>
        ensures { option_map (λ f. function f.now) result
            ≡ function_of term.now (map function self.now) }
    {
        self.found.get(term).copied()
    }
}
