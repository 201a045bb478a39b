//! What the words of errors call a term and its rules.

use isle_core::{Rule, Sym, Term, TermEnv, TermId, TypeEnv};
use std::alloc::{AllocError, Global};

/// The longest name of a rule, in bytes, that words tell: each rule that overlaps that rule tells it again.
const MOST_OF_NAME: usize = 100;

/// The names of terms, and of the rules of each.
#[derive(Drop)]
pub struct Names<'a> {
    types: &'a TypeEnv,
    terms: &'a [Term],
    /// By term, in the order of its rules.
    rules: Vec<Vec<Option<Sym>>>,
}

/// The names of a term and of its rules.
#[derive(Clone, Copy)]
pub struct TermNames<'a> {
    pub term: &'a str,
    types: &'a TypeEnv,
    /// In the order of the term's rules.
    rules: &'a [Option<Sym>],
}

impl<'a> Names<'a> {
    /// Takes the names of the terms and rules of an environment. The only error is want of memory.
    pub fn new(
        alloc: Global,
        types: &'a TypeEnv,
        termenv: &'a TermEnv,
    ) -> Result<Names<'a>, AllocError> {
        let terms = termenv.terms.as_slice();
        let rules = rule_names(alloc, terms.len(), termenv.rules.as_slice())?;
        Ok(Names {
            types,
            terms,
            rules,
        })
    }

    /// Returns the names of a term and of its rules, if the term is there.
    pub fn of(&self, id: TermId) -> Option<TermNames<'_>> {
        let rules = self.rules.get(id.index())?;
        Some(TermNames {
            term: self.types.term_name(self.terms, id),
            types: self.types,
            rules: rules.as_slice(),
        })
    }
}

impl<'a> TermNames<'a> {
    /// Returns the name of the rule at a place, where it has one that words tell.
    pub fn rule(&self, place: usize) -> Option<&'a str> {
        let name = (*self.rules.get(place)?)?;
        let text = self.types.symbol(name);
        if text.len() > MOST_OF_NAME {
            return None;
        }
        Some(text)
    }
}

// As many terms, each without a rule.
fn no_names(alloc: Global, count: usize) -> Result<Vec<Vec<Option<Sym>>>, AllocError> {
    let mut names = Vec::new(alloc);
    for _ in 0..count {
        names.push(Vec::new(alloc))?;
    }
    Ok(names)
}

// The names of the rules of each term, in order.
fn rule_names(
    alloc: Global,
    count: usize,
    rules: &[Rule],
) -> Result<Vec<Vec<Option<Sym>>>, AllocError> {
    let mut names = no_names(alloc, count)?;
    for rule in rules {
        let term = rule.root_term.index();
        if term < names.len() {
            names[term].push(rule.name)?;
        }
    }
    Ok(names)
}
