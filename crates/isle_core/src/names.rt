//! The texts of symbols, terms and what calls go to.

ghost use Rattle.std.specs.Prelude.{◌≡◌, IfOk};
ghost use Rattle.isle_core.specs.Rule.{Environment};
ghost use Rattle.isle_core.specs.Terms.{symbol_text, term_name};

use crate::types::{Term, TypeEnv};
use crate::values::Callee;
use isle_base::{Sym, TermId, Text};
use std::alloc::{AllocError, Global};

impl TypeEnv {
    /// Returns the text of a symbol; one that is not there has none.
    pub fn symbol(&self, sym: Sym) -> &str
        ensures { result.now ≡ symbol_text self.now sym }
    {
        match self.syms.as_slice().get(sym.index()) {
            Some(text) => text.as_str(),
            None => "",
        }
    }

    /// Returns the name of one of these terms; one that is not there has none.
    pub fn term_name(&self, terms: &[Term], id: TermId) -> &str
        ensures { (env : Environment) → env.types ≡ self.now → env.terms ≡ terms.now
            → result.now ≡ term_name env id }
    {
        match terms.get(id.index()) {
            Some(term) => self.symbol(term.name),
            None => "",
        }
    }
}

impl Callee {
    /// Copies what a call goes to. The only error is want of memory.
    pub fn copied(&self, alloc: Global) -> Result<Callee, AllocError>
        ensures { IfOk result (λ copy. copy ≡ self.now) }
    {
        match self {
            Callee::External(name) => Ok(Callee::External(Text::copied(alloc, name.as_str())?)),
            Callee::Internal(term) => Ok(Callee::Internal(Text::copied(alloc, term.as_str())?)),
        }
    }
}
