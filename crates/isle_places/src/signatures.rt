//! What the functions of a program take and answer.

ghost use Rattle.std.specs.Prelude.{◌≡◌, IfOk, option_map};
ghost use Rattle.isle_core.specs.declared.types.ReturnKind.TheVariants as kind;
ghost use Rattle.isle_tree.specs.Views.{function, program};
ghost use Rattle.isle_places.specs.Signatures.{trait_signature, term_signature, signature_of};
ghost use Rattle.isle_places.specs.SignatureViews.{signature};
ghost use Rattle.isle_places.specs.Told.{answer_told, answers_told};
ghost use Rattle.isle_places.specs.ToldViews.{told};

use crate::told::Told;
use crate::types::Types;
use isle_core::{Callee, ReturnKind, Text};
use isle_tree::{Callees, Function, Program, Terms, TraitFn, Ty};
use std::alloc::{AllocError, Global};
use std::marker::Model;
use std::slice;

/// What a function takes, what its answers hold, and how it answers.
#[derive(Drop)]
pub struct Signature<'p> {
    pub params: &'p [Ty],
    pub results: &'p [Text],
    pub kind: ReturnKind,
}

// What is known of an answer with these results.
fn plain_told<'p>(results: &'p [Text]) -> Told<'p>
    ensures { told result ≡ answer_told kind.Plain results.now }
{
    match results {
        [ty] => Told::AValue(ty.as_str()),
        [] | [_, _, ..] => Told::ATuple(results),
    }
}

// So of an option of them.
fn option_told<'p>(results: &'p [Text]) -> Told<'p>
    ensures { told result ≡ answer_told kind.Option results.now }
{
    match results {
        [ty] => Told::AnOption(ty.as_str()),
        [] | [_, _, ..] => Told::AnOptionalTuple(results),
    }
}

// So of a list of them.
fn several_told<'p>(results: &'p [Text]) -> Told<'p>
    ensures { told result ≡ answers_told kind.Iterator results.now }
{
    match results {
        [ty] => Told::AList(ty.as_str()),
        [] | [_, _, ..] => Told::AListOfTuples(results),
    }
}

impl<'p> Signature<'p> {
    // That of a function of the trait.
    fn of_trait(f: &'p TraitFn) -> Signature<'p>
        ensures { signature result ≡ trait_signature f.now }
    {
        Signature {
            params: f.params.as_slice(),
            results: f.results.as_slice(),
            kind: f.kind,
        }
    }

    // That of a term's function.
    fn of_term(f: &'p Function) -> Signature<'p>
        ensures { signature result ≡ term_signature (function f.now) }
    {
        Signature {
            params: f.params.as_slice(),
            results: slice::from_ref(&f.result),
            kind: f.kind,
        }
    }

    /// Returns what is known of what a call of the function gives.
    pub fn answer_told(&self) -> Told<'p>
        ensures { told result ≡ answer_told (signature self.now).kind (signature self.now).results }
    {
        match self.kind {
            ReturnKind::Plain => plain_told(self.results),
            ReturnKind::Option => option_told(self.results),
            ReturnKind::Iterator => Told::Untold,
        }
    }

    /// Returns what is known of the list of what a call of the function gives, if it answers several times.
    pub fn answers_told(&self) -> Told<'p>
        ensures { told result
            ≡ answers_told (signature self.now).kind (signature self.now).results }
    {
        match self.kind {
            ReturnKind::Iterator => several_told(self.results),
            ReturnKind::Plain | ReturnKind::Option => Told::Untold,
        }
    }
}

/// The functions of a program, each found by what a call goes to, and its types.
#[derive(Drop)]
pub struct Signatures<'p> {
    program: &'p Program,
    callees: Callees<'p>,
    terms: Terms<'p>,
    types: Types<'p>,
}

impl<'p> Model for Signatures<'p> {
    ghost use Rattle.std.specs.Prelude.{◌≡◌};
    ghost use Rattle.std.specs.Coded.{codes};
    ghost use Rattle.isle_tree.specs.contracts.tree.Stmt as e;
    ghost use Rattle.isle_tree.specs.declared.tree.Program.{Program};

    ghost Value = { Program };

    ghost coded = { Prim.hlevel (codes, e.the_row.coded) };

    ghost view = { λ s. s.program.now };

    ghost invariant = { λ s. (s.callees ≡ s.program.now.trait_fns)
        × (s.terms ≡ s.program.now.fns) × (s.types ≡ s.program.now.types) };
}

impl<'p> Signatures<'p> {
    /// Finds the functions of a program by their names. The only error is want of memory.
    pub fn new(alloc: Global, p: &'p Program) -> Result<Signatures<'p>, AllocError>
        ensures { IfOk result (λ s. s ≡ p.now) }
    {
        let callees = Callees::new(alloc, p.trait_fns.as_slice())?;
        let terms = Terms::new(alloc, p.fns.as_slice())?;
        let types = Types::new(alloc, p.types.as_slice())?;
        Ok(Signatures {
            program: p,
            callees,
            terms,
            types,
        })
    }

    /// Returns the types of the program.
    pub fn types(&self) -> &Types<'p>
        ensures { result.now ≡ self.now.types }
    {
        &self.types
    }

    /// Returns the signature of what is called, if the program has it.
    pub fn of(&self, callee: &Callee) -> Option<Signature<'_>>
        ensures { option_map signature result ≡ signature_of (program self.now) callee.now }
    {
        match callee {
            Callee::External(name) => self.callees.named(name.as_str()).map(Signature::of_trait),
            Callee::Internal(term) => self.terms.named(term.as_str()).map(Signature::of_term),
        }
    }
}
