//! The variables that patterns bind, with the types that they are bound at.

ghost use Rattle.std.specs.Prelude.{◌≡◌, IfOk, OnOk, option_map};
ghost use Rattle.isle_terms.specs.Scope.{is_blank, no_variables, found_in, bound_at, met, behind, variable};

use isle_core::{Name, TypeId, VarId};
use isle_declarations::Symbols;
use std::alloc::{AllocError, Global};
use std::marker::Model;

/// Tells whether a name names no variable: it is `_`.
pub fn is_blank(name: &Name) -> bool
    ensures { result ≡ is_blank name.now }
{
    name.as_str() == "_"
}

/// Variables, each once, with the types that they are bound at, if those are known, and their numbers, and the next
/// number that is free. Contracts see them in order.
#[derive(Drop)]
pub struct Variables<'b> {
    names: Symbols<'b>,
    bound: Vec<(Option<TypeId>, usize)>,
    next: usize,
}

impl<'b> Model for Variables<'b> {
    ghost use Rattle.std.specs.Prelude.{◌≡◌, length};
    ghost use Rattle.isle_terms.specs.LocalViews.{entries, coded_scope};
    ghost use Rattle.isle_terms.specs.Scope.{Scope};

    ghost Value = { Scope };

    ghost coded = { coded_scope };

    ghost view = { λ v. record { variables = entries v.names v.bound.items; next = v.next } };

    ghost invariant = { λ v. length v.names ≡ length v.bound.items };
}

impl<'b> Variables<'b> {
    /// Begins with no variables.
    pub fn new(alloc: Global) -> Variables<'b>
        ensures { result ≡ no_variables }
    {
        Variables {
            names: Symbols::new(alloc),
            bound: Vec::new(alloc),
            next: 0,
        }
    }

    /// Returns the next number that is free.
    pub fn next(&self) -> usize
        ensures { result ≡ self.now.next }
    {
        self.next
    }

    /// Returns the type that a variable is bound at and its number, if it is bound.
    pub fn find(&self, name: &Name) -> Option<(Option<TypeId>, usize)>
        ensures { result
            ≡ option_map (λ l. (l.ty, l.number)) (found_in self.now.variables name.now) }
    {
        let place = self.names.find(name.as_str())?;
        let found = self.bound.get(place)?;
        Some(*found)
    }

    /// Returns the type and the number of a variable, if it is bound at a type that is known.
    pub fn typed(&self, name: &Name) -> Option<(TypeId, VarId)>
        ensures { result ≡ variable self.now name.now }
    {
        match self.find(name)? {
            (Some(ty), number) => Some((ty, VarId(number))),
            (None, _) => None,
        }
    }

    /// Meets a variable of a pattern, which is bound at this type if it is met first, with the next number; returns
    /// the type that it was bound at before, if it was. Errors are want of memory or of numbers.
    pub fn meet<'d>(
        &mut self,
        name: &'b Name<'d>,
        expected: Option<TypeId>,
    ) -> Result<Option<Option<TypeId>>, AllocError>
        ensures bound { IfOk result (λ bound. bound ≡ bound_at self.old name.now) }
        ensures scope { OnOk result (self.new ≡ met self.old name.now expected) }
    {
        if let Some(found) = self.find(name) {
            return Ok(Some(found.0));
        }
        let Some(next) = self.next.checked_add(1) else {
            return Err(AllocError);
        };
        self.bound.push((expected, self.next))?;
        match self.names.intern(name.as_str()) {
            Ok(_) => {
                self.next = next;
                Ok(None)
            }
            Err(_) => {
                self.bound.pop();
                Err(AllocError)
            }
        }
    }

    /// Leaves the numbers before this one.
    pub fn leave(&mut self, next: usize)
        ensures { self.new ≡ behind self.old next }
    {
        if self.next < next {
            self.next = next;
        }
    }
}
