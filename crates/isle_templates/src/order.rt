//! The order in which variables stand.

ghost use Rattle.std.specs.Prelude.{◌≡◌, [], OnOk};
ghost use Rattle.isle_templates.specs.FirstPlaces.{FindsPlaces};
ghost use Rattle.isle_templates.specs.Renumbered.{joined, new_number};

use isle_core::VarId;
use isle_scope::Places;
use std::alloc::{AllocError, Global};
use std::marker::Model;

/// Variables in the order in which they stand first, each once. Contracts see them as the list of their numbers.
#[derive(Drop)]
pub struct Order {
    variables: Vec<usize>,
    places: Places,
}

impl Model for Order {
    ghost use Rattle.std.specs.Prelude.{List, ℕ};
    ghost use Rattle.isle_scope.specs.Places.{look_in};
    ghost use Rattle.isle_templates.specs.FirstPlaces.{FindsPlaces};

    ghost Value = { List ℕ };

    ghost view = { λ o. o.variables.items };

    ghost invariant = { λ o. FindsPlaces o.variables.items (look_in o.places) };
}

impl Order {
    /// Makes an order of no variables.
    pub fn new(alloc: Global) -> Order
        ensures { result ≡ [] }
    {
        Order {
            variables: Vec::new(alloc),
            places: Places::new(alloc),
        }
    }

    /// Puts a variable that is not there yet after the others. The only error is want of memory.
    pub fn join(&mut self, variable: VarId) -> Result<(), AllocError>
        ensures { OnOk result (self.new ≡ joined self.old variable.0) }
    {
        let number = variable.index();
        if self.places.get(number).is_some() {
            return Ok(());
        }
        let place = self.variables.len();
        self.variables.push(number)?;
        match self.places.put(number, place) {
            Ok(()) => Ok(()),
            Err(e) => {
                self.variables.pop();
                Err(e)
            }
        }
    }

    /// Returns the variable's number in this order; one that is not there keeps its own.
    pub fn renumbered(&self, variable: VarId) -> VarId
        ensures { result ≡ new_number self.now variable }
    {
        match self.places.get(variable.index()) {
            Some(place) => VarId(place),
            None => variable,
        }
    }
}
