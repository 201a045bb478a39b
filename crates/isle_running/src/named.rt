//! Values by their names.

ghost use Rattle.std.specs.Prelude.{◌≡◌, IfOk, option_map};
ghost use Rattle.isle_running.specs.Named.{value_named, FindsValues};

use isle_core::{Text, Value};
use std::alloc::{AllocError, Global};
use std::collections::BTreeMap;
use std::marker::Model;

/// Values with names, each found by its name: those of constants, or of fields.
#[derive(Drop)]
pub struct Named<'a> {
    given: &'a [(Text, Value)],
    found: BTreeMap<&'a str, &'a Value>,
}

impl<'a> Model for Named<'a> {
    ghost use Rattle.std.specs.Prelude.{ℕ, List};
    ghost use Rattle.std.specs.Coded.{codes};
    ghost use Rattle.isle_core.specs.contracts.values.Value as e;
    ghost use Rattle.isle_core.specs.declared.values.Value.{Value as CodeValue};
    ghost use Rattle.isle_running.specs.Named.{FindsValues};

    ghost Value = { List (List ℕ × CodeValue) };

    ghost coded = { Prim.hlevel (codes, e.the_row.coded) };

    ghost view = { λ n. n.given.now };

    ghost invariant = { λ n. FindsValues n.given.now n.found };
}

// The values by their names, of each name the first.
fn by_name<'a>(
    alloc: Global,
    given: &'a [(Text, Value)],
) -> Result<BTreeMap<&'a str, &'a Value>, AllocError>
    ensures { IfOk result (λ found. FindsValues given.now found) }
{
    let mut found = BTreeMap::new(alloc);
    for index in (0..given.len()).rev() {
        let next = &given[index];
        found.insert(next.0.as_str(), &next.1)?;
    }
    Ok(found)
}

impl<'a> Named<'a> {
    /// Finds values by their names. The only error is want of memory.
    pub fn new(alloc: Global, given: &'a [(Text, Value)]) -> Result<Named<'a>, AllocError>
        ensures { IfOk result (λ n. n ≡ given.now) }
    {
        let found = by_name(alloc, given)?;
        Ok(Named { given, found })
    }

    /// Returns the first value of this name.
    pub fn value(&self, name: &str) -> Option<&Value>
        ensures { option_map (λ v. v.now) result ≡ value_named self.now name.now }
    {
        self.found.get(name).copied()
    }
}
