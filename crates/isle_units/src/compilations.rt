//! Units, by name.

ghost use Rattle.std.specs.Prelude.{◌≡◌};
ghost use Rattle.std.specs.Option.{option_copied};
ghost use Rattle.isle_units.specs.Lookup.{first_named};

use crate::compilation::IsleCompilation;
use isle_core::List;

/// Units, in order.
#[derive(Debug, Drop)]
pub struct IsleCompilations {
    pub items: List<IsleCompilation>,
}

impl IsleCompilations {
    /// Returns the first unit of the name, if there is one.
    pub fn lookup(&self, name: &str) -> Option<&IsleCompilation>
        ensures { option_copied result ≡ first_named name.now self.now }
    {
        let items = self.items.as_slice();
        for unit in items {
            if unit.name.as_str() == name {
                return Some(unit);
            }
        }
        None
    }
}
