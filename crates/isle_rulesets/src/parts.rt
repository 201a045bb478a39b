ghost use Rattle.std.specs.Prelude.{◌≡◌, IfOk};

use isle_core::{BindingId, List};
use std::alloc::{AllocError, Global};
use std::cmp::Ordering;
use std::marker::Model;

/// The numbers of a value's parts, which contracts see as their list, and which are compared in order.
#[derive(Drop)]
pub struct Parts {
    numbers: Vec<BindingId>,
}

impl Model for Parts {
    ghost use Rattle.std.specs.Prelude.{List};
    ghost use Rattle.isle_core.specs.declared.BindingId.{BindingId as Number};

    ghost Value = { List Number };

    ghost view = { λ parts. parts.numbers.items };
}

impl Parts {
    /// Makes the parts of these numbers. It takes no memory.
    pub fn new(numbers: Vec<BindingId>) -> Parts
        ensures { result ≡ numbers.items }
    {
        Parts { numbers }
    }

    /// Returns the numbers.
    pub fn as_slice(&self) -> &[BindingId]
        ensures { result.now ≡ self.now }
    {
        self.numbers.as_slice()
    }

    /// Copies the numbers. The only error is want of memory.
    pub fn copied(&self, alloc: Global) -> Result<List<BindingId>, AllocError>
        ensures { IfOk result (λ numbers. numbers ≡ self.now) }
    {
        let mut numbers = Vec::new(alloc);
        numbers.extend_from_slice(self.numbers.as_slice())?;
        Ok(List::new(numbers))
    }
}

impl PartialEq for Parts {
    ghost use Rattle.isle_rulesets.specs.Parts.{parts_eq, parts_eq_per};

    ghost eq = { parts_eq };

    ghost laws = { parts_eq_per };

    fn eq(&self, other: &Self) -> bool {
        self.numbers.as_slice() == other.numbers.as_slice()
    }
}

impl Eq for Parts {
    ghost use Rattle.isle_rulesets.specs.Parts.{parts_eq_equiv};

    ghost laws = { parts_eq_equiv };
}

impl PartialOrd for Parts {
    ghost use Rattle.isle_rulesets.specs.Parts.{parts_partial_cmp, parts_po};

    ghost partial_cmp = { parts_partial_cmp };

    ghost laws = { parts_po };

    fn partial_cmp(&self, other: &Self) -> Option<Ordering> {
        self.numbers
            .as_slice()
            .partial_cmp(&other.numbers.as_slice())
    }
}

impl Ord for Parts {
    ghost use Rattle.isle_rulesets.specs.Parts.{parts_cmp, parts_total, parts_agree, parts_tie};

    ghost cmp = { parts_cmp };

    ghost total = { parts_total };

    ghost matches_partial_cmp = { parts_agree };

    ghost matches_eq = { parts_tie };

    fn cmp(&self, other: &Self) -> Ordering {
        self.numbers.as_slice().cmp(&other.numbers.as_slice())
    }
}
