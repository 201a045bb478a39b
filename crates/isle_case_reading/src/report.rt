//! What is known of the cases.

use crate::slip::Slip;
use std::alloc::{AllocError, Global};

/// How many cases there are and how many don't hold, with a line for each such one.
#[derive(Drop)]
pub struct Report {
    pub cases: usize,
    pub slips: usize,
    pub lines: String,
}

impl Report {
    /// Makes a report on no cases.
    pub fn new(alloc: Global) -> Report {
        Report {
            cases: 0,
            slips: 0,
            lines: String::new(alloc),
        }
    }

    /// Returns whether there are cases, and all hold.
    pub fn is_good(&self) -> bool {
        self.cases > 0 && self.slips == 0
    }

    /// Counts a case that holds.
    pub fn count_held(&mut self) {
        self.cases = self.cases.saturating_add(1);
    }

    /// Counts a case that doesn't hold, and says why and what its run left.
    pub fn count_slip(
        &mut self,
        alloc: Global,
        topic: &str,
        name: &str,
        slip: Slip,
        left: &str,
    ) -> Result<(), AllocError> {
        self.cases = self.cases.saturating_add(1);
        self.slips = self.slips.saturating_add(1);
        let why = slip.told();
        let line = format!(in alloc; "{topic}: {name}: {why}{left}\n")?;
        self.lines.push_str(line.as_str())
    }
}
