ghost use Rattle.std.specs.Prelude.{◌≡◌, IfOk};

use crate::text::Text;
use std::alloc::{AllocError, Global};
use std::marker::Model;

/// A name in a text that is read, which contracts see as the list of its bytes. It borrows them.
#[derive(Debug, Drop)]
pub struct Name<'t> {
    text: &'t str,
}

impl<'t> Model for Name<'t> {
    ghost use Rattle.std.specs.Prelude.{List, ℕ};

    ghost Value = { List ℕ };

    ghost view = { λ n. n.text.now };
}

impl<'t> Name<'t> {
    /// Makes the name of these bytes.
    pub fn new(text: &'t str) -> Name<'t>
        ensures { result ≡ text.now }
    {
        Name { text }
    }

    /// Returns the name, to read.
    pub fn as_str(&self) -> &'t str
        ensures { result.now ≡ self.now }
    {
        self.text
    }

    /// Copies the name. The only error is want of memory.
    pub fn copied(&self, alloc: Global) -> Result<Text, AllocError>
        ensures { IfOk result (λ copy. copy ≡ self.now) }
    {
        Text::copied(alloc, self.text)
    }
}
