ghost use Rattle.std.specs.Prelude.{◌≡◌, option_map};
ghost use Rattle.isle_reading.specs.Combinators.{next_word};
ghost use Rattle.isle_reading.specs.Names.{name_of, read_name};
ghost use Rattle.isle_reading.specs.Views.{left, Reads};

use crate::cursor::{Expected, Fail, Tokens};
use isle_core::{Name, Text};
use isle_lexer::is_name;
use std::alloc::Global;

impl<'t> Tokens<'t> {
    /// Returns a name that is next.
    #[tactic(auto, using(crate::proofs::Steps::next))]
    pub fn next_name(&self) -> Option<&'t str>
        ensures { option_map (λ word. word.now) result ≡ next_word name_of (left self.now) }
    {
        let word = self.word()?;
        if is_name(word) { Some(word) } else { None }
    }

    /// Returns a copy of a name. Beside the name that is missing the only error is want of memory.
    pub fn name(&mut self, alloc: Global) -> Result<Text, Fail>
        ensures { Reads (λ name. name) result read_name (left self.old) (left self.new) }
    {
        let name = self.name_as(Expected::Name)?;
        Ok(name.copied(alloc)?)
    }

    /// Returns a name, which is expected as this. It borrows the text.
    #[tactic(auto, using(crate::proofs::Steps::words), unfolding(crate::specs::Names::read_name))]
    pub fn name_as(&mut self, expected: Expected) -> Result<Name<'t>, Fail>
        ensures { Reads (λ name. name) result read_name (left self.old) (left self.new) }
    {
        match self.next_name() {
            Some(word) => {
                self.skip();
                Ok(Name::new(word))
            }
            None => Err(self.miss(expected)),
        }
    }
}
