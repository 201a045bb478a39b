ghost use Rattle.std.specs.Prelude.{List, IfSome};
ghost use Rattle.std.specs.Iterator.{Count, IsFinite, MakesProgress, UpTo};
ghost use Rattle.std.specs.Iterator.SizeHint.{IsWithinCount};
ghost use Rattle.isle_runtime.specs.Items.{GivesFirst};

/// Gives items one at a time, and is handed a context for each. It means a list: the items still to come.
pub trait ContextIter {
    type Context;

    type Output;

    /// The states in which `next` may be called.
    ghost can_next: { Self → Type 0 };

    /// Holds of a state and the items still to come, if the iterator tells them.
    ghost has_list: { Self → List Self.Output → Type 0 };

    /// How many items are left at most.
    ghost remaining: { Self → Count };

    /// Gives the first of the items still to come and leaves the others, or `None` if there is none.
    fn next(&mut self, ctx: &mut Self::Context) -> Option<Self::Output>
        requires { can_next self.old }
        ensures first { (items : List Self.Output) → has_list self.old items
            → GivesFirst result items (has_list self.new) }
        ensures goes { MakesProgress can_next remaining self.old result self.new };

    /// Returns bounds on how many items are left, the second if there is one.
    fn size_hint(&self) -> (usize, Option<usize>)
        ensures lower { IsWithinCount result.0 (remaining self.now) }
        ensures upper { IfSome result.1 (UpTo (remaining self.now)) }
    {
        (0, None)
    }
}

/// What a context iterator is made of.
pub trait IntoContextIter {
    type Context;

    type Output;

    type IntoIter: ContextIter<Context = Self::Context, Output = Self::Output>;

    /// Holds of a value and its items, if it tells them.
    ghost has_items: { Self → List Self.Output → Type 0 };

    /// Makes an iterator that has the items still to come.
    fn into_context_iter(self) -> Self::IntoIter
        ensures can_next { Self.IntoIter.can_next result }
        ensures list { (items : List Self.Output) → has_items self items
            → Self.IntoIter.has_list result items }
        ensures ends { (items : List Self.Output) → has_items self items
            → IsFinite (Self.IntoIter.remaining result) };
}
