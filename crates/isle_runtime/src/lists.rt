ghost use Rattle.std.specs.Prelude.{◌≡◌, ◌++◌, ℕ, length};
ghost use Rattle.std.specs.Iterator.{ExtendsWithItems, IsFinite};

use isle_outside::OutOfMemory;

/// What has a number of items.
pub trait Length {
    /// How many items it has.
    ghost count: { Self → ℕ };

    /// Returns how many items it has.
    fn len(&self) -> usize
        ensures { result ≡ count self.now };
}

impl<T> Length for Vec<T> {
    ghost count = { λ list. length list.items };

    fn len(&self) -> usize {
        Vec::len(self)
    }
}

/// Appends the items in order. Room is made before an item is asked for, so that none is lost if memory
/// runs out.
pub(crate) fn append<T, It: Iterator<Item = T>>(
    list: &mut Vec<T>,
    mut items: It,
) -> Result<(), OutOfMemory>
    requires can_next { It.can_next items }
    requires ends { IsFinite (It.remaining items) }
    ensures ran { ExtendsWithItems (λ taken iter. iter ≡ taken) It.next_gives
        (λ old given new. new.items ≡ old.items ++ given) items list.old list.new result }
{
    loop {
        list.reserve(1)?;
        match items.next() {
            Some(item) => list.push_reserved(item),
            None => return Ok(()),
        }
    }
}
