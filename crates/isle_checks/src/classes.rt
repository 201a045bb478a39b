//! The classes into which a rule's equalities join its bindings.

ghost use Rattle.std.specs.Prelude.{◌≡◌, ◌++◌, [], ◌∷◌, IfOk, OnOk};
ghost use Rattle.isle_checks.specs.Joined.{Equalities};
ghost use Rattle.isle_checks.specs.Classes.{representative, members as members_of, AreClasses, Relabels, Puts, Moves};

use isle_core::BindingId;
use std::alloc::{AllocError, Global};
use std::collections::BTreeMap;

/// The representative of each binding, and the bindings of each representative. A binding without an entry stands for
/// itself alone.
#[derive(Drop)]
pub struct Classes {
    representatives: BTreeMap<BindingId, BindingId>,
    members: BTreeMap<BindingId, Vec<BindingId>>,
}

// Gives these bindings a representative.
fn relabel(
    representatives: &mut BTreeMap<BindingId, BindingId>,
    bindings: &[BindingId],
    to: BindingId,
) -> Result<(), AllocError>
    ensures { OnOk result (Relabels representatives.old representatives.new bindings.now to) }
{
    for binding in bindings {
        representatives.insert(*binding, to)?;
    }
    Ok(())
}

// Takes the bindings of a representative, which has none afterwards.
fn take(
    alloc: Global,
    members: &mut BTreeMap<BindingId, Vec<BindingId>>,
    representative: BindingId,
) -> Result<Vec<BindingId>, AllocError>
    ensures taken { IfOk result (λ taken. taken.items ≡ members_of members.old representative) }
    ensures puts { OnOk result (Puts members.old members.new representative []) }
{
    match members.insert(representative, Vec::new(alloc))? {
        Some(taken) => Ok(taken),
        None => Ok(vec![in alloc; representative]?),
    }
}

impl Classes {
    /// Makes classes of one binding each.
    pub fn new(alloc: Global) -> Classes
        ensures { AreClasses [] result }
    {
        Classes {
            representatives: BTreeMap::new(alloc),
            members: BTreeMap::new(alloc),
        }
    }

    /// Returns the representative of a binding.
    pub fn of(&self, binding: BindingId) -> BindingId
        ensures { result ≡ representative self.now.representatives binding }
    {
        match self.representatives.get(&binding) {
            Some(representative) => *representative,
            None => binding,
        }
    }

    // Moves bindings to others that have this representative.
    fn move_to(
        &mut self,
        bindings: Vec<BindingId>,
        others: Vec<BindingId>,
        to: BindingId,
    ) -> Result<(), AllocError>
        ensures { OnOk result (Moves self.old self.new bindings.items others.items to) }
    {
        relabel(&mut self.representatives, bindings.as_slice(), to)?;
        let mut joined = others;
        joined.extend_from_slice(bindings.as_slice())?;
        self.members.insert(to, joined)?;
        Ok(())
    }

    /// Joins the classes of two bindings, the smaller one moving. The only error is want of memory.
    pub fn join(&mut self, alloc: Global, a: BindingId, b: BindingId) -> Result<(), AllocError>
        ensures { OnOk result
            ((es : Equalities) → AreClasses es self.old → AreClasses (es ++ (a, b) ∷ []) self.new) }
    {
        let one = self.of(a);
        let other = self.of(b);
        if one == other {
            return Ok(());
        }
        let some = take(alloc, &mut self.members, one)?;
        let more = take(alloc, &mut self.members, other)?;
        if some.len() < more.len() {
            self.move_to(some, more, other)
        } else {
            self.move_to(more, some, one)
        }
    }
}
