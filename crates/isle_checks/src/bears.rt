//! Which constraints a rule bears on which bindings.

ghost use Rattle.std.specs.Prelude.{◌≡◌, ◌↔◌, IsTrue, IfSome};
ghost use Rattle.isle_checks.specs.Bears.{IsOther, HasOther, Agree, IsAmong, AreAmong};

use isle_core::{BindingId, Constraint};

// Whether it is another constraint on that binding.
fn is_other(x: &(BindingId, Constraint), binding: BindingId, constraint: Constraint) -> bool
    ensures { IsTrue result ↔ IsOther x.now binding constraint }
{
    x.0 == binding && x.1 != constraint
}

// Whether one is another constraint on that binding.
fn has_other(
    constraints: &[(BindingId, Constraint)],
    binding: BindingId,
    constraint: Constraint,
) -> bool
    ensures { IsTrue result ↔ HasOther constraints.now binding constraint }
{
    for x in constraints {
        if is_other(x, binding, constraint) {
            return true;
        }
    }
    false
}

/// Tells whether no binding has different constraints of the two.
pub fn agree(one: &[(BindingId, Constraint)], other: &[(BindingId, Constraint)]) -> bool
    ensures { IsTrue result ↔ Agree one.now other.now }
{
    for x in one {
        if has_other(other, x.0, x.1) {
            return false;
        }
    }
    true
}

// Whether it is that constraint on that binding.
fn is_same(x: &(BindingId, Constraint), y: &(BindingId, Constraint)) -> bool
    ensures { IsTrue result ↔ (x.now ≡ y.now) }
{
    x.0 == y.0 && x.1 == y.1
}

// Whether a constraint on a binding is one of these.
fn is_among(constraints: &[(BindingId, Constraint)], y: &(BindingId, Constraint)) -> bool
    ensures { IsTrue result ↔ IsAmong constraints.now y.now }
{
    for x in constraints {
        if is_same(x, y) {
            return true;
        }
    }
    false
}

/// Tells whether each of the first stands among the second.
pub fn are_among(some: &[(BindingId, Constraint)], all: &[(BindingId, Constraint)]) -> bool
    ensures { IsTrue result ↔ AreAmong some.now all.now }
{
    for x in some {
        if !is_among(all, x) {
            return false;
        }
    }
    true
}

/// Returns the first constraint on a binding.
pub fn first_on(constraints: &[(BindingId, Constraint)], binding: BindingId) -> Option<Constraint>
    ensures { IfSome result (λ c. IsAmong constraints.now (binding, c)) }
{
    for x in constraints {
        if x.0 == binding {
            return Some(x.1);
        }
    }
    None
}
