//! What is asked of one number.

ghost use Rattle.std.specs.Prelude.{◌≡◌};
ghost use Rattle.isle_numerics.specs.declared.operation.Predicate.TheVariants.{PowerOfTwo};
ghost use Rattle.isle_numerics.specs.Meaning.{number_of, predicate};

use crate::count::is_positive;
use crate::numbers::magnitude;
use crate::operation::Predicate;
use isle_core::IntType;

// Whether the argument is above 0 and a power of 2.
#[tactic(auto, using(crate::proofs::CountLaws::power_is))]
fn is_power_of_two(ty: IntType, a: i128) -> bool
    ensures { result ≡ predicate PowerOfTwo (number_of ty a) }
{
    if !is_positive(ty, a) {
        return false;
    }
    let n = magnitude(ty, a);
    n == 1 << n.ilog2()
}

/// Tells what the predicate says of an argument.
pub fn predicate(ty: IntType, op: Predicate, a: i128) -> bool
    ensures { result ≡ predicate op (number_of ty a) }
{
    let n = magnitude(ty, a);
    match op {
        Predicate::Zero => n == 0,
        Predicate::NonZero => n != 0,
        Predicate::Odd => n % 2 == 1,
        Predicate::Even => n % 2 == 0,
        Predicate::PowerOfTwo => is_power_of_two(ty, a),
    }
}
