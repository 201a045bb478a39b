//! A single name.

ghost use Rattle.std.specs.Prelude.{◌≡◌, ◌↔◌, [], ◌∷◌, IsTrue};
ghost use Rattle.isle_core.specs.Rule.{Environment};
ghost use Rattle.isle_lawful_names.specs.Claims.{Claim, name_of, usage_of, IsLawfulClaim};
ghost use Rattle.isle_lawful_names.specs.Judges.{Judges};

use crate::name_error::NameUse;

/// Gives a name with what it stands for, unless it is lawful.
pub fn unless_lawful<'a>(lawful: bool, usage: NameUse, name: &'a str) -> Option<(NameUse, &'a str)>
    ensures { (env : Environment) → (claim : Claim) → (IsTrue lawful ↔ IsLawfulClaim env claim)
        → name.now ≡ name_of claim → usage ≡ usage_of claim
        → Judges env (claim ∷ []) result }
{
    if lawful { None } else { Some((usage, name)) }
}
