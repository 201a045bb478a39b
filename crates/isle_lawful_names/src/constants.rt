//! The names of constants.

ghost use Rattle.std.specs.Prelude.{◌≡◌, [], ◌∷◌};
ghost use Rattle.isle_core.specs.Rule.{Environment};
ghost use Rattle.isle_lawful_names.specs.LawfulNames.{emitted_names};
ghost use Rattle.isle_lawful_names.specs.NameSet.{HasNames};
ghost use Rattle.isle_lawful_names.specs.Claims.{OfConstant, constant_claims};
ghost use Rattle.isle_lawful_names.specs.Judges.{Judges};

use crate::lawful::is_constant_name;
use crate::name_error::NameUse;
use crate::name_set::is_new;
use crate::single::unless_lawful;
use isle_core::TypeEnv;
use std::collections::BTreeSet;

// The name of a constant, unless it may be emitted beside the types' names, which are those of the set.
fn constant_found<'a>(names: &BTreeSet<&str>, name: &'a str) -> Option<(NameUse, &'a str)>
    ensures { (env : Environment) → HasNames (emitted_names env.types env.types.types) names.now
        → Judges env (OfConstant name.now ∷ []) result }
{
    let lawful = is_constant_name(name) & is_new(names, name);
    unless_lawful(lawful, NameUse::Constant, name)
}

/// Gives the first name of a constant that may not be emitted; the set has the names of all types.
pub fn unlawful_constant<'a>(
    types: &'a TypeEnv,
    names: &BTreeSet<&str>,
) -> Option<(NameUse, &'a str)>
    requires { HasNames (emitted_names types.now types.now.types) names.now }
    ensures { (env : Environment) → env.types ≡ types.now
        → Judges env (constant_claims types.now types.now.consts) result }
{
    for constant in types.consts.as_slice() {
        let found = constant_found(names, types.symbol(constant.0));
        if found.is_some() {
            return found;
        }
    }
    None
}
