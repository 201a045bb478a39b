//! The type or the constant that a definition declares.

ghost use Rattle.std.specs.Prelude.{◌≡◌, option_map};
ghost use Rattle.isle_ast.specs.Views.{def};
ghost use Rattle.isle_declarations.specs.DeclaredTypes.{type_of, constant_of};

use isle_ast::{AstBody, Def};
use isle_core::Name;

/// Returns the type's name, and what it is declared as.
pub fn type_of<'b, 'd>(given: &'b Def<'d>) -> Option<(&'b Name<'d>, &'b AstBody<'d>)>
    ensures { option_map (λ t. record { name = t.0.now; body = t.1.now }) result
        ≡ type_of (def given.now) }
{
    match given {
        Def::TypeDecl { name, body, .. } => Some((name, body)),
        _ => None,
    }
}

/// Returns the constant's name, and that of its type.
pub fn constant_of<'b, 'd>(given: &'b Def<'d>) -> Option<(&'b Name<'d>, &'b Name<'d>)>
    ensures { option_map (λ c. record { name = c.0.now; ty = c.1.now }) result
        ≡ constant_of (def given.now) }
{
    match given {
        Def::ExternConst { name, ty, .. } => Some((name, ty)),
        _ => None,
    }
}
