//! Methods of the macro, piece by piece.

ghost use Rattle.std.specs.Prelude.{◌≡◌, ◌++◌, OnOk, codes, string_bytes};
ghost use Rattle.isle_numerics.specs.Definitions.{prefixed};
ghost use Rattle.isle_numeric_methods.specs.Methods.{argument_text, closing, head, opener, opening};
ghost use Rattle.isle_numeric_methods.specs.Methods.{listed_text, operation_arguments, optional};

use isle_numerics::Takes;
use std::alloc::AllocError;

// Appends a type's name, and two words after `_`.
fn push_name(text: &mut String, ty: &str, first: &str, second: &str) -> Result<(), AllocError>
    ensures { OnOk result
        (string_bytes text.new
        ≡ string_bytes text.old ++ prefixed ty.now (first.now ++ second.now)) }
{
    text.push_str(ty)?;
    text.push_str("_")?;
    text.push_str(first)?;
    text.push_str(second)
}

// What stands before a method's name.
#[tactic(auto, unfolding(crate::specs::Methods::opener))]
fn opener() -> &'static str
    ensures { result.now ≡ opener }
{
    "        #[inline]\n        fn "
}

// Appends a method's name, and what stands before its arguments.
fn push_named(text: &mut String, ty: &str, first: &str, second: &str) -> Result<(), AllocError>
    ensures { OnOk result
        (string_bytes text.new
        ≡ string_bytes text.old
        ++ (prefixed ty.now (first.now ++ second.now) ++ codes "(&mut self,")) }
{
    push_name(text, ty, first, second)?;
    text.push_str("(&mut self,")
}

/// Begins a method, whose name is a type's and two words after `_`.
#[tactic(auto, unfolding(crate::specs::Methods::head))]
pub fn push_head(text: &mut String, ty: &str, first: &str, second: &str) -> Result<(), AllocError>
    ensures { OnOk result
        (string_bytes text.new
        ≡ string_bytes text.old ++ head (prefixed ty.now (first.now ++ second.now))) }
{
    text.push_str(opener())?;
    push_named(text, ty, first, second)
}

/// Appends an argument and its type.
#[tactic(auto, unfolding(crate::specs::Methods::argument_text))]
pub fn push_argument(text: &mut String, name: &str, ty: &str) -> Result<(), AllocError>
    ensures { OnOk result
        (string_bytes text.new ≡ string_bytes text.old ++ argument_text (name.now, ty.now)) }
{
    text.push_str(" ")?;
    text.push_str(name)?;
    text.push_str(": ")?;
    text.push_str(ty)
}

// Appends an argument and its type, before a comma.
fn push_listed(text: &mut String, name: &str, ty: &str) -> Result<(), AllocError>
    ensures { OnOk result
        (string_bytes text.new ≡ string_bytes text.old ++ listed_text (name.now, ty.now)) }
{
    push_argument(text, name, ty)?;
    text.push_str(",")
}

/// Appends the arguments of an operation, at the type of this name, each before a comma.
pub fn push_arguments(text: &mut String, ty: &str, takes: Takes) -> Result<(), AllocError>
    ensures { OnOk result
        (string_bytes text.new
        ≡ string_bytes text.old ++ operation_arguments ty.now takes) }
{
    push_listed(text, "a", ty)?;
    match takes {
        Takes::One => Ok(()),
        Takes::Two => push_listed(text, "b", ty),
        Takes::Amount => push_listed(text, "b", "u32"),
    }
}

// Appends a type, or an option of it.
#[tactic(auto, unfolding(crate::specs::Methods::optional))]
fn push_optional(text: &mut String, partial: bool, ty: &str) -> Result<(), AllocError>
    ensures { OnOk result
        (string_bytes text.new ≡ string_bytes text.old ++ optional partial ty.now) }
{
    if partial {
        text.push_str("Option<")?;
        text.push_str(ty)?;
        text.push_str(">")
    } else {
        text.push_str(ty)
    }
}

/// Appends what a method gives.
#[tactic(auto, unfolding(crate::specs::Methods::opening))]
pub fn push_opening(text: &mut String, partial: bool, ty: &str) -> Result<(), AllocError>
    ensures { OnOk result
        (string_bytes text.new ≡ string_bytes text.old ++ opening (optional partial ty.now)) }
{
    text.push_str(") -> ")?;
    push_optional(text, partial, ty)?;
    text.push_str(" {\n            ")
}

/// Ends a method.
#[tactic(auto, unfolding(crate::specs::Methods::closing))]
pub fn push_closing(text: &mut String) -> Result<(), AllocError>
    ensures { OnOk result (string_bytes text.new ≡ string_bytes text.old ++ closing) }
{
    text.push_str("\n        }\n")
}
