//! The text.

ghost use Rattle.std.specs.Prelude.{◌≡◌, ◌++◌, IfOk, OnOk, string_bytes};
ghost use Rattle.std.specs.List.{flat_map};
ghost use Rattle.isle_numeric_methods.specs.Methods.{macro_head, macro_tail, methods_from};
ghost use Rattle.isle_numeric_methods.specs.Methods.{methods_of, numeric_methods, type_methods};

use crate::conversions::push_from;
use crate::operations::push_type;
use isle_core::OutOfMemory;
use isle_numerics::NumericType;
use std::alloc::Global;

// Appends the methods of the types' operations.
fn push_types(alloc: Global, text: &mut String, types: &[NumericType]) -> Result<(), OutOfMemory>
    ensures { OnOk result
        (string_bytes text.new ≡ string_bytes text.old ++ flat_map type_methods types.now) }
{
    for ty in types {
        push_type(alloc, text, *ty)?;
    }
    Ok(())
}

// Appends the methods of the types' conversions into others of a list.
fn push_pairs(
    alloc: Global,
    text: &mut String,
    types: &[NumericType],
    all: &[NumericType],
) -> Result<(), OutOfMemory>
    ensures { OnOk result
        (string_bytes text.new
        ≡ string_bytes text.old
        ++ flat_map (methods_from all.now) types.now) }
{
    for from in types {
        push_from(alloc, text, *from, all)?;
    }
    Ok(())
}

// How the macro begins.
#[tactic(auto, unfolding(crate::specs::Methods::macro_head))]
fn macro_head() -> &'static str
    ensures { result.now ≡ macro_head }
{
    "#[macro_export]\n#[doc(hidden)]\nmacro_rules! isle_numerics_methods {\n    () => {\n"
}

// How the macro ends.
#[tactic(auto, unfolding(crate::specs::Methods::macro_tail))]
fn macro_tail() -> &'static str
    ensures { result.now ≡ macro_tail }
{
    "    }\n}\n"
}

// The macro for these types.
#[tactic(auto, unfolding(crate::specs::Methods::methods_of))]
fn methods_of(alloc: Global, types: &[NumericType]) -> Result<String, OutOfMemory>
    ensures { IfOk result (λ text. string_bytes text ≡ methods_of types.now) }
{
    let mut text = String::from_str(alloc, macro_head())?;
    push_types(alloc, &mut text, types)?;
    push_pairs(alloc, &mut text, types, types)?;
    text.push_str(macro_tail())?;
    Ok(text)
}

/// Returns the Rust text of the numeric prelude: the macro `isle_numerics_methods`, which writes a method for each Rust
/// function that the rule text names. The only error is want of memory.
#[tactic(auto, unfolding(crate::specs::Methods::numeric_methods))]
pub fn numerics_rust(alloc: Global) -> Result<String, OutOfMemory>
    ensures { IfOk result (λ text. string_bytes text ≡ numeric_methods) }
{
    let types = NumericType::all(alloc)?;
    methods_of(alloc, types.as_slice())
}
