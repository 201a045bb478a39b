//! The types of binary operands.

ghost use Rattle.std.specs.Prelude.{◌≡◌, List, ℕ, option_map};
ghost use Rattle.std.specs.Option.{option_copied};
ghost use denote.Ref.{Bor};
ghost use Rattle.isle_core.specs.Printed.{after_prefix};
ghost use Rattle.isle_pulley_rows.specs.BinaryParts.{before_end, binary as binary_of, of_parts};
ghost use Rattle.isle_pulley_rows.specs.BinaryParts.{split};
ghost use Rattle.isle_pulley_rows.specs.BinaryParts.{with_second, with_third};

use crate::operand::Operand;
use isle_core::Name;

// What stands in front of the first `, ` and behind it, if there is one.
fn split(text: &str) -> Option<(&str, &str)>
    ensures { option_map (λ (p : Bor (List ℕ) × Bor (List ℕ)). (p.0.now, p.1.now)) result
        ≡ split text.now }
{
    text.split_once(", ")
}

// What stands behind the prefix, if the text begins with it.
fn after_prefix<'t>(prefix: &str, text: &'t str) -> Option<&'t str>
    ensures { option_copied result ≡ after_prefix prefix.now text.now }
{
    text.strip_prefix(prefix)
}

// What stands before ` >`, if the text ends with it.
fn before_end(text: &str) -> Option<&str>
    ensures { option_copied result ≡ before_end text.now }
{
    text.strip_suffix(" >")
}

// Binary operands of these types.
fn binop<'t>(dst: &'t str, src1: &'t str, src2: &'t str) -> Operand<'t>
    ensures { result ≡ Operand.Binop dst.now src1.now src2.now }
{
    Operand::Binop(Name::new(dst), Name::new(src1), Name::new(src2))
}

// Binary operands of two types and a third one, behind which nothing stands.
fn with_third<'t>(dst: &'t str, src1: &'t str, src2: &'t str) -> Option<Operand<'t>>
    ensures { result ≡ with_third dst.now src1.now src2.now (split src2.now) }
{
    match split(src2) {
        Some(_) => None,
        None => Some(binop(dst, src1, src2)),
    }
}

// Binary operands of one type, and of what stands behind it.
fn with_second<'t>(dst: &'t str, rest: &'t str) -> Option<Operand<'t>>
    ensures { result ≡ with_second dst.now rest.now (split rest.now) }
{
    match split(rest) {
        Some((src1, src2)) => with_third(dst, src1, src2),
        None => Some(binop(dst, rest, dst)),
    }
}

// Binary operands of one, two or three types.
fn of_parts(inner: &str) -> Option<Operand<'_>>
    ensures { result ≡ of_parts inner.now }
{
    match split(inner) {
        Some((dst, rest)) => with_second(dst, rest),
        None => Some(binop(inner, inner, inner)),
    }
}

/// Returns binary operands, if the type is that of some.
pub fn binary(ty: &str) -> Option<Operand<'_>>
    ensures { result ≡ binary_of ty.now }
{
    match after_prefix("BinaryOperands < ", ty) {
        Some(rest) => match before_end(rest) {
            Some(inner) => of_parts(inner),
            None => None,
        },
        None => None,
    }
}
