//! Numbers of the builtin integer types, as Rust spells them.

ghost use Rattle.std.specs.Prelude.{◌≡◌, ℤ, ◌++◌, ◌^◌, ◌%◌, ◌<◌, [], ◌∷◌, OnOk, IfOk, string_bytes};
ghost use Rattle.isle_printer.specs.Token.{Word};
ghost use mir.Val.{bits, hbits};
ghost use Rattle.isle_core.specs.Int.{width, WrapsTo, wrapped};
ghost use Rattle.isle_spelling.specs.Literal.{literal_word, literal_text, literal_tokens, of_bits};

use isle_core::{IntType, OutOfMemory};
use isle_printer::{Printer, push_numeral};
use std::alloc::{AllocError, Global};

// As many of the low bits as the type has.
fn low_bits(ty: IntType, n: u128) -> u128
    ensures { result ≡ n % 2 ^ bits (width ty) }
{
    if ty.bits() == 128 {
        return n;
    }
    n % (1 << ty.bits())
}

// The type's highest bit, from which on a signed number lies below 0.
fn high_bit(ty: IntType) -> u128
    ensures { result ≡ 2 ^ hbits (width ty) }
{
    1 << (ty.bits() - 1)
}

// A magnitude and its type.
fn push_word(out: &mut String, ty: IntType, n: u128) -> Result<(), AllocError>
    ensures { OnOk result (string_bytes out.new ≡ string_bytes out.old ++ literal_word ty n) }
{
    if ty.is_signed() {
        push_numeral(out, n, 10)?;
    } else {
        out.push_str("0x")?;
        push_numeral(out, n, 16)?;
    }
    out.push_str("_")?;
    out.push_str(ty.name())
}

// The number that the type's bits stand for.
fn push_bits(out: &mut String, ty: IntType, n: u128) -> Result<(), AllocError>
    requires { n < 2 ^ bits (width ty) }
    ensures { OnOk result
        (string_bytes out.new ≡ string_bytes out.old ++ literal_text ty (of_bits ty n)) }
{
    if !ty.is_signed() {
        return push_word(out, ty, n);
    }
    let half = high_bit(ty);
    if n < half {
        return push_word(out, ty, n);
    }
    out.push_str("-")?;
    push_word(out, ty, half - (n - half))
}

// Prints a magnitude and its type.
fn print_word(out: &mut Printer, ty: IntType, n: u128) -> Result<(), AllocError>
    ensures { OnOk result (out.new ≡ out.old ++ Word (literal_word ty n) ∷ []) }
{
    if ty.is_signed() {
        out.number("", n, 10, ty.name())
    } else {
        out.number("0x", n, 16, ty.name())
    }
}

// Prints the number that the type's bits stand for, its sign as a mark of its own.
fn print_bits(out: &mut Printer, ty: IntType, n: u128) -> Result<(), AllocError>
    requires { n < 2 ^ bits (width ty) }
    ensures { OnOk result (out.new ≡ out.old ++ literal_tokens ty (of_bits ty n)) }
{
    if !ty.is_signed() {
        return print_word(out, ty, n);
    }
    let half = high_bit(ty);
    if n < half {
        return print_word(out, ty, n);
    }
    out.mark("-")?;
    print_word(out, ty, half - (n - half))
}

/// Prints a number of the type, its sign as a mark of its own. What is printed after an error is left open.
pub fn print_literal(out: &mut Printer, ty: IntType, val: i128) -> Result<(), AllocError>
    ensures { OnOk result (out.new ≡ out.old ++ literal_tokens ty (wrapped ty val)) }
{
    print_bits(out, ty, low_bits(ty, val.cast_unsigned()))
}

/// Returns a number as a Rust literal of the type, to which it is wrapped: `0xfe_u8` for -2 at `u8`, `-1_i64` for -1 at
/// `i64`. Unsigned types have hexadecimal digits, signed ones decimal. The only error is want of memory.
pub fn rust_int_literal(alloc: Global, ty: IntType, val: i128) -> Result<String, OutOfMemory>
    ensures text { IfOk result (λ s. string_bytes s ≡ literal_text ty (wrapped ty val)) }
    ensures wraps { WrapsTo ty val (wrapped ty val) }
    ensures only { (n : ℤ) → WrapsTo ty val n → n ≡ wrapped ty val }
{
    let bits = low_bits(ty, val.cast_unsigned());
    let mut out = String::new(alloc);
    push_bits(&mut out, ty, bits)?;
    Ok(out)
}
