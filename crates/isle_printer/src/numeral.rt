//! The digits of a number.

ghost use Rattle.std.specs.Prelude.{◌≡◌, ◌++◌, ◌≤◌, ◌<◌, OnOk, string_bytes};
ghost use Rattle.isle_printer.specs.Number.{numeral, glyph};

use std::alloc::AllocError;

// The character of one digit.
fn glyph(digit: u8) -> char
    requires { digit < 16 }
    ensures { result ≡ glyph digit }
{
    if digit < 10 {
        (b'0' + digit) as char
    } else {
        (b'a' + (digit - 10)) as char
    }
}

// Appends the digits of a number that is not long.
fn push_short(out: &mut String, n: u64, base: u64) -> Result<(), AllocError>
    requires low { 2 ≤ base }
    requires high { base ≤ 16 }
    ensures { OnOk result (string_bytes out.new ≡ string_bytes out.old ++ numeral base n) }
{
    if n >= base {
        push_short(out, n / base, base)?;
    }
    out.push(glyph((n % base) as u8))?;
    Ok(())
}

/// Appends a number's digits, the highest first and with no zero before them; 0 is one digit.
pub fn push_numeral(out: &mut String, n: u128, base: u8) -> Result<(), AllocError>
    requires low { 2 ≤ base }
    requires high { base ≤ 16 }
    ensures { OnOk result (string_bytes out.new ≡ string_bytes out.old ++ numeral base n) }
{
    if n < 0x1_0000_0000_0000_0000 {
        return push_short(out, n as u64, u64::from(base));
    }
    let wide = u128::from(base);
    push_numeral(out, n / wide, base)?;
    out.push(glyph((n % wide) as u8))?;
    Ok(())
}
