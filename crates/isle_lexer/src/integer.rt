ghost use Rattle.std.specs.Prelude.{◌≡◌, ◌≢◌, ◌≤◌, ◌==◌, IsTrue, length, slice_index, ℤ, pos, neg_ℤ, option_map};
ghost use Rattle.isle_core.specs.Int.{wrapped};
ghost use Rattle.isle_core.specs.declared.types.IntType.TheVariants.{I128};
ghost use Rattle.isle_lexer.specs.Integer.{is_decimal, number, base_of, bounded, magnitude, signed_of, int_of, grown};
ghost use Rattle.isle_lexer.specs.SignedViews.{signed};

/// A number by its sign and its magnitude; `-0` is 0.
#[derive(Clone, Copy, Debug, PartialEq, Eq)]
pub struct Signed {
    pub negative: bool,
    pub magnitude: u128,
}

// A magnitude, wrapped to 128 signed bits.
fn wrapped(magnitude: u128) -> i128
    ensures { result ≡ wrapped I128 (pos magnitude) }
{
    magnitude.cast_signed()
}

// What lies a magnitude below 0, wrapped to 128 signed bits.
fn negated(magnitude: u128) -> i128
    ensures { result ≡ wrapped I128 (neg_ℤ (pos magnitude)) }
{
    magnitude.wrapping_neg().cast_signed()
}

impl Signed {
    /// Returns the number, wrapped to 128 signed bits.
    pub fn bits(self) -> i128
        ensures { result ≡ wrapped I128 (signed self) }
    {
        if self.negative {
            negated(self.magnitude)
        } else {
            wrapped(self.magnitude)
        }
    }
}

// A number with one digit more of the base. None comes if the byte is no such digit, or the number is too large.
fn grown(base: u32, value: u128, byte: u8) -> Option<u128>
    requires low { 2 ≤ base }
    requires high { base ≤ 36 }
    ensures { result ≡ grown base value byte }
{
    let digit = char::from(byte).to_digit(base)?;
    value
        .checked_mul(u128::from(base))?
        .checked_add(u128::from(digit))
}

// The number that digits of the base spell, `_` among them, below 2^128.
fn number(base: u32, digits: &[u8]) -> Option<u128>
    requires low { 2 ≤ base }
    requires high { base ≤ 36 }
    ensures { result ≡ bounded (number base digits.now) }
{
    let mut value = 0;
    let mut some = false;
    for byte in digits {
        if *byte == b'_' {
            continue;
        }
        value = grown(base, value, *byte)?;
        some = true;
    }
    if some { Some(value) } else { None }
}

// The base that `0x`, `0o` or `0b` in front names, else ten.
fn base_of(word: &[u8]) -> u32
    ensures base { result ≡ base_of word.now }
    ensures low { 2 ≤ result }
    ensures high { result ≤ 36 }
    ensures marked { result ≢ 10 → 2 ≤ length word.now }
{
    if word.len() < 2 || word[0] != b'0' {
        return 10;
    }
    match word[1] {
        b'x' => 16,
        b'o' => 8,
        b'b' => 2,
        _ => 10,
    }
}

// The magnitude that a word without a sign spells.
#[tactic(auto, unfolding(crate::specs::Integer::magnitude))]
fn magnitude(word: &[u8]) -> Option<u128>
    ensures { result ≡ magnitude word.now }
{
    if word.is_empty() || !word[0].is_ascii_digit() {
        return None;
    }
    let base = base_of(word);
    if base == 10 {
        number(base, word)
    } else {
        number(base, &word[2..])
    }
}

// Whether a word has a sign.
fn is_negative(word: &[u8]) -> bool
    ensures sign { result ≡ (slice_index word.now 0 == 45) }
    ensures some { IsTrue result → 1 ≤ length word.now }
{
    !word.is_empty() && word[0] == b'-'
}

/// Returns the value that a word spells: an optional `-`, then a decimal word that begins with a digit, or `0x`, `0o`,
/// `0b` and digits of that base, `_` anywhere among them. None comes exactly if it spells none, or one of 2^128 and
/// more.
#[tactic(auto, unfolding(crate::specs::Integer::signed_of))]
pub fn signed_of(word: &[u8]) -> Option<Signed>
    ensures { option_map signed result ≡ signed_of word.now }
{
    if is_negative(word) {
        Some(Signed {
            negative: true,
            magnitude: magnitude(&word[1..])?,
        })
    } else {
        Some(Signed {
            negative: false,
            magnitude: magnitude(word)?,
        })
    }
}

/// Returns the value that a word spells, wrapped to 128 signed bits.
#[tactic(auto, unfolding(crate::specs::Integer::int_of))]
pub fn int_of(word: &[u8]) -> Option<i128>
    ensures { result ≡ int_of word.now }
{
    let value = signed_of(word)?;
    Some(value.bits())
}
