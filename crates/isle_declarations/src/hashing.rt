//! A hash of a name.

ghost use Rattle.std.specs.Prelude.{◌≡◌, ◌+◌, ◌≤◌, length};
ghost use Rattle.isle_declarations.specs.Hashing.{spread, mixed, stirred, mixed_all, word};
ghost use Rattle.isle_declarations.specs.Hashing.{with_ends, with_inner, hash_of};

// How many bytes a word has.
const WORD: usize = 8;

// An odd number whose bits look random.
const FACTOR: u64 = 11400714819323198485;

/// The hash of a name. Of a long one its length and four of its words count, two at either end.
#[tactic(auto, unfolding(crate::specs::Hashing::hash_of))]
pub fn hash_of(name: &str) -> u64
    ensures { result ≡ hash_of name.now }
{
    let bytes = name.as_bytes();
    let length = bytes.len();
    if length < WORD {
        return mixed_all(length as u64, bytes);
    }
    let ends = with_ends(length as u64, bytes);
    if length < 2 * WORD {
        return spread(ends);
    }
    spread(with_inner(ends, bytes))
}

// A hash with these bytes more.
fn mixed_all(hash: u64, bytes: &[u8]) -> u64
    ensures { result ≡ mixed_all hash bytes.now }
{
    let mut hash = hash;
    for byte in bytes {
        hash = mixed(hash, *byte as u64);
    }
    hash
}

// A hash with the first and the last word more.
fn with_ends(hash: u64, bytes: &[u8]) -> u64
    requires { 8 ≤ length bytes.now }
    ensures { result ≡ with_ends hash bytes.now }
{
    let first = stirred(hash, word(bytes, 0));
    stirred(first, word(bytes, bytes.len() - WORD))
}

// A hash with the words inside those more.
fn with_inner(hash: u64, bytes: &[u8]) -> u64
    requires { 16 ≤ length bytes.now }
    ensures { result ≡ with_inner hash bytes.now }
{
    let second = stirred(hash, word(bytes, WORD));
    stirred(second, word(bytes, bytes.len() - 2 * WORD))
}

// The eight bytes from here on, as one number.
#[tactic(auto, unfolding(crate::specs::Hashing::word))]
fn word(bytes: &[u8], at: usize) -> u64
    requires { at + 8 ≤ length bytes.now }
    ensures { result ≡ word bytes.now at }
{
    u64::from_le_bytes([
        bytes[at],
        bytes[at + 1],
        bytes[at + 2],
        bytes[at + 3],
        bytes[at + 4],
        bytes[at + 5],
        bytes[at + 6],
        bytes[at + 7],
    ])
}

// A hash with one word more, and all its bits in the lower ones.
fn stirred(hash: u64, more: u64) -> u64
    ensures { result ≡ stirred hash more }
{
    let mixed = mixed(hash, more);
    mixed ^ (mixed >> 32)
}

// A hash with one byte or word more.
fn mixed(hash: u64, more: u64) -> u64
    ensures { result ≡ mixed hash more }
{
    spread(hash.wrapping_add(more))
}

// A number with its bits spread upwards.
fn spread(number: u64) -> u64
    ensures { result ≡ spread number }
{
    number.wrapping_mul(FACTOR)
}
