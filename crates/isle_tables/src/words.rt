//! What words say in written tables.

ghost use Rattle.std.specs.Prelude.{◌≡◌, ◌≤◌};
ghost use Rattle.isle_tables.specs.Words.{is_symbol, decimal_of, count_of, bits_of, kind_of};
ghost use Rattle.isle_tables.specs.Words.{mutability_of, class_of};

use isle_meta::{Mutability, OperandClass, OperandKind, RegClass};

/// Tells whether a word is a symbol: it doesn't begin with a digit or a minus sign.
pub fn is_symbol(word: &str) -> bool
    ensures { result ≡ is_symbol word.now }
{
    let bytes = word.as_bytes();
    if bytes.is_empty() {
        return true;
    }
    !matches!(bytes[0], b'0'..=b'9' | b'-')
}

// The number that a word of at most so many decimal digits spells.
fn decimal_of(word: &str, most: usize) -> Option<usize>
    requires { most ≤ 5 }
    ensures { result ≡ decimal_of most word.now }
{
    let digits = word.as_bytes();
    if digits.is_empty() || digits.len() > most {
        return None;
    }
    let mut number: usize = 0;
    for digit in digits {
        if !digit.is_ascii_digit() {
            return None;
        }
        number = number
            .checked_mul(10)?
            .checked_add(usize::from(*digit - b'0'))?;
    }
    Some(number)
}

/// Returns the number that one to three decimal digits spell.
#[tactic(auto, unfolding(crate::specs::Words::count_of))]
pub fn count_of(word: &str) -> Option<usize>
    ensures { result ≡ count_of word.now }
{
    decimal_of(word, 3)
}

/// Returns the number of sixteen bits that one to five decimal digits spell.
#[tactic(auto, unfolding(crate::specs::Words::bits_of))]
pub fn bits_of(word: &str) -> Option<u16>
    ensures { result ≡ bits_of word.now }
{
    let number = decimal_of(word, 5)?;
    if number > 65_535 {
        return None;
    }
    Some(number as u16)
}

/// Returns where an operand of the assembler may lie.
#[tactic(auto, unfolding(crate::specs::Words::kind_of))]
pub fn kind_of(word: &str) -> Option<OperandKind>
    ensures { result ≡ kind_of word.now }
{
    match word {
        "imm" => Some(OperandKind::Imm),
        "gpr" => Some(OperandKind::Reg(RegClass::Gpr)),
        "xmm" => Some(OperandKind::Reg(RegClass::Xmm)),
        "fixed-gpr" => Some(OperandKind::FixedReg(RegClass::Gpr)),
        "fixed-xmm" => Some(OperandKind::FixedReg(RegClass::Xmm)),
        "gpr-mem" => Some(OperandKind::RegMem(RegClass::Gpr)),
        "xmm-mem" => Some(OperandKind::RegMem(RegClass::Xmm)),
        "mem" => Some(OperandKind::Mem),
        _ => None,
    }
}

/// Returns what an instruction of the assembler does with an operand.
#[tactic(auto, unfolding(crate::specs::Words::mutability_of))]
pub fn mutability_of(word: &str) -> Option<Mutability>
    ensures { result ≡ mutability_of word.now }
{
    match word {
        "r" => Some(Mutability::Read),
        "rw" => Some(Mutability::ReadWrite),
        "w" => Some(Mutability::Write),
        _ => None,
    }
}

/// Returns what an operand is that is named alone.
#[tactic(auto, unfolding(crate::specs::Words::class_of))]
pub fn class_of(word: &str) -> Option<OperandClass>
    ensures { result ≡ class_of word.now }
{
    match word {
        "value" => Some(OperandClass::Value),
        "varargs" => Some(OperandClass::Varargs),
        "block" => Some(OperandClass::Block),
        "raw" => Some(OperandClass::RawBlock),
        _ => None,
    }
}
