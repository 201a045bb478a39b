ghost use Rattle.std.specs.Prelude.{◌≡◌};
ghost use Rattle.isle_command_line.specs.Words.{is_name};
ghost use Rattle.isle_command_line.specs.Targets.{target_of};
ghost use Rattle.isle_command_line.specs.Reading.{first, mark, kind_of, count, size, is_trace};
ghost use Rattle.isle_command_line.specs.Reading.{is_answers};

use crate::commands::Kind;
use isle_settings::Isa;

/// What the first word of a line is.
#[derive(Clone, Copy, Debug, PartialEq, Eq)]
pub enum FirstWord {
    Help,
    Version,
    Compile,
    Build,
    Prelude,
    Units,
    Isa,
    Sample,
    Run,
    /// No line begins with it.
    Other,
}

/// What a word is where an option may stand.
#[derive(Clone, Copy, Debug, PartialEq, Eq)]
pub enum OptionWord {
    NoAllow,
    Log,
    Split,
    Threshold,
    MaxReturns,
    Prefix,
    /// It is no option.
    Other,
}

/// Returns what the first word is.
#[tactic(auto, unfolding(crate::specs::Reading::first))]
pub fn first(word: &str) -> FirstWord
    ensures { result ≡ first word.now }
{
    match word {
        "--help" => FirstWord::Help,
        "--version" => FirstWord::Version,
        "compile" => FirstWord::Compile,
        "build" => FirstWord::Build,
        "prelude" => FirstWord::Prelude,
        "units" => FirstWord::Units,
        "isa" => FirstWord::Isa,
        "sample" => FirstWord::Sample,
        "run" => FirstWord::Run,
        _ => FirstWord::Other,
    }
}

/// Returns the option that a word names.
#[tactic(auto, unfolding(crate::specs::Reading::mark))]
pub fn mark(word: &str) -> OptionWord
    ensures { result ≡ mark word.now }
{
    match word {
        "--no-allow" => OptionWord::NoAllow,
        "--log" => OptionWord::Log,
        "--split" => OptionWord::Split,
        "--threshold" => OptionWord::Threshold,
        "--max-returns" => OptionWord::MaxReturns,
        "--prefix" => OptionWord::Prefix,
        _ => OptionWord::Other,
    }
}

/// Returns the kind of prelude that a word names.
#[tactic(auto, unfolding(crate::specs::Reading::kind_of))]
pub fn kind_of(word: &str) -> Option<Kind>
    ensures { result ≡ kind_of word.now }
{
    match word {
        "numerics" => Some(Kind::Numerics),
        "numerics-rust" => Some(Kind::NumericsRust),
        "clif-opt" => Some(Kind::ClifOpt),
        "clif-lower" => Some(Kind::ClifLower),
        "assembler" => Some(Kind::Assembler),
        "assembler-rust" => Some(Kind::AssemblerRust),
        "pulley" => Some(Kind::Pulley),
        "pulley-rust" => Some(Kind::PulleyRust),
        _ => None,
    }
}

/// Returns the target of this name, or else the one that stands for the architecture of this word.
#[tactic(auto, unfolding(crate::specs::Targets::target_of))]
pub fn target_of(word: &str) -> Option<Isa>
    ensures { result ≡ target_of word.now }
{
    Isa::from_name(word).or_else(|| Isa::from_arch(word))
}

/// Tells whether a word may name an input or a unit.
pub fn is_name(word: &str) -> bool
    ensures { result ≡ is_name word.now }
{
    !word.is_empty() && !word.starts_with("--")
}

/// Tells whether a word asks for a trace.
#[tactic(auto, unfolding(crate::specs::Reading::is_trace))]
pub fn is_trace(word: &str) -> bool
    ensures { result ≡ is_trace word.now }
{
    word == "--trace"
}

/// Tells whether a file of answers is named after a word.
#[tactic(auto, unfolding(crate::specs::Reading::is_answers))]
pub fn is_answers(word: &str) -> bool
    ensures { result ≡ is_answers word.now }
{
    word == "--answers"
}

/// Returns the number that a word of 1 to 18 digits spells.
#[tactic(auto, unfolding(crate::specs::Reading::count))]
pub fn count(word: &str) -> Option<usize>
    ensures { result ≡ count word.now }
{
    let digits = word.as_bytes();
    if digits.is_empty() || digits.len() > 18 {
        return None;
    }
    let mut value = 0_usize;
    for digit in digits {
        if !digit.is_ascii_digit() {
            return None;
        }
        value = value * 10 + usize::from(*digit - b'0');
    }
    Some(value)
}

/// Returns the size of a sample that a word spells: 1 to 10,000 in at most 5 digits.
#[tactic(auto, unfolding(crate::specs::Reading::size))]
pub fn size(word: &str) -> Option<usize>
    ensures { result ≡ size word.now }
{
    if word.len() > 5 {
        return None;
    }
    match count(word) {
        Some(size) if size >= 1 && size <= 10_000 => Some(size),
        _ => None,
    }
}
