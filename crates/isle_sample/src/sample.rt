//! The text of terms of two small numbers, with a rule for each pair of their first numbers.

ghost use Rattle.std.specs.Prelude.{◌≡◌, ◌+◌, ◌*◌, ◌%◌, ◌++◌, [], ◌∷◌, OnOk, IfOk};
ghost use Rattle.std.specs.Prelude.{string_bytes, codes};
ghost use Rattle.isle_sample.specs.Sample.{term_name, declaration, argument, given, rule};
ghost use Rattle.isle_sample.specs.Sample.{last_rule};
ghost use Rattle.isle_codegen.specs.LawfulEnvironment.{AreAccepted};
ghost use Rattle.isle_sample.specs.Sample.{row, rows, term_text, sample};

use isle_outside::OutOfMemory;
use isle_printer::push_numeral;
use std::alloc::{AllocError, Global};

// Appends the name of a term.
#[tactic(auto, unfolding(crate::specs::Sample::term_name))]
fn push_name(text: &mut String, term: usize) -> Result<(), AllocError>
    ensures { OnOk result (string_bytes text.new ≡ string_bytes text.old ++ term_name term) }
{
    text.push_str("t")?;
    push_numeral(text, term as u128, 10)
}

// Appends the declaration of a term.
fn push_declaration(text: &mut String, term: usize) -> Result<(), AllocError>
    ensures { OnOk result (string_bytes text.new ≡ string_bytes text.old ++ declaration term) }
{
    text.push_str("(decl ")?;
    push_name(text, term)?;
    text.push_str(" (u8 u8) u8)\n")
}

// Appends a number as an argument of a pattern.
fn push_argument(text: &mut String, number: u8) -> Result<(), AllocError>
    ensures { OnOk result (string_bytes text.new ≡ string_bytes text.old ++ argument number) }
{
    text.push_str(" ")?;
    push_numeral(text, u128::from(number), 10)
}

// Appends what a rule gives, after its pattern.
fn push_given(text: &mut String, number: u128) -> Result<(), AllocError>
    ensures { OnOk result (string_bytes text.new ≡ string_bytes text.old ++ given number) }
{
    text.push_str(") ")?;
    push_numeral(text, number, 10)?;
    text.push_str(")\n")
}

// Appends the rule of a term for two numbers.
fn push_rule(text: &mut String, term: usize, a: u8, b: u8) -> Result<(), AllocError>
    ensures { OnOk result (string_bytes text.new ≡ string_bytes text.old ++ rule term a b) }
{
    text.push_str("(rule (")?;
    push_name(text, term)?;
    push_argument(text, a)?;
    push_argument(text, b)?;
    push_given(text, 4 * u128::from(a) + u128::from(b))
}

// Appends the rule of a term for all others.
fn push_last_rule(text: &mut String, term: usize) -> Result<(), AllocError>
    ensures { OnOk result (string_bytes text.new ≡ string_bytes text.old ++ last_rule term) }
{
    text.push_str("(rule -1 (")?;
    push_name(text, term)?;
    text.push_str(" _ _) 255)\n")
}

// Appends the rules of a term for one number and each of the first ones.
fn push_row(text: &mut String, term: usize, a: u8, count: u8) -> Result<(), AllocError>
    ensures { OnOk result (string_bytes text.new ≡ string_bytes text.old ++ row term a count) }
{
    for b in 0..count {
        push_rule(text, term, a, b)?;
    }
    Ok(())
}

// Appends the rules of a term for each pair of the first numbers.
fn push_rows(text: &mut String, term: usize, count: u8) -> Result<(), AllocError>
    ensures { OnOk result (string_bytes text.new ≡ string_bytes text.old ++ rows term count) }
{
    for a in 0..count {
        push_row(text, term, a, count)?;
    }
    Ok(())
}

// Appends a term with its rules.
fn push_term(text: &mut String, term: usize) -> Result<(), AllocError>
    ensures { OnOk result (string_bytes text.new ≡ string_bytes text.old ++ term_text term) }
{
    let count = (term % 4) as u8 + 1;
    push_declaration(text, term)?;
    push_rows(text, term, count)?;
    push_last_rule(text, term)
}

// The text of the terms below a number.
fn whole_text(alloc: Global, n: usize) -> Result<String, AllocError>
    ensures { IfOk result (λ text. string_bytes text ≡ sample n) }
{
    let mut text = String::new(alloc);
    for term in 0..n {
        push_term(&mut text, term)?;
    }
    Ok(text)
}

/// Returns the text of `n` terms, numbered from 0: term I, with K the rest of I by 4, is declared by
/// `(decl tI (u8 u8) u8)`, and has a rule `(rule (tI A B) C)` for each A and B from 0 to K, where C is 4A + B, and
/// after these `(rule -1 (tI _ _) 255)`; each on a line of its own. It is valid input of the compiler for every `n`.
/// The only error is want of memory.
pub fn sample_text(alloc: Global, n: usize) -> Result<String, OutOfMemory>
    ensures text { IfOk result (λ text. string_bytes text ≡ sample n) }
    ensures accepted { IfOk result (λ text.
        AreAccepted (codes "sample" ∷ []) (string_bytes text ∷ [])) }
{
    let text = whole_text(alloc, n)?;
    Ok(text)
}
