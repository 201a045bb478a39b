//! What a sample becomes, in numbers.

ghost use Rattle.std.specs.Prelude.{◌≡◌, ◌++◌, [], ◌∷◌, length, codes, IfOk, IfErr, OnOk};
ghost use Rattle.std.specs.String.{string_bytes};
ghost use Rattle.isle_rulesets.specs.Grouping.{AreRuleSets};
ghost use Rattle.isle_codegen.specs.Causes.{IsRefusal, IsTextRefusal};
ghost use Rattle.isle_codegen.specs.Checked.{IsChecked};
ghost use Rattle.isle_run.specs.Compiled.{env_checked};
ghost use Rattle.isle_sample.specs.Sample.{sample};
ghost use Rattle.isle_top.specs.SampleLine.{sample_source, count_line, counts_text, AreCounts};

use isle_codegen::{Checked, CompileError, FileError, check_files, codegen_tree};
use isle_core::{CodegenOptions, Files, List, OutOfMemory, Text};
use isle_printer::push_numeral;
use isle_sample::sample_text;
use isle_target::{TreeCounts, tree_counts};
use std::alloc::{AllocError, Global};

// The sample as a source of one file.
fn sample_source(alloc: Global, size: usize) -> Result<Files, OutOfMemory>
    ensures { IfOk result (λ files. files ≡ sample_source size) }
{
    let text = Text::new(sample_text(alloc, size)?);
    let name = Text::copied(alloc, "sample")?;
    Ok(Files {
        file_names: List::new(vec![in alloc; name]?),
        file_texts: List::new(vec![in alloc; text]?),
    })
}

// Appends the line of a number after its word.
#[tactic(auto, unfolding(crate::specs::SampleLine::count_line))]
fn push_count(lines: &mut String, word: &str, number: usize) -> Result<(), AllocError>
    ensures { OnOk result
        (string_bytes lines.new ≡ string_bytes lines.old ++ count_line word.now number) }
{
    lines.push_str(word)?;
    push_numeral(lines, number as u128, 10)?;
    lines.push_str("\n")
}

// The lines of counts.
fn counts_text(alloc: Global, counts: &TreeCounts, rules: usize) -> Result<String, OutOfMemory>
    ensures { IfOk result (λ lines. string_bytes lines ≡ counts_text counts.now rules) }
{
    let mut lines = String::new(alloc);
    push_count(&mut lines, "functions ", counts.functions)?;
    push_count(&mut lines, "rules ", rules)?;
    push_count(&mut lines, "matches ", counts.tests)?;
    Ok(lines)
}

// The counts of the program of a source that was checked, as lines.
fn of_checked(alloc: Global, source: &Files, checked: &Checked) -> Result<String, OutOfMemory>
    requires checked { IsChecked source.now (env_checked checked.now) }
    requires terms { AreRuleSets (env_checked checked.now) checked.now.terms }
    ensures { IfOk result (λ lines. AreCounts source.now (string_bytes lines)) }
{
    let options = CodegenOptions::new(alloc);
    let program = codegen_tree(
        alloc,
        source,
        &checked.typeenv,
        &checked.termenv,
        checked.terms.as_slice(),
        &options,
    )?;
    counts_text(
        alloc,
        &tree_counts(&program),
        checked.termenv.rules.as_slice().len(),
    )
}

// The counts of the program of a source, as lines. There are as many names as texts.
fn of_source(alloc: Global, source: &Files) -> Result<String, CompileError>
    requires count { length source.now.file_texts ≡ length source.now.file_names }
    ensures ok { IfOk result (λ lines. AreCounts source.now (string_bytes lines)) }
    ensures err { IfErr result (λ e. IsTextRefusal e source.now) }
{
    let checked = match check_files(alloc, source) {
        Ok(checked) => checked,
        Err(fail) => return Err(fail),
    };
    match of_checked(alloc, source, &checked) {
        Ok(lines) => Ok(lines),
        Err(_) => Err(CompileError::Memory),
    }
}

// The same, of a source that is handed on with its errors.
fn counted(alloc: Global, source: Files) -> Result<String, FileError>
    requires { length source.file_texts ≡ length source.file_names }
    ensures ok { IfOk result (λ lines. AreCounts source (string_bytes lines)) }
    ensures err { IfErr result (λ e. IsRefusal e source.file_names source.file_texts) }
{
    match of_source(alloc, &source) {
        Ok(lines) => Ok(lines),
        Err(fail) => Err(fail.with_files(source)),
    }
}

/// Compiles the sample of `size` terms, and returns the lines that count its functions, its rules and the tests that
/// stand in the functions (`specs/SampleLine.antt`).
pub fn sampled(alloc: Global, size: usize) -> Result<String, FileError>
    ensures ok { IfOk result (λ lines. AreCounts (sample_source size) (string_bytes lines)) }
    ensures err { IfErr result (λ e. IsRefusal e (codes "sample" ∷ []) (sample size ∷ [])) }
{
    match sample_source(alloc, size) {
        Ok(source) => counted(alloc, source),
        Err(_) => Err(FileError::Memory),
    }
}
