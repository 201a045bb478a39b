//! A sample, compiled call by call and counted, beside what the words `sample 8` write.

ghost use Rattle.std.specs.Prelude.{◌≡◌, length, IfOk};

use isle_case_reading::shown::{push_all, yes_no};
use isle_codegen::{check_files, codegen_tree};
use isle_core::{CodegenOptions, Files, List, Text};
use isle_outside::{MemDir, MemSink};
use isle_sample::sample_text;
use isle_target::{TreeCounts, tree_counts};
use isle_top::{run_words, sample_tables};
use std::alloc::{AllocError, Global};

/// How many terms the sample has that is counted.
const SIZE: usize = 8;

// The text of the sample of so many terms.
fn text(alloc: Global, terms: usize) -> Result<Text, AllocError> {
    match sample_text(alloc, terms) {
        Ok(text) => Ok(Text::new(text)),
        Err(_) => Err(AllocError),
    }
}

// The sample as one file.
fn files(alloc: Global) -> Result<Files, AllocError>
    ensures { IfOk result (λ files. length files.file_texts ≡ length files.file_names) }
{
    let name = Text::copied(alloc, "sample")?;
    let text = text(alloc, SIZE)?;
    Ok(Files {
        file_names: List::new(vec![in alloc; name]?),
        file_texts: List::new(vec![in alloc; text]?),
    })
}

// Counts as lines.
fn lines_of(alloc: Global, counts: &TreeCounts, rules: usize) -> Result<String, AllocError> {
    let functions = counts.functions;
    let tests = counts.tests;
    format!(in alloc; "functions {functions}\nrules {rules}\nmatches {tests}\n")
}

// The counts of the program of these files, as lines.
fn counted(alloc: Global, files: &Files) -> Result<String, AllocError>
    requires { length files.now.file_texts ≡ length files.now.file_names }
{
    let checked = match check_files(alloc, files) {
        Ok(checked) => checked,
        Err(_) => return String::from_str(alloc, "the sample is refused\n"),
    };
    let options = CodegenOptions::new(alloc);
    let terms = checked.terms.as_slice();
    match codegen_tree(
        alloc,
        files,
        &checked.typeenv,
        &checked.termenv,
        terms,
        &options,
    ) {
        Ok(program) => lines_of(
            alloc,
            &tree_counts(&program),
            checked.termenv.rules.as_slice().len(),
        ),
        Err(_) => Err(AllocError),
    }
}

// A sink with room for the lines.
fn sink(alloc: Global) -> Result<MemSink, AllocError> {
    match MemSink::new(alloc, 100, Vec::new(alloc), 100) {
        Ok(sink) => Ok(sink),
        Err(_) => Err(AllocError),
    }
}

// What the words `sample 8` write.
fn written(alloc: Global) -> Result<String, AllocError> {
    let words = vec![in alloc;
        String::from_str(alloc, "sample")?,
        String::from_str(alloc, "8")?,
    ]?;
    let mut dir = MemDir::new(alloc, Vec::new(alloc), Vec::new(alloc), 1);
    let mut out = sink(alloc)?;
    let mut err = sink(alloc)?;
    let Ok(tables) = sample_tables(alloc) else {
        return Err(AllocError);
    };
    let _ = run_words(
        alloc,
        words.as_slice(),
        &tables,
        &mut dir,
        &mut out,
        &mut err,
    );
    String::from_utf8_lossy(alloc, out.bytes())
}

/// Writes the text of two terms, the counts of a sample, and whether the words write these.
pub fn push_samples(alloc: Global, lines: &mut String) -> Result<(), AllocError> {
    lines.push_str(text(alloc, 2)?.as_str())?;
    let files = files(alloc)?;
    let counted = counted(alloc, &files)?;
    let written = written(alloc)?;
    let same = written.as_str() == counted.as_str();
    push_all(
        lines,
        &[
            counted.as_str(),
            "sample 8 writes these: ",
            yes_no(same),
            "\n",
        ],
    )
}
