//! The program's calls: `run_words` does what a line of words asks for, over tables such as `sample_tables`, and ends
//! with an `Exit`; `sample_text` is the text that its line `sample` counts. `docs/LANGUAGE.md` tells the lines.

pub use isle_sample::sample_text;
pub use isle_top::{Exit, run_words, sample_tables};
