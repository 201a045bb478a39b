//! The program: the words of the process, the current folder, standard output and standard error.
#![tactic(auto)]

use isle_core::{Sink, StdDir, StdSink, write_all};
use isle_top::{run_words, sample_tables};
use std::alloc::Global;
use std::io::ErrorKind;
use std::process::ExitCode;
use std::rt::Env;
use std::{env, io};

/// The line of want of memory before `run_words` is called, the same as that of `run_words`.
const OUT_OF_MEMORY: &[u8] = b"isle: out of memory\n";

// The words after the program's name, or the status of a run that has none: 2 if one isn't UTF-8, 12 else.
fn words_given(rt: &(impl Env + AllocGlobal)) -> Result<Vec<String>, u8> {
    let mut words = Vec::new(rt.alloc());
    let given = match env::args(rt) {
        Ok(given) => given,
        Err(e) => return Err(status_of(&e)),
    };
    for word in given.skip(1) {
        if words.push(word).is_err() {
            return Err(12);
        }
    }
    Ok(words)
}

// The status of words that can't be had.
fn status_of(e: &io::Error) -> u8 {
    if e.kind() == ErrorKind::InvalidData {
        2
    } else {
        12
    }
}

// Ends a run that has no words or no tables. A word that isn't UTF-8 has no line.
fn refused<E: Sink>(err: &mut E, status: u8) -> ExitCode {
    if status == 12 {
        let _ = write_all(err, OUT_OF_MEMORY);
    }
    ExitCode::from(status)
}

fn main(rt: HostRuntime) -> ExitCode {
    let mut out = StdSink::new(rt.stdout());
    let mut err = StdSink::new(rt.stderr());
    let words = match words_given(&rt) {
        Ok(words) => words,
        Err(status) => return refused(&mut err, status),
    };
    let alloc: Global = rt.alloc();
    let tables = match sample_tables(alloc) {
        Ok(tables) => tables,
        Err(_) => return refused(&mut err, 12),
    };
    let mut dir = StdDir::new(rt, String::new(alloc));
    let exit = run_words(
        alloc,
        words.as_slice(),
        &tables,
        &mut dir,
        &mut out,
        &mut err,
    );
    ExitCode::from(exit.0)
}
