//! Cases: words, files and what the program gives them, read from data, run in memory and compared; and calls
//! that no words make.
#![tactic(auto)]

mod failing;
mod generated;
mod held;
mod library_calls;
mod samples;
mod topics;
mod unit_files;

use isle_case_reading::report::Report;
use isle_case_reading::slip::Slip;
use std::alloc::Global;
use std::process::ExitCode;
use std::rt::Env;
use std::{env, io};
use topics::hold_all;

// The words after the program's name: the topics that are to run.
fn words_given(rt: &(impl Env + AllocGlobal)) -> Result<Vec<String>, Slip> {
    let mut words = Vec::new(rt.alloc());
    let given = match env::args(rt) {
        Ok(given) => given,
        Err(_) => return Err(Slip::NotText),
    };
    for word in given.skip(1) {
        words.push(word)?;
    }
    Ok(words)
}

// The report on the topics. One that can't be made tells of a file.
fn make_report(alloc: Global, rt: HostRuntime) -> Result<Report, Slip> {
    let words = words_given(&rt)?;
    hold_all(alloc, rt, words.as_slice())
}

fn main(rt: HostRuntime) -> io::Result<ExitCode> {
    let report = match make_report(rt.alloc(), rt.clone()?) {
        Ok(report) => report,
        Err(slip) => {
            println!(rt; "no cases: {}", slip.told())?;
            return Ok(ExitCode::from(1));
        }
    };
    print!(rt; "{}", report.lines.as_str())?;
    if report.is_good() {
        println!(rt; "all cases hold")?;
        return Ok(ExitCode::from(0));
    }
    println!(rt; "{} of {} cases don't hold", report.slips, report.cases)?;
    Ok(ExitCode::from(1))
}
