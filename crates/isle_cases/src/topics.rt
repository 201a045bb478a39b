//! The topics of the current folder, and what is held of each.

use crate::held::{hold, run, words};
use crate::library_calls::hold_calls;
use isle_case_calls::numeric_rows::hold_rows;
use isle_case_reading::case::{Case, cases_of};
use isle_case_reading::report::Report;
use isle_case_reading::slip::Slip;
use isle_case_reading::wanted::Shelf;
use isle_outside::{Dir, Found, StdDir, read_text};
use std::alloc::Global;

/// The file of the lines that calls are to write, a topic of its own.
const CALLS: &str = "library_calls.lines";

/// The file of what numeric operations are to give, a topic of its own.
const NUMERICS: &str = "numerics.rows";

// The names of the files in the current folder, in order.
fn names<D: Dir>(alloc: Global, dir: &mut D) -> Result<Vec<String>, Slip> {
    match dir.find(".") {
        Ok(Found::Folder) => match dir.list(alloc, ".") {
            Ok(mut names) => {
                names.sort_unstable();
                Ok(names)
            }
            Err(_) => Err(Slip::Unread),
        },
        _ => Err(Slip::Unread),
    }
}

// Whether a file is a topic, or a text that cases name.
fn is_data(name: &str) -> bool {
    name.ends_with(".cases") || name.ends_with(".rs") || name == CALLS || name == NUMERICS
}

// The files of the current folder. One that isn't read counts as a case that doesn't hold.
fn shelf<D: Dir>(alloc: Global, dir: &mut D, report: &mut Report) -> Result<Shelf, Slip> {
    let mut files = Vec::new(alloc);
    for name in names(alloc, dir)? {
        if is_data(name.as_str()) {
            match read_text(alloc, dir, name.as_str()) {
                Ok(text) => files.push((name, text))?,
                Err(_) => report.count_slip(alloc, name.as_str(), "", Slip::Unread, "")?,
            }
        }
    }
    Ok(Shelf { files })
}

// Runs a case, holds what it leaves against what it wants, and tells what it left.
fn judge(
    alloc: Global,
    case: &Case,
    head: &Case,
    shelf: &Shelf,
    told: &mut String,
) -> Result<(), Slip> {
    let words = words(alloc, case, head)?;
    let left = run(alloc, case, head, words.as_slice())?;
    told.push_str(left.told(alloc)?.as_str())?;
    hold(alloc, case, head, words.as_slice(), shelf, &left)
}

// Counts a case, by what came of it.
fn count(
    alloc: Global,
    topic: &str,
    name: &str,
    held: Result<(), Slip>,
    told: &str,
    report: &mut Report,
) -> Result<(), Slip> {
    match held {
        Ok(()) => report.count_held(),
        Err(slip) => report.count_slip(alloc, topic, name, slip, told)?,
    }
    Ok(())
}

// Counts the cases of a topic. One without cases is counted as one that doesn't hold.
fn count_topic(
    alloc: Global,
    topic: &str,
    cases: &[Case],
    shelf: &Shelf,
    report: &mut Report,
) -> Result<(), Slip> {
    let [head, cases @ ..] = cases else {
        return Err(Slip::Memory);
    };
    if cases.is_empty() {
        report.count_slip(alloc, topic, "", Slip::NoCases, "")?;
    }
    for case in cases {
        let mut told = String::new(alloc);
        let held = judge(alloc, case, head, shelf, &mut told);
        count(
            alloc,
            topic,
            case.name.as_str(),
            held,
            told.as_str(),
            report,
        )?;
    }
    Ok(())
}

// Counts the calls of the topic that is written in code, as one case.
fn count_calls(alloc: Global, wanted: &str, report: &mut Report) -> Result<(), Slip> {
    let mut told = String::new(alloc);
    let held = hold_calls(alloc, wanted, &mut told);
    count(alloc, "library_calls", "calls", held, told.as_str(), report)
}

// Counts the rows of numeric operations, as one case.
fn count_rows(alloc: Global, rows: &str, report: &mut Report) -> Result<(), Slip> {
    let mut told = String::new(alloc);
    let held = hold_rows(alloc, rows, &mut told);
    count(alloc, "numerics", "rows", held, told.as_str(), report)
}

// The topic that a file is.
fn topic_of(file: &str) -> Option<&str> {
    match file {
        CALLS => return Some("library_calls"),
        NUMERICS => return Some("numerics"),
        _ => {}
    }
    file.strip_suffix(".cases")
}

// Counts what a topic has.
fn count_file(
    alloc: Global,
    file: &str,
    topic: &str,
    text: &str,
    shelf: &Shelf,
    report: &mut Report,
) -> Result<(), Slip> {
    match file {
        CALLS => return count_calls(alloc, text, report),
        NUMERICS => return count_rows(alloc, text, report),
        _ => {}
    }
    let cases = cases_of(alloc, text)?;
    count_topic(alloc, topic, cases.as_slice(), shelf, report)
}

// Whether the words name a topic; no words name all.
fn is_named(words: &[String], topic: &str) -> bool {
    words.is_empty() || words.iter().any(|word| word.as_str() == topic)
}

// Counts the topics that the words name.
fn count_named(
    alloc: Global,
    words: &[String],
    shelf: &Shelf,
    report: &mut Report,
) -> Result<(), Slip> {
    for file in &shelf.files {
        let name = file.0.as_str();
        match topic_of(name) {
            Some(topic) if is_named(words, topic) => {
                count_file(alloc, name, topic, file.1.as_str(), shelf, report)?;
            }
            _ => {}
        }
    }
    Ok(())
}

// Whether a topic is there.
fn is_there(shelf: &Shelf, topic: &str) -> bool {
    for file in &shelf.files {
        if topic_of(file.0.as_str()) == Some(topic) {
            return true;
        }
    }
    false
}

// Counts each word that names no topic as a case that doesn't hold.
fn count_unknown(
    alloc: Global,
    words: &[String],
    shelf: &Shelf,
    report: &mut Report,
) -> Result<(), Slip> {
    for word in words {
        if !is_there(shelf, word.as_str()) {
            report.count_slip(alloc, word.as_str(), "", Slip::NoTopic, "")?;
        }
    }
    Ok(())
}

// Counts the topics of a folder that the words name.
fn count_all<D: Dir>(
    alloc: Global,
    dir: &mut D,
    words: &[String],
    report: &mut Report,
) -> Result<(), Slip> {
    let shelf = shelf(alloc, dir, report)?;
    count_unknown(alloc, words, &shelf, report)?;
    count_named(alloc, words, &shelf, report)
}

/// Holds the cases of the topics that the words name, of all if there are none, and reports on them.
pub fn hold_all(alloc: Global, rt: HostRuntime, words: &[String]) -> Result<Report, Slip> {
    let mut report = Report::new(alloc);
    let mut dir = StdDir::new(rt, String::new(alloc));
    count_all(alloc, &mut dir, words, &mut report)?;
    Ok(report)
}
