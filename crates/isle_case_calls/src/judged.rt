//! Small programs that no rules give, judged.

use isle_case_reading::shown::push_all;
use isle_core::{Callee, IntType, List, ReturnKind, Text};
use isle_judging::well_formed;
use isle_tree::{Function, Operand, Program, Read, Stmt, TCall, TExpr, Ty};
use std::alloc::{AllocError, Global};

/// What the one statement of each program does, in the order of `statement`.
const PROGRAMS: [&str; 14] = [
    "returns its parameter",
    "returns another parameter",
    "returns a local that isn't bound",
    "returns 255 of u8",
    "returns 256 of u8",
    "ends with None, and is plain",
    "gives one of several, and is plain",
    "gives one of several",
    "calls itself",
    "calls itself without an argument",
    "calls itself with two arguments",
    "calls a function that isn't there",
    "stops the closure that it stands in",
    "stops the function in a closure",
];

// A return of an operand.
fn returned(operand: Operand) -> Stmt {
    Stmt::Return(TExpr::Read(Read::Plain(operand)))
}

// A result of several: the parameter.
fn given() -> Stmt {
    Stmt::Extend(Read::Plain(Operand::Arg(0)))
}

// A call of the function of a term, with the parameter so often, bound as a list.
fn called(alloc: Global, term: &str, count: usize) -> Result<Stmt, AllocError> {
    let term = Text::copied(alloc, term)?;
    let callee = Callee::Internal(term);
    let mut args = Vec::new(alloc);
    for _ in 0..count {
        args.push(Read::Plain(Operand::Arg(0)))?;
    }
    let args = List::new(args);
    let call = TCall { callee, args };
    Ok(Stmt::LetList { local: 0, call })
}

// A closure that stops itself, or the function around it, at two results.
fn closed(alloc: Global, inside: bool) -> Result<Stmt, AllocError> {
    let stop = Stmt::Overflow { inside, limit: 2 };
    Ok(Stmt::Split {
        body: List::new(vec![in alloc; stop]?),
        inside: false,
    })
}

// The statement of a program.
fn statement(alloc: Global, number: usize) -> Result<Stmt, AllocError> {
    match number {
        0 => Ok(returned(Operand::Arg(0))),
        1 => Ok(returned(Operand::Arg(1))),
        2 => Ok(returned(Operand::Local(0))),
        3 => Ok(returned(Operand::Int(IntType::U8, 255))),
        4 => Ok(returned(Operand::Int(IntType::U8, 256))),
        5 => Ok(Stmt::Tail(None)),
        6 | 7 => Ok(given()),
        8 => called(alloc, "f", 1),
        9 => called(alloc, "f", 0),
        10 => called(alloc, "f", 2),
        11 => called(alloc, "g", 1),
        _ => closed(alloc, number == 12),
    }
}

// How often the function of a program answers.
fn kind(number: usize) -> ReturnKind {
    if number < 7 {
        ReturnKind::Plain
    } else {
        ReturnKind::Iterator
    }
}

// One parameter.
fn params(alloc: Global) -> Result<List<Ty>, AllocError> {
    let name = Text::copied(alloc, "u8")?;
    let by_ref = false;
    Ok(List::new(vec![in alloc; Ty { by_ref, name }]?))
}

// The function `f`, of one parameter, with this statement.
fn function(alloc: Global, number: usize) -> Result<Function, AllocError> {
    let term = Text::copied(alloc, "f")?;
    let result = Text::copied(alloc, "u8")?;
    let params = params(alloc)?;
    let stmt = statement(alloc, number)?;
    let body = List::new(vec![in alloc; stmt]?);
    Ok(Function {
        term,
        params,
        result,
        kind: kind(number),
        body,
    })
}

// Returns whether the program of a function is well formed.
fn judged(alloc: Global, f: Function) -> Result<bool, AllocError> {
    let fns = vec![in alloc; f]?;
    let p = Program {
        allow: false,
        trait_fns: List::new(Vec::new(alloc)),
        types: List::new(Vec::new(alloc)),
        fns: List::new(fns),
    };
    match well_formed(alloc, &p) {
        Ok(well) => Ok(well),
        Err(_) => Err(AllocError),
    }
}

// Writes what a program does, and that it is well formed or isn't.
fn push_program(
    alloc: Global,
    lines: &mut String,
    number: usize,
    does: &str,
) -> Result<(), AllocError> {
    let f = function(alloc, number)?;
    let well = judged(alloc, f)?;
    let word = if well {
        "well formed: "
    } else {
        "not well formed: "
    };
    push_all(lines, &[word, does, "\n"])
}

/// Writes a line for each program.
pub fn push_judged(alloc: Global, lines: &mut String) -> Result<(), AllocError> {
    for (number, does) in PROGRAMS.iter().enumerate() {
        push_program(alloc, lines, number, does)?;
    }
    Ok(())
}
