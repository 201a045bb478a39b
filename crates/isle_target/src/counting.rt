//! The functions of a program and the tests in them, counted.

ghost use Rattle.std.specs.Prelude.{◌≡◌, ◌+◌};
ghost use Rattle.isle_tree.specs.Views.{stmt, body, program};
ghost use Rattle.isle_target.specs.TreeCounts.{stmt_tests, body_tests, saturated, counts_of};

use isle_tree::{Program, Stmt};

/// How many functions a program has, and how many tests stand in them.
#[derive(Clone, Copy, Debug, PartialEq, Eq)]
pub struct TreeCounts {
    pub functions: usize,
    pub tests: usize,
}

// Adds the tests that a statement is or holds to a count.
#[cycle(counting)]
#[tactic(auto, using(isle_tree::proofs::Sees::sees))]
fn count_statement(statement: &Stmt, count: usize) -> usize
    ensures { result ≡ saturated (count + stmt_tests (stmt statement.now)) }
{
    match statement {
        Stmt::IfEq(_, _, inside) | Stmt::IfLet(_, _, inside) => {
            count_body(inside.as_slice(), count.saturating_add(1))
        }
        Stmt::Match(_, arms) => {
            let mut counted = count.saturating_add(1);
            for arm in arms.as_slice() {
                counted = count_body(arm.1.as_slice(), counted);
            }
            counted
        }
        Stmt::Loop { body, .. } | Stmt::Split { body, .. } => count_body(body.as_slice(), count),
        Stmt::Let(..)
        | Stmt::LetList { .. }
        | Stmt::Return(_)
        | Stmt::Extend(_)
        | Stmt::Overflow { .. }
        | Stmt::Log { .. }
        | Stmt::Tail(_) => count,
    }
}

// Adds the tests that stand in statements to a count.
#[cycle(counting)]
fn count_body(statements: &[Stmt], count: usize) -> usize
    ensures { result ≡ saturated (count + body_tests (body statements.now)) }
{
    let mut counted = count;
    for statement in statements {
        counted = count_statement(statement, counted);
    }
    counted
}

/// Counts the functions of a program, and the tests in them: each `if`, each `if let` and each `match` is one, also
/// where it stands inside another. Past its limit the count of tests stays there. It takes no memory.
pub fn tree_counts(p: &Program) -> TreeCounts
    ensures { result ≡ counts_of (program p.now) }
{
    let functions = p.fns.as_slice();
    let mut tests = 0;
    for f in functions {
        tests = count_body(f.body.as_slice(), tests);
    }
    TreeCounts {
        functions: functions.len(),
        tests,
    }
}
