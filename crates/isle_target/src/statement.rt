//! The text of statements.

ghost use Rattle.std.specs.Prelude.{◌≡◌, ◌++◌, [], ◌∷◌, OnOk, codes};
ghost use Rattle.isle_printer.specs.Token.{Mark, Quoted};
ghost use Rattle.isle_tree.specs.Views.{stmt, body};
ghost use Rattle.isle_tree.specs.WellFormed.{IsOperand, IsRead, IsExpr, IsPattern, IsStmt, IsBody};
ghost use Rattle.isle_target.specs.StatementSpelling.{let_tokens, return_tokens, if_eq_head};
ghost use Rattle.isle_target.specs.StatementSpelling.{if_let_head};
ghost use Rattle.isle_target.specs.StatementSpelling.{match_head, arm_head, match_end, close};
ghost use Rattle.isle_target.specs.StatementSpelling.{no_rule, unreachable_head, log_head};
ghost use Rattle.isle_target.specs.StatementSpelling.{log_tokens};
ghost use Rattle.isle_target.specs.StatementSpelling.{tail_tokens, stmt_tokens, body_tokens};

use crate::expr::print_expr;
use crate::operand::{print_operand, print_read};
use crate::pattern::print_pattern;
use crate::several::{
    print_extend, print_let_list, print_loop_head, print_overflow, print_split_end,
    print_split_head,
};
use isle_core::Text;
use isle_printer::Printer;
use isle_tree::{Operand, Read, Stmt, TExpr, TPat};
use std::alloc::AllocError;

/// What a run says that no rule matched in.
const NO_RULE: &str = "unreachable!(\"no rule matched for term {} at {}; should it be partial?\", ";

// Prints `let vN = EXPR;`.
#[tactic(auto, unfolding(isle_printer::specs::Token::step, isle_printer::specs::Token::begun))]
fn print_let(out: &mut Printer, n: usize, e: &TExpr) -> Result<(), AllocError>
    requires { IsExpr e.now }
    ensures { OnOk result (out.new ≡ out.old ++ let_tokens n e.now) }
{
    out.piece("let ")?;
    out.numbered("v", n)?;
    out.piece(" = ")?;
    print_expr(out, e)?;
    out.mark(";")
}

// Prints `return EXPR;`.
#[tactic(auto, unfolding(isle_printer::specs::Token::step, isle_printer::specs::Token::begun))]
fn print_return(out: &mut Printer, e: &TExpr) -> Result<(), AllocError>
    requires { IsExpr e.now }
    ensures { OnOk result (out.new ≡ out.old ++ return_tokens e.now) }
{
    out.piece("return ")?;
    print_expr(out, e)?;
    out.mark(";")
}

// Prints `if OP == OP {`.
#[tactic(auto, unfolding(isle_printer::specs::Token::step, isle_printer::specs::Token::begun))]
fn print_if_eq(out: &mut Printer, a: &Operand, b: &Operand) -> Result<(), AllocError>
    requires a { IsOperand a.now }
    requires b { IsOperand b.now }
    ensures { OnOk result (out.new ≡ out.old ++ if_eq_head a.now b.now) }
{
    out.piece("if ")?;
    print_operand(out, a)?;
    out.piece(" == ")?;
    print_operand(out, b)?;
    out.piece(" {")
}

// Prints `if let PAT = READ {`.
#[tactic(auto, unfolding(isle_printer::specs::Token::step, isle_printer::specs::Token::begun))]
fn print_if_let(out: &mut Printer, pat: &TPat, read: &Read) -> Result<(), AllocError>
    requires pat { IsPattern pat.now }
    requires read { IsRead read.now }
    ensures { OnOk result (out.new ≡ out.old ++ if_let_head pat.now read.now) }
{
    out.piece("if let ")?;
    print_pattern(out, pat)?;
    out.piece(" = ")?;
    print_read(out, read)?;
    out.piece(" {")
}

// Prints `match READ {`.
#[tactic(auto, unfolding(isle_printer::specs::Token::step, isle_printer::specs::Token::begun))]
fn print_match(out: &mut Printer, read: &Read) -> Result<(), AllocError>
    requires { IsRead read.now }
    ensures { OnOk result (out.new ≡ out.old ++ match_head read.now) }
{
    out.piece("match ")?;
    print_read(out, read)?;
    out.piece(" {")
}

// Prints `PAT => {`.
#[tactic(auto, unfolding(isle_printer::specs::Token::step, isle_printer::specs::Token::begun))]
fn print_arm_head(out: &mut Printer, pat: &TPat) -> Result<(), AllocError>
    requires { IsPattern pat.now }
    ensures { OnOk result (out.new ≡ out.old ++ arm_head pat.now) }
{
    print_pattern(out, pat)?;
    out.piece(" => {")
}

/// Prints what closes a block, on a line one level less far in. What is printed after an error is left open.
pub fn print_close(out: &mut Printer) -> Result<(), AllocError>
    ensures { OnOk result (out.new ≡ out.old ++ close) }
{
    out.dedent();
    out.line()?;
    out.mark("}")
}

// Prints the arm for all else on a line, and what closes a match on another.
#[tactic(auto, unfolding(isle_printer::specs::Token::step, isle_printer::specs::Token::begun))]
fn print_match_end(out: &mut Printer) -> Result<(), AllocError>
    ensures { OnOk result (out.new ≡ out.old ++ match_end) }
{
    out.line()?;
    out.piece("_ => {}")?;
    print_close(out)
}

// Prints what is said if no rule matches, up to the term.
#[tactic(auto, unfolding(crate::specs::StatementSpelling::no_rule, isle_printer::specs::Token::step, isle_printer::specs::Token::begun))]
fn print_no_rule(out: &mut Printer) -> Result<(), AllocError>
    ensures { OnOk result
        (out.new ≡ out.old ++ (unreachable_head ++ Quoted no_rule ∷ Mark (codes ",") ∷ [])) }
{
    out.piece(NO_RULE)
}

// Prints `, `.
#[tactic(auto, unfolding(isle_printer::specs::Token::step, isle_printer::specs::Token::begun))]
fn print_comma(out: &mut Printer) -> Result<(), AllocError>
    ensures { OnOk result (out.new ≡ out.old ++ Mark (codes ",") ∷ []) }
{
    out.piece(", ")
}

// Prints a term and its place, and the end of the call.
fn print_texts(out: &mut Printer, term: &str, place: &str) -> Result<(), AllocError>
    ensures { OnOk result
        (out.new ≡ out.old ++ Quoted term.now ∷ Mark (codes ",") ∷ Quoted place.now
        ∷ Mark (codes ")") ∷ []) }
{
    out.quoted(term)?;
    print_comma(out)?;
    out.quoted(place)?;
    out.mark(")")
}

// Prints what a log line says of a rule, up to the term.
#[tactic(auto, unfolding(crate::specs::StatementSpelling::log_format, isle_printer::specs::Token::step, isle_printer::specs::Token::begun))]
fn print_log_head(out: &mut Printer) -> Result<(), AllocError>
    ensures { OnOk result (out.new ≡ out.old ++ log_head) }
{
    out.piece("log::debug!(\"ISLE {} {}\", ")
}

// Prints a log line of a rule.
#[tactic(auto, unfolding(crate::specs::StatementSpelling::log_tokens))]
fn print_log(out: &mut Printer, term: &str, place: &str) -> Result<(), AllocError>
    ensures { OnOk result (out.new ≡ out.old ++ log_tokens term.now place.now) }
{
    print_log_head(out)?;
    print_texts(out, term, place)?;
    out.mark(";")
}

// Prints what a function gives after its last rule.
fn print_tail(out: &mut Printer, texts: &Option<(Text, Text)>) -> Result<(), AllocError>
    ensures { OnOk result (out.new ≡ out.old ++ tail_tokens texts.now) }
{
    match texts {
        None => out.word("None"),
        Some(texts) => {
            print_no_rule(out)?;
            print_texts(out, texts.0.as_str(), texts.1.as_str())
        }
    }
}

// Prints an arm of a match, which begins on a line of its own.
#[cycle(statements)]
fn print_arm(out: &mut Printer, pat: &TPat, inside: &[Stmt]) -> Result<(), AllocError>
    requires pat { IsPattern pat.now }
    requires inside { IsBody (body inside.now) }
    ensures { OnOk result
        (out.new ≡ out.old ++ (arm_head pat.now ++ (body_tokens (body inside.now) ++ close))) }
{
    out.line()?;
    print_arm_head(out, pat)?;
    print_body(out, inside)?;
    print_close(out)
}

// Prints a statement.
#[cycle(statements)]
#[tactic(auto, using(isle_tree::proofs::Sees::sees))]
fn print_stmt(out: &mut Printer, s: &Stmt) -> Result<(), AllocError>
    requires { IsStmt (stmt s.now) }
    ensures { OnOk result (out.new ≡ out.old ++ stmt_tokens (stmt s.now)) }
{
    match s {
        Stmt::Let(n, e) => print_let(out, *n, e),
        Stmt::IfEq(a, b, inside) => {
            print_if_eq(out, a, b)?;
            print_body(out, inside.as_slice())?;
            print_close(out)
        }
        Stmt::IfLet(pat, read, inside) => {
            print_if_let(out, pat, read)?;
            print_body(out, inside.as_slice())?;
            print_close(out)
        }
        Stmt::Match(read, given) => {
            print_match(out, read)?;
            out.indent();
            for arm in given.as_slice() {
                print_arm(out, &arm.0, arm.1.as_slice())?;
            }
            print_match_end(out)
        }
        Stmt::Return(e) => print_return(out, e),
        Stmt::Tail(texts) => print_tail(out, texts),
        Stmt::LetList { local, call } => print_let_list(out, *local, call),
        Stmt::Loop {
            list,
            item,
            body: inside,
        } => {
            print_loop_head(out, *list, *item)?;
            print_body(out, inside.as_slice())?;
            print_close(out)
        }
        Stmt::Extend(read) => print_extend(out, read),
        Stmt::Overflow { inside, limit } => print_overflow(out, *inside, *limit),
        Stmt::Log { term, place } => print_log(out, term.as_str(), place.as_str()),
        Stmt::Split {
            body: split,
            inside,
        } => {
            print_split_head(out)?;
            print_body(out, split.as_slice())?;
            print_split_end(out, *inside)
        }
    }
}

/// Prints statements, each on a line one level further in; later lines begin as far in, up to `print_close`. What is
/// printed after an error is left open.
#[cycle(statements)]
pub fn print_body(out: &mut Printer, stmts: &[Stmt]) -> Result<(), AllocError>
    requires { IsBody (body stmts.now) }
    ensures { OnOk result (out.new ≡ out.old ++ body_tokens (body stmts.now)) }
{
    out.indent();
    for s in stmts {
        out.line()?;
        print_stmt(out, s)?;
    }
    Ok(())
}
