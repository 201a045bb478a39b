//! The names that stand in statements.

ghost use Rattle.std.specs.Prelude.{◌≡◌, ◌++◌, map, OnOk};
ghost use Rattle.isle_tree.specs.Views.{stmt, body, arms};
ghost use Rattle.isle_operand_names.specs.Names as names_of;

use isle_core::{List, Text};
use isle_tree::{Operand, Read, Stmt, TExpr, TPat};
use std::alloc::{AllocError, Global};

// Appends the name that an operand is.
fn push_operand<'a>(names: &mut Vec<&'a str>, operand: &'a Operand) -> Result<(), AllocError>
    ensures { OnOk result
        (map (λ x. x.now) names.new.items
        ≡ map (λ x. x.now) names.old.items ++ names_of.operand_names operand.now) }
{
    match operand {
        Operand::Name(name) => Ok(names.push(name.as_str())?),
        Operand::Local(_)
        | Operand::Arg(_)
        | Operand::Bool(_)
        | Operand::Int(..)
        | Operand::Raw(_) => Ok(()),
    }
}

// Appends the name that is read.
fn push_read<'a>(names: &mut Vec<&'a str>, read: &'a Read) -> Result<(), AllocError>
    ensures { OnOk result
        (map (λ x. x.now) names.new.items
        ≡ map (λ x. x.now) names.old.items ++ names_of.read_names read.now) }
{
    match read {
        Read::Plain(operand) | Read::Borrow(operand) | Read::Clone(operand) => {
            push_operand(names, operand)
        }
    }
}

// Appends the names that are read.
fn push_reads<'a>(names: &mut Vec<&'a str>, reads: &'a [Read]) -> Result<(), AllocError>
    ensures { OnOk result
        (map (λ x. x.now) names.new.items
        ≡ map (λ x. x.now) names.old.items ++ names_of.reads_names reads.now) }
{
    for read in reads {
        push_read(names, read)?;
    }
    Ok(())
}

// Appends the names that are read as fields.
fn push_fields<'a>(names: &mut Vec<&'a str>, fields: &'a [(Text, Read)]) -> Result<(), AllocError>
    ensures { OnOk result
        (map (λ x. x.now) names.new.items
        ≡ map (λ x. x.now) names.old.items ++ names_of.fields_names fields.now) }
{
    for field in fields {
        push_read(names, &field.1)?;
    }
    Ok(())
}

// Appends the names in what is computed.
fn push_computed<'a>(names: &mut Vec<&'a str>, computed: &'a TExpr) -> Result<(), AllocError>
    ensures { OnOk result
        (map (λ x. x.now) names.new.items
        ≡ map (λ x. x.now) names.old.items ++ names_of.expr_names computed.now) }
{
    match computed {
        TExpr::Read(read) | TExpr::Some(read) => push_read(names, read),
        TExpr::Call { call, .. } => push_reads(names, call.args.as_slice()),
        TExpr::Variant { fields, .. } | TExpr::Struct { fields, .. } => {
            push_fields(names, fields.as_slice())
        }
        TExpr::Try { source, .. } | TExpr::Tuple(source, _) => push_operand(names, source),
    }
}

// Appends the name in a pattern.
fn push_pattern<'a>(names: &mut Vec<&'a str>, pat: &'a TPat) -> Result<(), AllocError>
    ensures { OnOk result
        (map (λ x. x.now) names.new.items
        ≡ map (λ x. x.now) names.old.items ++ names_of.pattern_names pat.now) }
{
    match pat {
        TPat::Const(operand) => push_operand(names, operand),
        TPat::Variant { .. } | TPat::Struct { .. } | TPat::Some(_) => Ok(()),
    }
}

// Appends the names in the patterns of arms.
fn push_patterns<'a>(
    names: &mut Vec<&'a str>,
    given: &'a [(TPat, List<Stmt>)],
) -> Result<(), AllocError>
    ensures { OnOk result
        (map (λ x. x.now) names.new.items
        ≡ map (λ x. x.now) names.old.items ++ names_of.patterns_names (arms given.now)) }
{
    for arm in given {
        push_pattern(names, &arm.0)?;
    }
    Ok(())
}

// Appends the names in a statement.
#[cycle(naming)]
#[tactic(auto, using(isle_tree::proofs::Sees::sees))]
fn push_statement<'a>(names: &mut Vec<&'a str>, statement: &'a Stmt) -> Result<(), AllocError>
    ensures { OnOk result
        (map (λ x. x.now) names.new.items
        ≡ map (λ x. x.now) names.old.items ++ names_of.stmt_names (stmt statement.now)) }
{
    match statement {
        Stmt::Let(_, computed) | Stmt::Return(computed) => push_computed(names, computed),
        Stmt::LetList { call, .. } => push_reads(names, call.args.as_slice()),
        Stmt::IfEq(a, b, inside) => {
            push_operand(names, a)?;
            push_operand(names, b)?;
            push_names(names, inside.as_slice())
        }
        Stmt::IfLet(pat, read, inside) => {
            push_pattern(names, pat)?;
            push_read(names, read)?;
            push_names(names, inside.as_slice())
        }
        Stmt::Match(read, given) => {
            push_read(names, read)?;
            push_patterns(names, given.as_slice())?;
            for arm in given.as_slice() {
                push_names(names, arm.1.as_slice())?;
            }
            Ok(())
        }
        Stmt::Loop { body, .. } | Stmt::Split { body, .. } => push_names(names, body.as_slice()),
        Stmt::Extend(read) => push_read(names, read),
        Stmt::Overflow { .. } | Stmt::Log { .. } | Stmt::Tail(_) => Ok(()),
    }
}

/// Appends the names that stand in statements, in order. The only error is want of memory.
#[cycle(naming)]
pub fn push_names<'a>(names: &mut Vec<&'a str>, statements: &'a [Stmt]) -> Result<(), AllocError>
    ensures { OnOk result
        (map (λ x. x.now) names.new.items
        ≡ map (λ x. x.now) names.old.items ++ names_of.body_names (body statements.now)) }
{
    for statement in statements {
        push_statement(names, statement)?;
    }
    Ok(())
}
