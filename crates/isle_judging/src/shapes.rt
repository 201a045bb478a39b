//! Which operands and statements are of a form that is built, their integers lying in their types.

ghost use Rattle.std.specs.Prelude.{◌↔◌, IsTrue};
ghost use Rattle.isle_tree.specs.Views.{stmt, body, arms};
ghost use Rattle.std.specs.List.{AllByRecursion};
ghost use Rattle.isle_tree.specs.WellFormed.{IsOperand, IsRead, IsFieldRead, IsCallee, IsCall, IsExpr};
ghost use Rattle.isle_tree.specs.WellFormed.{IsPattern, HasSeveral, IsStmt, IsBody};

use crate::names::is_term_name;
use crate::patterns::is_pattern;
use isle_core::{Callee, IntType, List, Text};
use isle_spelling::{is_field_name, is_identifier, is_name};
use isle_tree::{Operand, Read, Stmt, TCall, TExpr, TPat};

/// Tells whether an operand is of a form that is built.
pub fn is_operand(o: &Operand) -> bool
    ensures { IsTrue result ↔ IsOperand o.now }
{
    match o {
        Operand::Local(_) | Operand::Arg(_) | Operand::Bool(_) => true,
        Operand::Int(ty, val) => ty.holds(*val),
        Operand::Raw(val) => IntType::U128.holds(*val),
        Operand::Name(name) => is_name(name.as_str()),
    }
}

// Whether what is read is.
fn is_read(read: &Read) -> bool
    ensures { IsTrue result ↔ IsRead read.now }
{
    match read {
        Read::Plain(o) | Read::Borrow(o) | Read::Clone(o) => is_operand(o),
    }
}

// Whether all that are read are.
fn are_reads(reads: &[Read]) -> bool
    ensures { IsTrue result ↔ AllByRecursion IsRead reads.now }
{
    for read in reads {
        if !is_read(read) {
            return false;
        }
    }
    true
}

// Whether what is called is.
fn is_callee(callee: &Callee) -> bool
    ensures { IsTrue result ↔ IsCallee callee.now }
{
    match callee {
        Callee::External(name) => is_identifier(name.as_str()),
        Callee::Internal(term) => is_term_name(term.as_str()),
    }
}

// Whether a call is.
fn is_call(call: &TCall) -> bool
    ensures { IsTrue result ↔ IsCall call.now }
{
    if !is_callee(&call.callee) {
        return false;
    }
    are_reads(call.args.as_slice())
}

// Whether a field of a made value is.
fn is_field_read(field: &(Text, Read)) -> bool
    ensures { IsTrue result ↔ IsFieldRead field.now }
{
    if !is_field_name(field.0.as_str()) {
        return false;
    }
    is_read(&field.1)
}

// Whether all are.
fn are_field_reads(fields: &[(Text, Read)]) -> bool
    ensures { IsTrue result ↔ AllByRecursion IsFieldRead fields.now }
{
    for field in fields {
        if !is_field_read(field) {
            return false;
        }
    }
    true
}

// Whether a variant may be made of the fields.
fn is_variant_made(ty: &str, variant: &str, fields: &[(Text, Read)]) -> bool
    ensures { IsTrue result ↔ IsExpr (TExpr.Variant ty.now variant.now fields.now) }
{
    if !is_identifier(ty) {
        return false;
    }
    if !is_identifier(variant) {
        return false;
    }
    are_field_reads(fields)
}

// Whether a struct may be; one without fields is a name.
fn is_struct_made(ty: &str, fields: &[(Text, Read)]) -> bool
    ensures { IsTrue result ↔ IsExpr (TExpr.Struct ty.now fields.now) }
{
    if !is_identifier(ty) {
        return false;
    }
    if fields.is_empty() {
        return false;
    }
    are_field_reads(fields)
}

// Whether what is computed is.
fn is_expr(e: &TExpr) -> bool
    ensures { IsTrue result ↔ IsExpr e.now }
{
    match e {
        TExpr::Read(read) | TExpr::Some(read) => is_read(read),
        TExpr::Call { call, .. } => is_call(call),
        TExpr::Try { source, .. } | TExpr::Tuple(source, _) => is_operand(source),
        TExpr::Variant {
            ty,
            variant,
            fields,
        } => is_variant_made(ty.as_str(), variant.as_str(), fields.as_slice()),
        TExpr::Struct { ty, fields } => is_struct_made(ty.as_str(), fields.as_slice()),
    }
}

// Whether both operands of a test are.
fn are_operands(a: &Operand, b: &Operand) -> bool
    ensures { IsTrue result ↔ (IsOperand a.now × IsOperand b.now) }
{
    if !is_operand(a) {
        return false;
    }
    is_operand(b)
}

// Whether a pattern is, and what it is held against.
fn is_held(pat: &TPat, read: &Read) -> bool
    ensures { IsTrue result ↔ (IsPattern pat.now × IsRead read.now) }
{
    if !is_pattern(pat) {
        return false;
    }
    is_read(read)
}

// Whether there are two arms or more.
fn are_several(given: &[(TPat, List<Stmt>)]) -> bool
    ensures { IsTrue result ↔ HasSeveral (arms given.now) }
{
    given.len() > 1
}

// Whether what is matched on is, with two arms or more.
fn is_matched(read: &Read, given: &[(TPat, List<Stmt>)]) -> bool
    ensures { IsTrue result ↔ (IsRead read.now × HasSeveral (arms given.now)) }
{
    if !is_read(read) {
        return false;
    }
    are_several(given)
}

// Whether a statement is.
#[cycle(shapes)]
#[tactic(auto, using(isle_tree::proofs::Sees::sees))]
fn is_stmt(s: &Stmt) -> bool
    ensures { IsTrue result ↔ IsStmt (stmt s.now) }
{
    match s {
        Stmt::Let(_, e) | Stmt::Return(e) => is_expr(e),
        Stmt::IfEq(a, b, inside) => {
            if !are_operands(a, b) {
                return false;
            }
            is_body(inside.as_slice())
        }
        Stmt::IfLet(pat, read, inside) => {
            if !is_held(pat, read) {
                return false;
            }
            is_body(inside.as_slice())
        }
        Stmt::Match(read, given) => {
            if !is_matched(read, given.as_slice()) {
                return false;
            }
            for arm in given.as_slice() {
                if !is_pattern(&arm.0) {
                    return false;
                }
                if !is_body(arm.1.as_slice()) {
                    return false;
                }
            }
            true
        }
        Stmt::LetList { call, .. } => is_call(call),
        Stmt::Loop { body: inside, .. } | Stmt::Split { body: inside, .. } => {
            is_body(inside.as_slice())
        }
        Stmt::Extend(read) => is_read(read),
        Stmt::Overflow { .. } | Stmt::Log { .. } | Stmt::Tail(_) => true,
    }
}

/// Tells whether all statements are of a form that is built.
#[cycle(shapes)]
pub fn is_body(stmts: &[Stmt]) -> bool
    ensures { IsTrue result ↔ IsBody (body stmts.now) }
{
    for s in stmts {
        if !is_stmt(s) {
            return false;
        }
    }
    true
}
