//! Expressions with types in them, their variables and terms as numbers.

ghost use Rattle.std.specs.Prelude.{◌≡◌, List, Option, IfOk, map, option_map};
ghost use Rattle.isle_ast.specs.Tree as tree;
ghost use Rattle.isle_ast.specs.Views.{expr, exprs_of, lets_of};
ghost use Rattle.isle_core.specs.RuleViews.{expr as elaborated};
ghost use Rattle.isle_declarations.specs.Bindings.{binding};
ghost use Rattle.isle_declarations.specs.Signatures.{Signature};
ghost use Rattle.isle_terms.specs.Whole.{Whole, ret_type, number_of};
ghost use Rattle.isle_terms.specs.Whole.{whole};
ghost use Rattle.isle_sema.specs.Known.{MayBeCalled};
ghost use Rattle.isle_terms.specs.Scope.{Local};
ghost use Rattle.isle_sema.specs.ExprPass.{integer_tree, constant_tree, local_tree, call_tree, expr_within};
ghost use Rattle.isle_sema.specs.ExprPass.{expr_type, binding_tree, let_tree};
ghost use Rattle.isle_sema.specs.ElaboratedAt.{expr_trees, seen_binding, binding_trees, IsExprAt, AreExprsAt};
ghost use Rattle.isle_sema.specs.ElaboratedAt.{IsBindingAt, AreBindingsAt};

use crate::judging::Judging;
use crate::known::{Called, Known, argument_types, result_type, within};
use isle_ast::{AstExpr, AstLet};
use isle_core::{Boxed, Expr, LetBinding, List, Name, TypeEnv, TypeId, VarId};
use isle_terms::{Locals, Thing, type_named, typed_integer};
use std::alloc::{AllocError, Global};

// An integer where this type is expected.
#[tactic(auto, using(isle_core::proofs::SeesRules::sees))]
fn integer_at(types: &TypeEnv, expected: Option<TypeId>, n: i128) -> Option<Expr>
    ensures { option_map elaborated result ≡ integer_tree types.now expected n }
{
    let (ty, reduced) = typed_integer(types, expected, n)?;
    Some(Expr::ConstInt(ty, reduced))
}

// A constant of this type, if it is declared.
#[tactic(auto, using(isle_core::proofs::SeesRules::sees))]
fn constant_at(known: &Known, found: Option<TypeId>, name: &Name) -> Option<Expr>
    ensures { option_map elaborated result ≡ constant_tree (whole known.now).types found name.now }
{
    let ty = found?;
    Some(Expr::ConstPrim(ty, known.sym(name)))
}

// A call of a term on these expressions, if all are there.
#[tactic(auto, using(isle_core::proofs::SeesRules::sees))]
fn call_of(callee: &Option<Called>, args: Option<Vec<Expr>>) -> Option<Expr>
    ensures { (w : Whole) (s : Option Signature) → MayBeCalled w s callee.now
        → option_map elaborated result
        ≡ call_tree (ret_type w s) (number_of w s) (expr_trees args) }
{
    let args = args?;
    match callee {
        Some(callee) => Some(Expr::Term(callee.ret, callee.term, List::new(args))),
        None => None,
    }
}

// An expression within a converter, if there is one.
fn converted(
    alloc: Global,
    converter: &Option<Called>,
    found: Option<Expr>,
) -> Result<Option<Expr>, AllocError>
    ensures { (w : Whole) (s : Option Signature) → MayBeCalled w s converter.now
        → IfOk result
        (λ e. option_map elaborated e ≡ expr_within w s (option_map elaborated found)) }
{
    if converter.is_none() {
        return Ok(found);
    }
    let Some(inner) = found else {
        return Ok(None);
    };
    let mut args = Vec::new(alloc);
    args.push(inner)?;
    Ok(call_of(converter, Some(args)))
}

// A variable, if it is bound at a type that is known.
#[tactic(auto, using(isle_core::proofs::SeesRules::sees))]
fn variable_of(found: Option<(Option<TypeId>, usize)>) -> Option<Expr>
    ensures { (l : Option Local) → found ≡ option_map (λ v. (v.ty, v.number)) l
        → option_map elaborated result ≡ local_tree l }
{
    let (ty, number) = found?;
    Some(Expr::Var(ty?, VarId(number)))
}

// A variable where this type is expected.
fn variable_at<'b, 'd>(
    alloc: Global,
    known: &Known,
    vars: &Locals,
    judged: &mut Judging<'_, 'b, 'd>,
    expected: Option<TypeId>,
    name: &'b Name<'d>,
) -> Result<Option<Expr>, AllocError>
    ensures { IfOk result (λ found.
        IsExprAt (whole known.now) expected (tree.Name name.now) vars.now vars.now judged.old.rows
        judged.new.rows found) }
{
    let found = vars.find(name);
    let bound = match found {
        Some((ty, _)) => Some(ty),
        None => None,
    };
    let of = bound.flatten();
    let converter = known.conversion(of, expected);
    judged.called_by(expected, &converter, of);
    judged.used(within(&converter, of, expected), bound, name);
    converted(alloc, &converter, variable_of(found))
}

// A constant where this type is expected.
fn named_at<'b, 'd>(
    alloc: Global,
    known: &Known,
    vars: &Locals,
    judged: &mut Judging<'_, 'b, 'd>,
    expected: Option<TypeId>,
    name: &'b Name<'d>,
) -> Result<Option<Expr>, AllocError>
    ensures { IfOk result (λ found.
        IsExprAt (whole known.now) expected (tree.Constant name.now) vars.now vars.now
        judged.old.rows judged.new.rows found) }
{
    let of = known.constant(name);
    let converter = known.conversion(of, expected);
    judged.called_by(expected, &converter, of);
    judged.constant(false, within(&converter, of, expected), of, name);
    converted(alloc, &converter, constant_at(known, of, name))
}

/// Returns the type of an expression.
#[tactic(auto, using(isle_core::proofs::SeesRules::sees))]
fn type_of(e: &Expr) -> TypeId
    ensures { result ≡ expr_type (elaborated e.now) }
{
    match e {
        Expr::Term(ty, ..)
        | Expr::Var(ty, _)
        | Expr::ConstInt(ty, _)
        | Expr::ConstPrim(ty, _)
        | Expr::Let(ty, ..) => *ty,
        Expr::ConstBool(_) => TypeId(0),
    }
}

// A `let` of these variables, if all are there.
fn let_of(
    alloc: Global,
    bindings: Option<Vec<LetBinding>>,
    inner: Option<Expr>,
) -> Result<Option<Expr>, AllocError>
    ensures { IfOk result (λ found.
        option_map elaborated found
        ≡ let_tree (binding_trees bindings) (option_map elaborated inner)) }
{
    let Some(bindings) = bindings else {
        return Ok(None);
    };
    let Some(inner) = inner else {
        return Ok(None);
    };
    let ty = type_of(&inner);
    let inner = Boxed::new(alloc, inner)?;
    Ok(Some(Expr::Let(ty, List::new(bindings), inner)))
}

// A variable of this number with its value, if its type is declared.
fn binding_of(number: usize, ty: Option<TypeId>, found: Option<Expr>) -> Option<LetBinding>
    ensures { option_map seen_binding result
        ≡ binding_tree number ty (option_map elaborated found) }
{
    let ty = ty?;
    let val = found?;
    Some(LetBinding {
        var: VarId(number),
        ty,
        val,
    })
}

/// Elaborates an expression where this type is expected: gives its tree, if its types are known
/// (`specs/ExprPass.antt`).
#[cycle(exprs)]
#[tactic(auto, using(isle_ast::proofs::Sees::expr_sees, isle_core::proofs::SeesRules::sees))]
pub fn expr_at<'b, 'd>(
    alloc: Global,
    known: &Known,
    vars: &mut Locals<'_, 'b, 'd>,
    judged: &mut Judging<'_, 'b, 'd>,
    expected: Option<TypeId>,
    e: &'b AstExpr<'d>,
) -> Result<Option<Expr>, AllocError>
    ensures { IfOk result (λ found.
        IsExprAt (whole known.now) expected (expr e.now) vars.old vars.new judged.old.rows
        judged.new.rows found) }
{
    match e {
        AstExpr::Int(n) => {
            judged.integer(known.types(), expected, n);
            Ok(integer_at(known.types(), expected, *n))
        }
        AstExpr::Bool(b) => {
            judged.truth(known.types(), expected, *b);
            Ok(Some(Expr::ConstBool(*b)))
        }
        AstExpr::Var(name) => variable_at(alloc, known, vars, judged, expected, name),
        AstExpr::Term(name, args) => call_at(
            alloc,
            known,
            vars,
            judged,
            expected,
            name,
            args.as_slice(),
        ),
        AstExpr::Const(name) => named_at(alloc, known, vars, judged, expected, name),
        AstExpr::Let(lets, inner) => {
            let outer = vars.len();
            let bindings = lets_at(alloc, known, vars, judged, lets.as_slice())?;
            let found = expr_at(alloc, known, vars, judged, expected, inner.get())?;
            vars.truncate(outer);
            let_of(alloc, bindings, found)
        }
    }
}

// A call where this type is expected.
#[cycle(exprs)]
fn call_at<'b, 'd>(
    alloc: Global,
    known: &Known,
    vars: &mut Locals<'_, 'b, 'd>,
    judged: &mut Judging<'_, 'b, 'd>,
    expected: Option<TypeId>,
    name: &'b Name<'d>,
    args: &'b [AstExpr<'d>],
) -> Result<Option<Expr>, AllocError>
    ensures { IfOk result (λ found.
        IsExprAt (whole known.now) expected (tree.Call name.now (exprs_of (map expr args.now)))
        vars.old vars.new judged.old.rows judged.new.rows found) }
{
    let callee = known.called(name);
    let of = result_type(&callee);
    let converter = known.conversion(of, expected);
    judged.called_by(expected, &converter, of);
    judged.called(
        within(&converter, of, expected),
        &callee,
        args.len(),
        Thing::Term(name),
    );
    let typed = exprs_at(alloc, known, vars, judged, argument_types(&callee), args)?;
    converted(alloc, &converter, call_of(&callee, typed))
}

// Expressions where these types are expected, beyond them none: their trees, if all have one.
#[cycle(exprs)]
fn exprs_at<'b, 'd>(
    alloc: Global,
    known: &Known,
    vars: &mut Locals<'_, 'b, 'd>,
    judged: &mut Judging<'_, 'b, 'd>,
    types: &[TypeId],
    es: &'b [AstExpr<'d>],
) -> Result<Option<Vec<Expr>>, AllocError>
    ensures { IfOk result (λ found.
        AreExprsAt (whole known.now) types.now (exprs_of (map expr es.now)) vars.old vars.new
        judged.old.rows judged.new.rows found) }
{
    let mut typed = Vec::with_capacity(alloc, es.len())?;
    let mut complete = true;
    for (index, e) in es.iter().enumerate() {
        match expr_at(alloc, known, vars, judged, types.get(index).copied(), e)? {
            Some(found) => typed.push(found)?,
            None => complete = false,
        }
    }
    Ok(if complete { Some(typed) } else { None })
}

// The variables of a `let`, each with its value: their trees, if all have one.
#[cycle(exprs)]
fn lets_at<'b, 'd>(
    alloc: Global,
    known: &Known,
    vars: &mut Locals<'_, 'b, 'd>,
    judged: &mut Judging<'_, 'b, 'd>,
    lets: &'b [AstLet<'d>],
) -> Result<Option<Vec<LetBinding>>, AllocError>
    ensures { IfOk result (λ found.
        AreBindingsAt (whole known.now) (lets_of (map binding lets.now)) vars.old vars.new
        judged.old.rows judged.new.rows found) }
{
    let mut typed = Vec::with_capacity(alloc, lets.len())?;
    let mut complete = true;
    for l in lets {
        match binding_at(alloc, known, vars, judged, l)? {
            Some(found) => typed.push(found)?,
            None => complete = false,
        }
    }
    Ok(if complete { Some(typed) } else { None })
}

// A variable of a `let` with its value.
#[cycle(exprs)]
fn binding_at<'b, 'd>(
    alloc: Global,
    known: &Known,
    vars: &mut Locals<'_, 'b, 'd>,
    judged: &mut Judging<'_, 'b, 'd>,
    l: &'b AstLet<'d>,
) -> Result<Option<LetBinding>, AllocError>
    ensures { IfOk result (λ found.
        IsBindingAt (whole known.now) l.now.var l.now.ty (expr l.now.val) vars.old vars.new
        judged.old.rows judged.new.rows found) }
{
    let ty = type_named(known.before, &l.ty);
    judged.bound(ty, &l.ty);
    let number = vars.number()?;
    let found = expr_at(alloc, known, vars, judged, ty, &l.val)?;
    vars.bind(&l.var, ty, number)?;
    Ok(binding_of(number, ty, found))
}
