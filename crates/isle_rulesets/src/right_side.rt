ghost use Rattle.std.specs.Prelude.{◌≡◌, Some, ◌∷◌, ◌++◌, [], if◌then◌else◌, IfOk, OnOk, IsSomeAnd, map};
ghost use Rattle.std.specs.Prelude.{slice_get, Contains};
ghost use Rattle.std.specs.List.{AllByRecursion};
ghost use Rattle.isle_core.specs.declared.types.Term.{Term as CodeTerm};
ghost use Rattle.isle_core.specs.RuleViews.{expr as seen, exprs_of, bindings_of};
ghost use Rattle.isle_core.specs.BuiltRule.{IsBuiltKind, HasBuiltTerms, AllHaveBuiltTerms, BindingsHaveBuiltTerms};
ghost use Rattle.isle_core.specs.Making.{MakesNothing, making_in};
ghost use Rattle.isle_core.specs.Calling.{kind_of, calling};
ghost use Rattle.isle_core.specs.Path.{at, at_all, paths_of};
ghost use Rattle.isle_core.specs.RightSide.{call_path};
ghost use Rattle.isle_core.specs.Rule.{Environment};
ghost use Rattle.isle_core.specs.Scope.{let_scope, IsInScope, AreInScope, AreLetsInScope};
ghost use Rattle.isle_scope.specs.Table.{held};
ghost use Rattle.isle_rulesets.specs.Keys.{IsThere};
ghost use Rattle.isle_rulesets.specs.RightSides.{is_pure, pure_counts, names, bound, AreThere, NumbersTerm};
ghost use Rattle.isle_rulesets.specs.RightSides.{Given, AllGiven, Binds};

use crate::keys::Key;
use crate::made::made_by;
use crate::numbering::{Call, Numbering};
use crate::parts::Parts;
use isle_core::{
    BindingId, Expr, LetBinding, List, ReturnKind, Term, TermId, TermKind, VarId, kind_of,
};
use isle_scope::Table;
use std::alloc::{AllocError, Global};

// Whether equal calls of the term are one.
fn is_pure(kind: &TermKind) -> bool
    ensures { result ≡ is_pure kind.now }
{
    match kind {
        TermKind::Variant { .. } | TermKind::Struct { .. } => false,
        TermKind::Decl { pure, .. } => *pure,
    }
}

// The number that a variable in scope stands for.
fn number_of(variables: &Table<BindingId>, var: VarId) -> BindingId
    requires { Contains (names variables.now) var.0 }
    ensures { held variables.now var.0 ≡ Some result }
{
    match variables.get(var.index()) {
        Some(number) => *number,
        None => unreachable!(),
    }
}

// The number of a call's value; the call joins those before if its place counts.
fn ordered_call(
    ordered: &mut Vec<BindingId>,
    call: Call,
    counts: bool,
) -> Result<BindingId, AllocError>
    ensures value { IfOk result (λ b. b ≡ call.value) }
    ensures joins { OnOk result
        (ordered.new.items ≡ ordered.old.items ++ (if counts then call.number ∷ [] else [])) }
{
    if counts {
        ordered.push(call.number)?;
    }
    Ok(call.value)
}

// Whether the place of a pure call counts: of one that may be nothing, and of a list that holds an impure call.
fn counts(numbering: &Numbering, kind: ReturnKind, call: BindingId) -> bool
    ensures { result ≡ pure_counts kind (at (paths_of numbering.now.bindings) call) }
{
    match kind {
        ReturnKind::Plain => false,
        ReturnKind::Option => true,
        ReturnKind::Iterator => numbering.has_turn(call),
    }
}

// The number of the value of a call on numbered arguments. An impure one is new, and equal pure ones are one: of these
// only those whose place counts join the calls before.
fn number_call(
    alloc: Global,
    terms: &[Term],
    numbering: &mut Numbering,
    ordered: &mut Vec<BindingId>,
    term: TermId,
    parameters: Vec<BindingId>,
) -> Result<BindingId, AllocError>
    requires kind { IsSomeAnd (slice_get terms.now term.0) (λ (t : CodeTerm). IsBuiltKind t.kind) }
    requires called { making_in terms.now term ≡ MakesNothing }
    requires there { AllByRecursion (IsThere (paths_of numbering.old.bindings)) parameters.items }
    ensures { IfOk result (λ b. (env : Environment) → env.terms ≡ terms.now
        → NumbersTerm numbering.old numbering.new ordered.old.items ordered.new.items
        (calling env term)
        (call_path env term (at_all (paths_of numbering.old.bindings) parameters.items)
        numbering.old.calls) b) }
{
    let kind = &terms[term.index()].kind;
    let often = kind_of(kind);
    if is_pure(kind) {
        let call = numbering.pure_call(alloc, term, Parts::new(parameters), often)?;
        return ordered_call(ordered, call, counts(numbering, often, call.number));
    }
    let call = numbering.call(alloc, term, List::new(parameters), often)?;
    ordered_call(ordered, call, true)
}

// The number of the value of a term on numbered arguments: what it makes, or its call.
fn number_term(
    alloc: Global,
    terms: &[Term],
    numbering: &mut Numbering,
    ordered: &mut Vec<BindingId>,
    term: TermId,
    arguments: Vec<BindingId>,
) -> Result<BindingId, AllocError>
    requires kind { IsSomeAnd (slice_get terms.now term.0) (λ (t : CodeTerm). IsBuiltKind t.kind) }
    requires there { AllByRecursion (IsThere (paths_of numbering.old.bindings)) arguments.items }
    ensures { IfOk result (λ b. (env : Environment) → env.terms ≡ terms.now
        → NumbersTerm numbering.old numbering.new ordered.old.items ordered.new.items
        (calling env term)
        (call_path env term (at_all (paths_of numbering.old.bindings) arguments.items)
        numbering.old.calls) b) }
{
    match made_by(terms, term) {
        Some(made) => numbering.intern(alloc, made.whole(Parts::new(arguments))),
        None => number_call(alloc, terms, numbering, ordered, term, arguments),
    }
}

/// Numbers an expression, and returns the number of its value; its calls join those before, each after its arguments.
/// The variables of a `let` are bound for as long as they count. The only error is want of memory.
#[cycle(right_side)]
pub fn number_expr(
    alloc: Global,
    terms: &[Term],
    scope: &mut Table<BindingId>,
    numbering: &mut Numbering,
    ordered: &mut Vec<BindingId>,
    expr: &Expr,
) -> Result<BindingId, AllocError>
    requires known { IsInScope (names scope.old) (seen expr.now) }
    requires terms { HasBuiltTerms terms.now (seen expr.now) }
    requires there { AreThere (paths_of numbering.old.bindings) scope.old }
    ensures kept { OnOk result (scope.new ≡ scope.old) }
    ensures numbers { IfOk result
        (Given terms.now scope.old numbering.old numbering.new ordered.old.items ordered.new.items
        (seen expr.now)) }
{
    match expr {
        Expr::Var(_, var) => Ok(number_of(scope, *var)),
        Expr::ConstBool(val) => numbering.intern(alloc, Key::ConstBool(*val)),
        Expr::ConstInt(ty, val) => numbering.intern(alloc, Key::ConstInt(*ty, *val)),
        Expr::ConstPrim(_, val) => numbering.intern(alloc, Key::ConstPrim(*val)),
        Expr::Term(_, term, args) => {
            let arguments = number_exprs(alloc, terms, scope, numbering, ordered, args.as_slice())?;
            number_term(alloc, terms, numbering, ordered, *term, arguments)
        }
        Expr::Let(_, bindings, inner) => {
            let outside = scope.len();
            number_lets(alloc, terms, scope, numbering, ordered, bindings.as_slice())?;
            let value = number_expr(alloc, terms, scope, numbering, ordered, inner.get())?;
            scope.truncate(outside);
            Ok(value)
        }
    }
}

// The numbers of the values of expressions, from left to right.
#[cycle(right_side)]
fn number_exprs(
    alloc: Global,
    terms: &[Term],
    scope: &mut Table<BindingId>,
    numbering: &mut Numbering,
    ordered: &mut Vec<BindingId>,
    exprs: &[Expr],
) -> Result<Vec<BindingId>, AllocError>
    requires known { AreInScope (names scope.old) (exprs_of (map seen exprs.now)) }
    requires terms { AllHaveBuiltTerms terms.now (exprs_of (map seen exprs.now)) }
    requires there { AreThere (paths_of numbering.old.bindings) scope.old }
    ensures kept { OnOk result (scope.new ≡ scope.old) }
    ensures numbers { IfOk result (λ bs.
        AllGiven terms.now scope.old numbering.old numbering.new ordered.old.items ordered.new.items
        (exprs_of (map seen exprs.now)) bs.items) }
{
    let mut numbers = Vec::new(alloc);
    for expr in exprs {
        numbers.push(number_expr(alloc, terms, scope, numbering, ordered, expr)?)?;
    }
    Ok(numbers)
}

// The number of the value of a variable of a `let`.
#[cycle(right_side)]
fn number_value(
    alloc: Global,
    terms: &[Term],
    scope: &mut Table<BindingId>,
    numbering: &mut Numbering,
    ordered: &mut Vec<BindingId>,
    binding: &LetBinding,
) -> Result<BindingId, AllocError>
    requires known { IsInScope (names scope.old) (seen binding.now.val) }
    requires terms { HasBuiltTerms terms.now (seen binding.now.val) }
    requires there { AreThere (paths_of numbering.old.bindings) scope.old }
    ensures kept { OnOk result (scope.new ≡ scope.old) }
    ensures numbers { IfOk result
        (Given terms.now scope.old numbering.old numbering.new ordered.old.items ordered.new.items
        (seen binding.now.val)) }
{
    number_expr(alloc, terms, scope, numbering, ordered, &binding.val)
}

// The variables of a `let` are bound after those before, each to the number of its value.
#[cycle(right_side)]
fn number_lets(
    alloc: Global,
    terms: &[Term],
    scope: &mut Table<BindingId>,
    numbering: &mut Numbering,
    ordered: &mut Vec<BindingId>,
    bindings: &[LetBinding],
) -> Result<(), AllocError>
    requires known { AreLetsInScope (names scope.old) (bindings_of (map bound bindings.now)) }
    requires terms { BindingsHaveBuiltTerms terms.now (bindings_of (map bound bindings.now)) }
    requires there { AreThere (paths_of numbering.old.bindings) scope.old }
    ensures known { OnOk result
        (names scope.new ≡ let_scope (names scope.old) (bindings_of (map bound bindings.now))) }
    ensures there { OnOk result (AreThere (paths_of numbering.new.bindings) scope.new) }
    ensures binds { OnOk result
        (Binds terms.now scope.old scope.new numbering.old numbering.new ordered.old.items
        ordered.new.items (bindings_of (map bound bindings.now))) }
{
    for binding in bindings {
        let value = number_value(alloc, terms, scope, numbering, ordered, binding)?;
        scope.bind(binding.var.index(), value)?;
    }
    Ok(())
}
