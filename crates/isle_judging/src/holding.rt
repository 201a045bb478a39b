//! What operands hold, and what is computed from them.

ghost use Rattle.std.specs.Prelude.{◌≡◌, ◌↔◌, IsTrue, Some, []};
ghost use Rattle.isle_tree.specs.Views.{function};
ghost use Rattle.isle_tree.specs.WellFormed.{local_holds, operand_holds, read_holds, is_value, are_values};
ghost use Rattle.isle_tree.specs.WellFormed.{are_field_values, made_holds, results_item, kind_holds};
ghost use Rattle.isle_tree.specs.WellFormed.{function_head, call_holds, head_holds, callee_holds};
ghost use Rattle.isle_tree.specs.WellFormed.{inner_holds, once_holds, list_holds, each_holds, called_holds};
ghost use Rattle.isle_tree.specs.WellFormed.{part_holds, expr_holds};

use isle_core::{Callee, ReturnKind, Text};
use isle_scope::Table;
use isle_tree::{Callables, Function, Holds, Item, Operand, Read, TCall, TExpr, TraitFn};

/// Returns what a local holds.
pub fn local_holds(bound: &Table<Holds>, n: usize) -> Option<Holds>
    ensures { result ≡ local_holds bound.now n }
{
    bound.get(n).copied()
}

// What an operand holds, if it is there.
fn operand_holds(bound: &Table<Holds>, params: usize, o: &Operand) -> Option<Holds>
    ensures { result ≡ operand_holds params bound.now o.now }
{
    match o {
        Operand::Local(n) => local_holds(bound, *n),
        Operand::Arg(n) => {
            if *n < params {
                Some(Holds::One(Item::Value))
            } else {
                None
            }
        }
        Operand::Bool(_) | Operand::Int(..) | Operand::Raw(_) | Operand::Name(_) => {
            Some(Holds::One(Item::Value))
        }
    }
}

/// Returns what is read holds.
pub fn read_holds(bound: &Table<Holds>, params: usize, read: &Read) -> Option<Holds>
    ensures { result ≡ read_holds params bound.now read.now }
{
    match read {
        Read::Plain(o) | Read::Borrow(o) | Read::Clone(o) => operand_holds(bound, params, o),
    }
}

/// Tells whether it is a value, and no tuple, option or list.
pub fn is_value(holds: Option<Holds>) -> bool
    ensures { result ≡ is_value holds }
{
    match holds {
        Some(Holds::One(Item::Value)) => true,
        Some(Holds::One(Item::Tuple(_)) | Holds::Optional(_) | Holds::Several(_)) | None => false,
    }
}

/// Tells whether both operands hold a value.
pub fn are_both_values(bound: &Table<Holds>, params: usize, a: &Operand, b: &Operand) -> bool
    ensures { IsTrue result
        ↔ (IsTrue (is_value (operand_holds params bound.now a.now))
        × IsTrue (is_value (operand_holds params bound.now b.now))) }
{
    is_value(operand_holds(bound, params, a)) && is_value(operand_holds(bound, params, b))
}

// Whether each read is of a value.
fn are_values(bound: &Table<Holds>, params: usize, reads: &[Read]) -> bool
    ensures { result ≡ are_values params bound.now reads.now }
{
    for read in reads {
        if !is_value(read_holds(bound, params, read)) {
            return false;
        }
    }
    true
}

// What an answer has: a value if there is one result, else a tuple.
fn results_item(results: &[Text]) -> Item
    ensures { result ≡ results_item results.now }
{
    match results {
        [_] => Item::Value,
        [] | [_, _, ..] => Item::Tuple(results.len()),
    }
}

// What an answer holds.
fn kind_holds(kind: ReturnKind, item: Item) -> Holds
    ensures { result ≡ kind_holds kind item }
{
    match kind {
        ReturnKind::Plain => Holds::One(item),
        ReturnKind::Option => Holds::Optional(item),
        ReturnKind::Iterator => Holds::Several(item),
    }
}

// What the answer of a function of the trait holds that is called with so many arguments.
fn call_holds(f: &TraitFn, count: usize) -> Option<Holds>
    ensures { result ≡ call_holds (Some f.now) count }
{
    if f.params.as_slice().len() == count {
        Some(kind_holds(f.kind, results_item(f.results.as_slice())))
    } else {
        None
    }
}

// What the answer of a term's function holds that is called with so many arguments.
fn head_holds(f: &Function, count: usize) -> Option<Holds>
    ensures { result ≡ head_holds (Some (function_head (function f.now))) count }
{
    if f.params.as_slice().len() == count {
        Some(kind_holds(f.kind, Item::Value))
    } else {
        None
    }
}

// What the answer of what is called holds.
fn callee_holds(callees: &Callables, callee: &Callee, count: usize) -> Option<Holds>
    ensures { result ≡ callee_holds callees.now callee.now count }
{
    match callee {
        Callee::External(name) => match callees.named(name.as_str()) {
            Some(f) => call_holds(f, count),
            None => None,
        },
        Callee::Internal(term) => match callees.head(term.as_str()) {
            Some(f) => head_holds(f, count),
            None => None,
        },
    }
}

/// Returns what the answer of a call holds, if its arguments are values.
pub fn called_holds(
    callees: &Callables,
    bound: &Table<Holds>,
    params: usize,
    call: &TCall,
) -> Option<Holds>
    ensures { result ≡ called_holds callees.now params bound.now call.now }
{
    let args = call.args.as_slice();
    if !are_values(bound, params, args) {
        return None;
    }
    callee_holds(callees, &call.callee, args.len())
}

/// Returns what an option is of.
pub fn inner_holds(holds: Option<Holds>) -> Option<Holds>
    ensures { result ≡ inner_holds holds }
{
    match holds {
        Some(Holds::Optional(item)) => Some(Holds::One(item)),
        Some(Holds::One(_) | Holds::Several(_)) | None => None,
    }
}

// What is answered once.
fn once_holds(holds: Option<Holds>) -> Option<Holds>
    ensures { result ≡ once_holds holds }
{
    match holds {
        Some(Holds::One(item)) => Some(Holds::One(item)),
        Some(Holds::Optional(item)) => Some(Holds::Optional(item)),
        Some(Holds::Several(_)) | None => None,
    }
}

/// Returns what is answered several times.
pub fn list_holds(holds: Option<Holds>) -> Option<Holds>
    ensures { result ≡ list_holds holds }
{
    match holds {
        Some(Holds::Several(item)) => Some(Holds::Several(item)),
        Some(Holds::One(_) | Holds::Optional(_)) | None => None,
    }
}

/// Returns what a list is of.
pub fn each_holds(holds: Option<Holds>) -> Option<Holds>
    ensures { result ≡ each_holds holds }
{
    match holds {
        Some(Holds::Several(item)) => Some(Holds::One(item)),
        Some(Holds::One(_) | Holds::Optional(_)) | None => None,
    }
}

// An option of what is read.
fn some_holds(bound: &Table<Holds>, params: usize, read: &Read) -> Option<Holds>
    ensures { result
        ≡ expr_holds (record { trait_fns = []; heads = [] }) params bound.now
        (TExpr.Some read.now) }
{
    if is_value(read_holds(bound, params, read)) {
        Some(Holds::Optional(Item::Value))
    } else {
        None
    }
}

// What a part of a tuple holds, if it has that part.
fn part_holds(part: usize, holds: Option<Holds>) -> Option<Holds>
    ensures { result ≡ part_holds part holds }
{
    match holds {
        Some(Holds::One(Item::Tuple(count))) if part < count => Some(Holds::One(Item::Value)),
        Some(Holds::One(_) | Holds::Optional(_) | Holds::Several(_)) | None => None,
    }
}

// Whether each field is of a value.
fn are_field_values(bound: &Table<Holds>, params: usize, fields: &[(Text, Read)]) -> bool
    ensures { result ≡ are_field_values params bound.now fields.now }
{
    for field in fields {
        if !is_value(read_holds(bound, params, &field.1)) {
            return false;
        }
    }
    true
}

// A value that is made of the fields.
fn made_holds(bound: &Table<Holds>, params: usize, fields: &[(Text, Read)]) -> Option<Holds>
    ensures { result ≡ made_holds (are_field_values params bound.now fields.now) }
{
    if are_field_values(bound, params, fields) {
        Some(Holds::One(Item::Value))
    } else {
        None
    }
}

/// Returns what is computed holds, if each operand holds what is asked of it.
pub fn expr_holds(
    callees: &Callables,
    bound: &Table<Holds>,
    params: usize,
    e: &TExpr,
) -> Option<Holds>
    ensures { result ≡ expr_holds callees.now params bound.now e.now }
{
    match e {
        TExpr::Read(read) => read_holds(bound, params, read),
        TExpr::Call { call, .. } => once_holds(called_holds(callees, bound, params, call)),
        TExpr::Some(read) => some_holds(bound, params, read),
        TExpr::Try { source, .. } => inner_holds(operand_holds(bound, params, source)),
        TExpr::Variant { fields, .. } | TExpr::Struct { fields, .. } => {
            made_holds(bound, params, fields.as_slice())
        }
        TExpr::Tuple(source, part) => part_holds(*part, operand_holds(bound, params, source)),
    }
}
