//! The rule file: the type of instructions, and of each operation a term and its rule.

ghost use Rattle.std.specs.Prelude.{◌≡◌, ◌++◌, ◌∷◌, [], IfOk, OnOk, string_bytes};
ghost use Rattle.std.specs.List.{flat_map};
ghost use Rattle.isle_meta.specs.TableNames.{texts};
ghost use Rattle.isle_pulley.specs.Pieces.{body_piece, declaration_piece, file_piece};
ghost use Rattle.isle_pulley.specs.Pieces.{operation_piece};
ghost use Rattle.isle_pulley.specs.Pieces.{effect_head, head_piece, pair_piece, pair_tail};
ghost use Rattle.isle_pulley.specs.Pieces.{places_piece};
ghost use Rattle.isle_pulley.specs.Pieces.{rule_piece, signature_piece};
ghost use Rattle.isle_pulley.specs.RuleFile.{answer_type};

use crate::instruction::{push_emitted, push_inst, push_place, push_type};
use crate::parameters::{param_types, push_arguments, push_spaced};
use isle_pulley_rows::{Operation, results};
use std::alloc::{AllocError, Global};

// What a term with results of these types gives.
fn answer_type<'t>(types: &[&'t str]) -> &'t str
    ensures { result.now ≡ answer_type (texts types.now) }
{
    match types {
        [] => "SideEffectNoResult",
        [ty] => ty,
        [_, _, ..] => "ValueRegs",
    }
}

// Appends a term's types and what it gives, to the end of the line.
fn push_signature(text: &mut String, types: &[&str], answer: &str) -> Result<(), AllocError>
    ensures { OnOk result
        (string_bytes text.new
        ≡ string_bytes text.old ++ signature_piece (texts types.now) answer.now) }
{
    text.push_str(" (")?;
    push_spaced(text, types)?;
    text.push_str(") ")?;
    text.push_str(answer)?;
    text.push_str(")\n")
}

// Appends a declaration.
fn push_declaration(alloc: Global, text: &mut String, op: &Operation<'_>) -> Result<(), AllocError>
    ensures { OnOk result
        (string_bytes text.new ≡ string_bytes text.old ++ declaration_piece op.now) }
{
    let types = param_types(alloc, op.operands.as_slice())?;
    let given = results(alloc, op.operands.as_slice())?;
    text.push_str("(decl pulley_")?;
    text.push_str(op.snake.as_str())?;
    push_signature(text, types.as_slice(), answer_type(given.as_slice()))
}

// How a rule without results begins.
#[tactic(auto, unfolding(crate::specs::Pieces::effect_head))]
fn effect_head() -> &'static str
    ensures { result.now ≡ effect_head }
{
    "(SideEffectNoResult.Inst "
}

// Appends what a rule without results gives.
fn push_effect(text: &mut String, op: &Operation<'_>) -> Result<(), AllocError>
    ensures { OnOk result
        (string_bytes text.new ≡ string_bytes text.old ++ body_piece [] op.now) }
{
    text.push_str(effect_head())?;
    push_inst(text, "dst", "dst", op)?;
    text.push_str(")")
}

// Appends what a rule with one result gives.
fn push_single(
    alloc: Global,
    text: &mut String,
    ty: &str,
    op: &Operation<'_>,
) -> Result<(), AllocError>
    ensures { OnOk result
        (string_bytes text.new
        ≡ string_bytes text.old ++ body_piece (ty.now ∷ []) op.now) }
{
    text.push_str("(let (")?;
    push_place(alloc, text, "dst", ty)?;
    text.push_str(" ")?;
    push_emitted(text, "dst", "dst", op)?;
    text.push_str(") dst)")
}

// Appends two places, with a blank behind each.
#[tactic(auto, unfolding(crate::specs::Pieces::places_piece))]
fn push_places(
    alloc: Global,
    text: &mut String,
    first: &str,
    second: &str,
) -> Result<(), AllocError>
    ensures { OnOk result
        (string_bytes text.new
        ≡ string_bytes text.old ++ places_piece first.now second.now) }
{
    push_place(alloc, text, "dst1", first)?;
    text.push_str(" ")?;
    push_place(alloc, text, "dst2", second)?;
    text.push_str(" ")
}

// How a rule with two results ends.
#[tactic(auto, unfolding(crate::specs::Pieces::pair_tail))]
fn pair_tail() -> &'static str
    ensures { result.now ≡ pair_tail }
{
    ") (value_regs dst1 dst2))"
}

// Appends what a rule with two results gives.
fn push_pair(
    alloc: Global,
    text: &mut String,
    first: &str,
    second: &str,
    op: &Operation<'_>,
) -> Result<(), AllocError>
    ensures { OnOk result
        (string_bytes text.new
        ≡ string_bytes text.old ++ pair_piece first.now second.now op.now) }
{
    text.push_str("(let (")?;
    push_places(alloc, text, first, second)?;
    push_emitted(text, "dst1", "dst2", op)?;
    text.push_str(pair_tail())
}

// Appends what a rule gives, by the types of its results.
fn push_body(
    alloc: Global,
    text: &mut String,
    types: &[&str],
    op: &Operation<'_>,
) -> Result<(), AllocError>
    ensures { OnOk result
        (string_bytes text.new
        ≡ string_bytes text.old ++ body_piece (texts types.now) op.now) }
{
    match types {
        [] => push_effect(text, op),
        [ty] => push_single(alloc, text, ty, op),
        [first, second, ..] => push_pair(alloc, text, first, second, op),
    }
}

// Appends a rule's term and its arguments.
fn push_head(text: &mut String, op: &Operation<'_>) -> Result<(), AllocError>
    ensures { OnOk result
        (string_bytes text.new ≡ string_bytes text.old ++ head_piece op.now) }
{
    text.push_str("(rule (pulley_")?;
    text.push_str(op.snake.as_str())?;
    push_arguments(text, op.operands.as_slice())?;
    text.push_str(") ")
}

// Appends a rule.
fn push_rule(alloc: Global, text: &mut String, op: &Operation<'_>) -> Result<(), AllocError>
    ensures { OnOk result
        (string_bytes text.new ≡ string_bytes text.old ++ rule_piece op.now) }
{
    let given = results(alloc, op.operands.as_slice())?;
    push_head(text, op)?;
    push_body(alloc, text, given.as_slice(), op)?;
    text.push_str(")\n")
}

// Appends an operation's term and its rule.
#[tactic(auto, unfolding(crate::specs::Pieces::operation_piece))]
fn push_operation(alloc: Global, text: &mut String, op: &Operation<'_>) -> Result<(), AllocError>
    ensures { OnOk result
        (string_bytes text.new ≡ string_bytes text.old ++ operation_piece op.now) }
{
    push_declaration(alloc, text, op)?;
    push_rule(alloc, text, op)
}

// Appends the terms of operations and their rules.
fn push_all(alloc: Global, text: &mut String, ops: &[Operation<'_>]) -> Result<(), AllocError>
    ensures { OnOk result
        (string_bytes text.new
        ≡ string_bytes text.old ++ flat_map operation_piece ops.now) }
{
    for op in ops {
        push_operation(alloc, text, op)?;
    }
    Ok(())
}

/// Returns the rule file of operations. The only error is want of memory.
pub fn rule_file(alloc: Global, ops: &[Operation<'_>]) -> Result<String, AllocError>
    ensures { IfOk result (λ text. string_bytes text ≡ file_piece ops.now) }
{
    let mut text = String::new(alloc);
    push_type(&mut text, ops)?;
    push_all(alloc, &mut text, ops)?;
    Ok(text)
}
