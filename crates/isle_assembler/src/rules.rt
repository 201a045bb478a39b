//! The rules' text of an assembler.

ghost use Rattle.std.specs.Prelude.{◌≡◌, ◌++◌, IfOk, OnOk, string_bytes};
ghost use Rattle.std.specs.List.{flat_map};
ghost use Rattle.isle_assembler.specs.AssemblerDefs.{choice_signature};
ghost use Rattle.isle_assembler_rows.specs.Constructors.{constructors};
ghost use Rattle.isle_assembler.specs.RuleTexts.{alternate_rule_text, call_text, choice_decl_text};
ghost use Rattle.isle_assembler.specs.RuleTexts.{choice_head_text, choice_text};
ghost use Rattle.isle_assembler.specs.RuleTexts.{constructor_text, defer_text, emit_text};
ghost use Rattle.isle_assembler.specs.RuleTexts.{head_text, made_decl_text, made_rule_text};
ghost use Rattle.isle_assembler.specs.RuleTexts.{raw_text};
ghost use Rattle.isle_assembler.specs.RuleTexts.{outputs_text, row_text, rule_text, signature_text};
ghost use Rattle.isle_assembler.specs.RuleTexts.{usual_rule_text};

use crate::pieces::push_pieces;
use crate::signature::{Signature, push_handed, push_params, push_types};
use isle_assembler_rows::{
    Constructor, constructors_of, is_left_out, push_choice_term, push_made_term, push_raw_term,
};
use isle_meta::{Alternate, Inst};
use std::alloc::{AllocError, Global};

// Appends a declared term's parameters and result, to the end of the line.
#[tactic(auto, unfolding(crate::specs::RuleTexts::signature_text))]
fn push_signature(
    text: &mut String,
    signature: Signature,
    inst: &Inst,
    ret: &str,
) -> Result<(), AllocError>
    ensures { OnOk result
        (string_bytes text.new
        ≡ string_bytes text.old ++ signature_text signature inst.now ret.now) }
{
    text.push_str(" (")?;
    push_types(text, signature, inst)?;
    push_pieces(text, &[") ", ret, ")\n"])
}

// Appends the raw term.
fn push_raw(text: &mut String, inst: &Inst) -> Result<(), AllocError>
    ensures { OnOk result (string_bytes text.new ≡ string_bytes text.old ++ raw_text inst.now) }
{
    text.push_str("(decl ")?;
    push_raw_term(text, inst.name.as_str())?;
    push_signature(text, Signature::Raw, inst, "AssemblerOutputs")?;
    text.push_str("(extern constructor ")?;
    push_raw_term(text, inst.name.as_str())?;
    text.push_str(" ")?;
    push_raw_term(text, inst.name.as_str())?;
    push_pieces(text, &[")\n"])
}

// Appends the declaration of a constructor's term.
#[tactic(auto, unfolding(crate::specs::RuleTexts::made_decl_text))]
fn push_made_decl(text: &mut String, inst: &Inst, c: Constructor) -> Result<(), AllocError>
    ensures { OnOk result
        (string_bytes text.new ≡ string_bytes text.old ++ made_decl_text inst.now c) }
{
    text.push_str("(decl ")?;
    push_made_term(text, c, inst.name.as_str())?;
    push_signature(text, Signature::Made(c), inst, c.result_type())
}

// Appends the rule of a constructor's term.
fn push_made_rule(text: &mut String, inst: &Inst, c: Constructor) -> Result<(), AllocError>
    ensures { OnOk result
        (string_bytes text.new ≡ string_bytes text.old ++ made_rule_text inst.now c) }
{
    text.push_str("(rule (")?;
    push_made_term(text, c, inst.name.as_str())?;
    push_params(text, Signature::Made(c), inst)?;
    text.push_str(") (")?;
    text.push_str(c.conversion())?;
    text.push_str(" (")?;
    push_raw_term(text, inst.name.as_str())?;
    push_handed(text, c, inst)?;
    push_pieces(text, &[")))\n"])
}

// The parameters of the term that takes an alternate.
fn choice_signature(c: Constructor, feature: &str) -> Signature
    ensures { result ≡ choice_signature c feature.now }
{
    if feature == "avx" {
        Signature::Unaligned(c)
    } else {
        Signature::Made(c)
    }
}

// Appends the declaration of the term that takes an alternate.
#[tactic(auto, unfolding(crate::specs::RuleTexts::choice_decl_text))]
fn push_choice_decl(
    text: &mut String,
    inst: &Inst,
    c: Constructor,
    alternate: &Alternate,
) -> Result<(), AllocError>
    ensures { OnOk result
        (string_bytes text.new
        ≡ string_bytes text.old ++ choice_decl_text inst.now c alternate.now) }
{
    let feature = alternate.feature.as_str();
    text.push_str("(decl ")?;
    push_choice_term(text, c, inst.name.as_str(), feature)?;
    push_signature(text, choice_signature(c, feature), inst, c.result_type())
}

// Appends a call on a term of a constructor, to the end of the line.
#[tactic(auto, unfolding(crate::specs::RuleTexts::call_text))]
fn push_call(text: &mut String, inst: &Inst, c: Constructor, name: &str) -> Result<(), AllocError>
    ensures { OnOk result
        (string_bytes text.new ≡ string_bytes text.old ++ call_text inst.now c name.now) }
{
    text.push_str("(")?;
    push_made_term(text, c, name)?;
    push_params(text, Signature::Made(c), inst)?;
    text.push_str("))\n")
}

// Appends the head of a rule of the term that takes an alternate, before a blank.
#[tactic(auto, unfolding(crate::specs::RuleTexts::choice_head_text))]
fn push_choice_head(
    text: &mut String,
    inst: &Inst,
    c: Constructor,
    alternate: &Alternate,
) -> Result<(), AllocError>
    ensures { OnOk result
        (string_bytes text.new
        ≡ string_bytes text.old ++ choice_head_text inst.now c alternate.now) }
{
    push_choice_term(text, c, inst.name.as_str(), alternate.feature.as_str())?;
    push_params(text, Signature::Made(c), inst)?;
    text.push_str(") ")
}

// Appends the rule that takes the alternate.
fn push_alternate_rule(
    text: &mut String,
    inst: &Inst,
    c: Constructor,
    alternate: &Alternate,
) -> Result<(), AllocError>
    ensures { OnOk result
        (string_bytes text.new
        ≡ string_bytes text.old ++ alternate_rule_text inst.now c alternate.now) }
{
    text.push_str("(rule 1 (")?;
    push_choice_head(text, inst, c, alternate)?;
    push_pieces(
        text,
        &["(if-let true (has_", alternate.feature.as_str(), ")) "],
    )?;
    push_call(text, inst, c, alternate.name.as_str())
}

// Appends the rule that takes the instruction.
#[tactic(auto, unfolding(crate::specs::RuleTexts::usual_rule_text))]
fn push_usual_rule(
    text: &mut String,
    inst: &Inst,
    c: Constructor,
    alternate: &Alternate,
) -> Result<(), AllocError>
    ensures { OnOk result
        (string_bytes text.new
        ≡ string_bytes text.old ++ usual_rule_text inst.now c alternate.now) }
{
    text.push_str("(rule 0 (")?;
    push_choice_head(text, inst, c, alternate)?;
    push_call(text, inst, c, inst.name.as_str())
}

// Appends the term that takes an alternate, if there is one.
fn push_choice(text: &mut String, inst: &Inst, c: Constructor) -> Result<(), AllocError>
    ensures { OnOk result
        (string_bytes text.new
        ≡ string_bytes text.old ++ choice_text inst.now c inst.now.alternate) }
{
    if let Some(alternate) = inst.alternate.as_ref() {
        push_choice_decl(text, inst, c, alternate)?;
        push_alternate_rule(text, inst, c, alternate)?;
        push_usual_rule(text, inst, c, alternate)?;
    }
    Ok(())
}

// Appends the definitions of a constructor.
fn push_constructor(text: &mut String, inst: &Inst, c: Constructor) -> Result<(), AllocError>
    ensures { OnOk result
        (string_bytes text.new ≡ string_bytes text.old ++ constructor_text inst.now c) }
{
    push_made_decl(text, inst, c)?;
    push_made_rule(text, inst, c)?;
    push_choice(text, inst, c)
}

// Appends the definitions of all constructors.
fn push_constructors(alloc: Global, text: &mut String, inst: &Inst) -> Result<(), AllocError>
    ensures { OnOk result
        (string_bytes text.new
        ≡ string_bytes text.old ++ flat_map (constructor_text inst.now) (constructors inst.now)) }
{
    let chosen = constructors_of(alloc, inst)?;
    if let Some(c) = chosen.outside {
        push_constructor(text, inst, c)?;
    }
    if chosen.in_memory {
        push_constructor(text, inst, Constructor::RetMemorySideEffect)?;
    }
    Ok(())
}

// Appends the definitions of an instruction, unless it is left out.
fn push_row(alloc: Global, text: &mut String, inst: &Inst) -> Result<(), AllocError>
    ensures { OnOk result (string_bytes text.new ≡ string_bytes text.old ++ row_text inst.now) }
{
    if is_left_out(inst) {
        return Ok(());
    }
    push_raw(text, inst)?;
    push_constructors(alloc, text, inst)
}

// Appends the definitions of instructions.
fn push_rows(alloc: Global, text: &mut String, insts: &[Inst]) -> Result<(), AllocError>
    ensures { OnOk result
        (string_bytes text.new ≡ string_bytes text.old ++ flat_map row_text insts.now) }
{
    for inst in insts {
        push_row(alloc, text, inst)?;
    }
    Ok(())
}

// Appends the type of what a raw term gives.
#[tactic(auto, unfolding(crate::specs::RuleTexts::outputs_text))]
fn push_outputs(text: &mut String) -> Result<(), AllocError>
    ensures { OnOk result (string_bytes text.new ≡ string_bytes text.old ++ outputs_text) }
{
    push_pieces(
        text,
        &[
            "(type AssemblerOutputs (enum\n  (SideEffect (inst MInst))\n",
            "  (RetGpr (inst MInst) (gpr Gpr))\n  (RetXmm (inst MInst) (xmm Xmm))\n",
            "  (RetValueRegs (inst MInst) (regs ValueRegs))))\n",
        ],
    )
}

// Appends the term that emits an instruction and gives its register.
#[tactic(auto, unfolding(crate::specs::RuleTexts::emit_text))]
fn push_emit(
    text: &mut String,
    term: &str,
    variant: &str,
    x: &str,
    ret: &str,
) -> Result<(), AllocError>
    ensures { OnOk result
        (string_bytes text.new
        ≡ string_bytes text.old ++ emit_text term.now variant.now x.now ret.now) }
{
    push_pieces(
        text,
        &[
            "(decl ",
            term,
            " (AssemblerOutputs) ",
            ret,
            ")\n(rule (",
            term,
            " (AssemblerOutputs.",
            variant,
            " inst ",
            x,
            ")) (let ((_ Unit (emit inst))) ",
            x,
            "))\n",
        ],
    )
}

// Appends the term that puts an instruction off.
#[tactic(auto, unfolding(crate::specs::RuleTexts::defer_text))]
fn push_defer(text: &mut String) -> Result<(), AllocError>
    ensures { OnOk result (string_bytes text.new ≡ string_bytes text.old ++ defer_text) }
{
    push_pieces(
        text,
        &[
            "(decl defer_side_effect (AssemblerOutputs) SideEffectNoResult)\n",
            "(rule (defer_side_effect (AssemblerOutputs.SideEffect inst)) (SideEffectNoResult.Inst inst))\n",
        ],
    )
}

// Appends the definitions with which the text begins.
fn push_head(text: &mut String) -> Result<(), AllocError>
    ensures { OnOk result (string_bytes text.new ≡ string_bytes text.old ++ head_text) }
{
    push_outputs(text)?;
    push_emit(text, "emit_ret_gpr", "RetGpr", "gpr", "Gpr")?;
    push_emit(text, "emit_ret_xmm", "RetXmm", "xmm", "Xmm")?;
    push_emit(
        text,
        "emit_ret_value_regs",
        "RetValueRegs",
        "regs",
        "ValueRegs",
    )?;
    push_defer(text)
}

/// Gives the rules' text of an assembler of these instructions. The only error is want of memory.
#[tactic(auto, unfolding(crate::specs::RuleTexts::rule_text))]
pub fn rule_text(alloc: Global, insts: &[Inst]) -> Result<String, AllocError>
    ensures { IfOk result (λ text. string_bytes text ≡ rule_text insts.now) }
{
    let mut text = String::new(alloc);
    push_head(&mut text)?;
    push_rows(alloc, &mut text, insts)?;
    Ok(text)
}
