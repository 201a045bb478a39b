ghost use Rattle.std.specs.Prelude.{◌≡◌, map, IfOk};
ghost use Rattle.std.specs.List.{AllByRecursion};
ghost use Rattle.isle_core.specs.Calling.{kind_of, is_several as answers_several};
ghost use Rattle.isle_core.specs.RuleViews.{environment};
ghost use Rattle.isle_rulesets.specs.Grouping.{AreRuleSets};
ghost use Rattle.isle_tree.specs.Views.{function, program};
ghost use Rattle.isle_tree.specs.WellFormed.{IsWellFormed};
ghost use Rattle.isle_codegen.specs.Emission.{IsFrame, ArePlaced};
ghost use Rattle.isle_codegen.specs.Emits.{CanEmit, IsEmitted, AreEmitted};
ghost use Rattle.isle_codegen.specs.Headline.{FunctionsMean};
ghost use Rattle.isle_codegen.specs.LawfulEnvironment.{MayBeEmitted};

use isle_blocks::serialize;
use isle_core::{
    CodegenOptions, Files, LineStarts, List, OutOfMemory, ReturnKind, RuleSet, TermEnv, TermId,
    TermKind, TypeEnv,
};
use isle_emission::{ConstTypes, Sources, term_function};
use isle_lawful_names::type_items;
use isle_operands::{kind_of, trait_fns};
use isle_tree::{Function, Program};
use std::alloc::Global;

// Whether a term of this kind answers several times.
fn is_several(kind: &TermKind) -> bool
    ensures { result ≡ answers_several (kind_of kind.now) }
{
    match kind_of(kind) {
        ReturnKind::Iterator => true,
        ReturnKind::Option | ReturnKind::Plain => false,
    }
}

// The function of the term of this number, from the block of its rule set.
fn emit_one(
    alloc: Global,
    sources: &Sources<'_>,
    term: TermId,
    rules: &RuleSet,
) -> Result<Function, OutOfMemory>
    requires { CanEmit sources.now.files.now
        (environment sources.now.typeenv.now sources.now.termenv.now) (term, rules.now) }
    ensures { IfOk result (λ f. IsEmitted sources.now.options.now sources.now.files.now
        (environment sources.now.typeenv.now sources.now.termenv.now) term rules.now (function f)) }
{
    let declared = &sources.termenv.terms.as_slice()[term.index()];
    let block = serialize(alloc, rules, is_several(&declared.kind))?;
    term_function(alloc, sources, declared, rules, &block)
}

// The functions of terms with their rule sets, in order.
fn emit_all(
    alloc: Global,
    files: &Files,
    typeenv: &TypeEnv,
    termenv: &TermEnv,
    terms: &[(TermId, RuleSet)],
    options: &CodegenOptions,
) -> Result<Vec<Function>, OutOfMemory>
    requires { AllByRecursion (CanEmit files.now (environment typeenv.now termenv.now)) terms.now }
    ensures { IfOk result (λ fns.
        AreEmitted options.now files.now (environment typeenv.now termenv.now) terms.now
        (map function fns.items)) }
{
    let starts = LineStarts::new(alloc, files)?;
    let consts = ConstTypes::new(alloc, typeenv.consts.as_slice())?;
    let sources = Sources {
        files,
        starts: &starts,
        typeenv,
        termenv,
        consts: &consts,
        options,
    };
    let mut fns = Vec::new(alloc);
    for (term, rules) in terms {
        fns.push(emit_one(alloc, &sources, *term, rules)?)?;
    }
    Ok(fns)
}

/// Makes the program of an environment: the functions of the trait, the types, and a function for each term with rules,
/// in order of ids (`specs/Emission.antt`, `specs/Headline.antt`). The environment is lawful
/// (`specs/LawfulEnvironment.antt`); `terms` lists the terms with rules in this order, each with a rule set that stands
/// for its rules; all places lie in the files. The only error is want of memory.
pub fn codegen_tree(
    alloc: Global,
    files: &Files,
    typeenv: &TypeEnv,
    termenv: &TermEnv,
    terms: &[(TermId, RuleSet)],
    options: &CodegenOptions,
) -> Result<Program, OutOfMemory>
    requires given { MayBeEmitted files.now.file_names (environment typeenv.now termenv.now) }
    requires terms { AreRuleSets (environment typeenv.now termenv.now) terms.now }
    requires places { ArePlaced files.now (environment typeenv.now termenv.now) }
    ensures well_formed { IfOk result (λ p. IsWellFormed (program p)) }
    ensures frame { IfOk result (λ p.
        IsFrame options.now (environment typeenv.now termenv.now) (program p)) }
    ensures functions { IfOk result (λ p.
        FunctionsMean options.now files.now (environment typeenv.now termenv.now) (program p)) }
{
    let signatures = trait_fns(alloc, typeenv, termenv)?;
    let types = type_items(alloc, typeenv)?;
    let fns = emit_all(alloc, files, typeenv, termenv, terms, options)?;
    Ok(Program {
        allow: !options.exclude_global_allow_pragmas,
        trait_fns: List::new(signatures),
        types: List::new(types),
        fns: List::new(fns),
    })
}
