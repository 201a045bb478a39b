//! The function of a term.

ghost use Rattle.std.specs.Prelude.{◌≡◌, [], false, Some as Is, map, IfOk};
ghost use Rattle.isle_core.specs.BlockViews as BlockViews;
ghost use Rattle.isle_core.specs.Terms.{sym_text};
ghost use Rattle.isle_tree.specs.Views as Views;
ghost use Rattle.isle_emission.specs.Built.{IsBuilt};
ghost use Rattle.isle_emission.specs.EmittedTerm.{IsGiven, HasLogLines, IsWellFormedIn, HasBlockShape};
ghost use Rattle.isle_emission.specs.EmittedTerm.{RunsAsItsBlock, RunsUnderAll};
ghost use Rattle.isle_emission.specs.Emitter.{setting_in, IsPlaced, function_for};
ghost use Rattle.isle_emission.specs.MayEmit.{MayEmitTerm};
ghost use Rattle.isle_emission.specs.Origin.{origin};
ghost use Rattle.isle_emission.specs.Sources.{IsForTerm, function_with};
ghost use Rattle.isle_simulation.specs.TypeTexts.{type_text, parameter};

use crate::emitter::Emitter;
use crate::sources::Sources;
use isle_core::{
    Block, CodegenOptions, Files, LineStarts, List, OutOfMemory, RuleSet, Term, TermEnv, TermId,
    Text, TypeEnv,
};
use isle_operands::{ConstTypes, Context, Typed, binding_types, kind_of, params, ty_name};
use isle_tree::{Function, Ty};
use std::alloc::{AllocError, Global};

impl Emitter<'_> {
    // Makes the name, the parameters and the result of the term's function.
    fn head(&self) -> Result<(Text, Vec<Ty>, Text), AllocError>
        ensures name { IfOk result (λ head.
            head.0 ≡ sym_text (setting_in self.now).env (setting_in self.now).term.name) }
        ensures params { IfOk result (λ head. head.1.items ≡
            map (parameter (setting_in self.now).env) (setting_in self.now).term.arg_tys) }
        ensures result { IfOk result (λ head.
            head.2 ≡ type_text (setting_in self.now).env (setting_in self.now).term.ret_ty) }
    {
        let context = &self.typed.context;
        let name = self.name(context.term.name)?;
        let params = params(
            self.alloc,
            context.typeenv,
            context.termenv,
            context.term.arg_tys.as_slice(),
        )?;
        let result = ty_name(self.alloc, context.typeenv, context.term.ret_ty)?;
        Ok((name, params, result))
    }

    // Makes the term's function.
    fn function(&self, block: &Block) -> Result<Function, OutOfMemory>
        requires placed { IsPlaced self.now }
        requires built { IsBuilt (setting_in self.now) [] (BlockViews.block block.now) }
        requires outside { self.now.inside ≡ false }
        ensures { IfOk result (λ f.
            function_for self.now (BlockViews.block block.now) ≡ Is (Views.function f)) }
    {
        let body = self.root_stmts(block)?;
        let (term, params, result) = self.head()?;
        Ok(Function {
            term,
            params: List::new(params),
            result,
            kind: kind_of(&self.typed.context.term.kind),
            body: List::new(body),
        })
    }
}

/// Makes the function of a term with these rules from its block, as the options ask for it. Fails for want of memory
/// alone.
pub fn term_function(
    alloc: Global,
    sources: &Sources<'_>,
    term: &Term,
    rules: &RuleSet,
    block: &Block,
) -> Result<Function, OutOfMemory>
    requires { IsForTerm sources.now term.now rules.now (BlockViews.block block.now) }
    ensures { IfOk result (λ f.
        function_with sources.now term.now rules.now (BlockViews.block block.now)
        ≡ Is (Views.function f)) }
{
    let context = Context {
        typeenv: sources.typeenv,
        termenv: sources.termenv,
        term,
        bindings: rules.bindings.as_slice(),
    };
    let types = binding_types(alloc, &context, sources.consts)?;
    let emitter = Emitter {
        alloc,
        typed: Typed {
            context,
            types: types.as_slice(),
        },
        files: sources.files,
        starts: sources.starts,
        options: sources.options,
        inside: false,
    };
    emitter.function(block)
}

/// Makes the function of the term of this number, whose rules have this block. It is well formed in every program with
/// the functions of the trait and of terms that the environment gives, has the shape of the block, and runs as the
/// block does, and alike under all options with one limit and over all files. Fails for want of memory alone.
pub fn emit_term(
    alloc: Global,
    files: &Files,
    typeenv: &TypeEnv,
    termenv: &TermEnv,
    term: TermId,
    rules: &RuleSet,
    block: &Block,
    options: &CodegenOptions,
) -> Result<Function, OutOfMemory>
    requires term { MayEmitTerm
        (origin files.now typeenv.now termenv.now term rules.now block.now) }
    ensures emitted { IfOk result (λ f. IsGiven options.now
        (origin files.now typeenv.now termenv.now term rules.now block.now) (Views.function f)) }
    ensures logs { IfOk result (λ f. HasLogLines options.now
        (origin files.now typeenv.now termenv.now term rules.now block.now) (Views.function f)) }
    ensures well_formed { IfOk result (λ f. IsWellFormedIn
        (origin files.now typeenv.now termenv.now term rules.now block.now) (Views.function f)) }
    ensures shape { IfOk result (λ f. HasBlockShape
        (origin files.now typeenv.now termenv.now term rules.now block.now) (Views.function f)) }
    ensures run { IfOk result (λ f. RunsAsItsBlock options.now
        (origin files.now typeenv.now termenv.now term rules.now block.now) (Views.function f)) }
    ensures options { IfOk result (λ f. RunsUnderAll options.now
        (origin files.now typeenv.now termenv.now term rules.now block.now) (Views.function f)) }
{
    let starts = LineStarts::new(alloc, files)?;
    let consts = ConstTypes::new(alloc, typeenv.consts.as_slice())?;
    let sources = Sources {
        files,
        starts: &starts,
        typeenv,
        termenv,
        consts: &consts,
        options,
    };
    let declared = &termenv.terms.as_slice()[term.index()];
    term_function(alloc, &sources, declared, rules, block)
}
