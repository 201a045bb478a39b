//! The locals that a step binds: those of its bind order and the made values that are read, each after its parts.

ghost use Rattle.std.specs.Prelude.{◌≡◌, [], ◌∷◌, OnOk, Some as Is, option_map, slice_get};
ghost use Rattle.isle_core.specs.BlockViews as BlockViews;
ghost use Rattle.isle_operands.specs.Contexts.{bindings_in};
ghost use Rattle.isle_emission.specs.PushedLets.{PushesLets};
ghost use Rattle.isle_emission.specs.Built.{IsComputed, AreComputed, IsBuiltControl, IsBuiltStep};
ghost use Rattle.isle_emission.specs.Emitter.{setting_in};
ghost use Rattle.isle_simulation.specs.Completed as Completed;

use crate::emitter::Emitter;
use isle_core::{Binding, BindingId, ControlFlow};
use isle_operands::{Context, is_bound};
use isle_scope::Scope;
use isle_tree::Stmt;
use std::alloc::AllocError;
use std::slice;

// Returns the parts of the made value of this number, if it needs a local.
fn local_parts<'a>(context: &Context<'a>, binding: BindingId) -> Option<&'a [BindingId]>
    ensures { option_map (λ parts. parts.now) result
        ≡ Completed.local_parts (slice_get (bindings_in context.now) binding.0) }
{
    match context.bindings.get(binding.index()) {
        Some(of) => of.made_parts(),
        None => None,
    }
}

// Returns what a binding is computed from.
fn sources_of<'a>(binding: &'a Binding) -> &'a [BindingId]
    ensures { result.now ≡ Completed.read_for (Is binding.now) }
{
    match binding {
        Binding::Iterator { .. }
        | Binding::MatchVariant { .. }
        | Binding::ExtractStruct { .. }
        | Binding::MakeSome { .. } => &[],
        _ => binding.parts(),
    }
}

// Returns those of the binding of this number.
fn read_for<'a>(context: &Context<'a>, binding: BindingId) -> &'a [BindingId]
    ensures { result.now ≡ Completed.read_for (slice_get (bindings_in context.now) binding.0) }
{
    match context.bindings.get(binding.index()) {
        Some(of) => sources_of(of),
        None => &[],
    }
}

impl Emitter<'_> {
    // Binds a binding in its local, after what is there.
    fn push_let(
        &self,
        bound: &mut Scope,
        binding: BindingId,
        out: &mut Vec<Stmt>,
    ) -> Result<(), AllocError>
        requires { IsComputed (setting_in self.now) bound.old binding }
        ensures { OnOk result (PushesLets (setting_in self.now) (binding ∷ [])
            bound.old bound.new out.old.items out.new.items) }
    {
        let made = self.bound_stmt(bound, binding)?;
        out.push(made)?;
        bound.bind(binding.index())?;
        Ok(())
    }

    // Binds the made values without a local that a binding is read with, parts first, down to this depth.
    #[cycle(needed)]
    fn push_needed(
        &self,
        bound: &mut Scope,
        depth: usize,
        binding: BindingId,
        out: &mut Vec<Stmt>,
    ) -> Result<(), AllocError>
        requires { AreComputed (setting_in self.now) bound.old
            (Completed.needed (setting_in self.now) depth bound.old binding) }
        ensures { OnOk result (PushesLets (setting_in self.now)
            (Completed.needed (setting_in self.now) depth bound.old binding)
            bound.old bound.new out.old.items out.new.items) }
    {
        if depth == 0 {
            return Ok(());
        }
        if is_bound(bound, binding) {
            return Ok(());
        }
        let Some(parts) = local_parts(&self.typed.context, binding) else {
            return Ok(());
        };
        self.push_each(bound, depth - 1, parts, out)?;
        self.push_let(bound, binding, out)
    }

    // Does so for bindings in order, those before being bound.
    #[cycle(needed)]
    fn push_each(
        &self,
        bound: &mut Scope,
        depth: usize,
        bindings: &[BindingId],
        out: &mut Vec<Stmt>,
    ) -> Result<(), AllocError>
        requires { AreComputed (setting_in self.now) bound.old
            (Completed.each_needed (Completed.needed (setting_in self.now) depth)
            bound.old bindings.now) }
        ensures { OnOk result (PushesLets (setting_in self.now)
            (Completed.each_needed (Completed.needed (setting_in self.now) depth)
            bound.old bindings.now)
            bound.old bound.new out.old.items out.new.items) }
    {
        for binding in bindings {
            self.push_needed(bound, depth, *binding, out)?;
        }
        Ok(())
    }

    // Binds the made values without a local that bindings are read with.
    fn push_needs(
        &self,
        bound: &mut Scope,
        bindings: &[BindingId],
        out: &mut Vec<Stmt>,
    ) -> Result<(), AllocError>
        requires { AreComputed (setting_in self.now) bound.old
            (Completed.needs (setting_in self.now) bound.old bindings.now) }
        ensures { OnOk result (PushesLets (setting_in self.now)
            (Completed.needs (setting_in self.now) bound.old bindings.now)
            bound.old bound.new out.old.items out.new.items) }
    {
        self.push_each(bound, self.typed.context.bindings.len(), bindings, out)
    }

    // Binds what a step reads after its bindings, after what that needs.
    #[tactic(auto, using(isle_core::proofs::SeesBlocks::sees_blocks))]
    fn push_read_by(
        &self,
        bound: &mut Scope,
        control: &ControlFlow,
        out: &mut Vec<Stmt>,
    ) -> Result<(), AllocError>
        requires { AreComputed (setting_in self.now) bound.old
            (Completed.needs (setting_in self.now) bound.old
            (Completed.read_by (BlockViews.control control.now))) }
        ensures { OnOk result (PushesLets (setting_in self.now)
            (Completed.needs (setting_in self.now) bound.old
            (Completed.read_by (BlockViews.control control.now)))
            bound.old bound.new out.old.items out.new.items) }
    {
        match control {
            ControlFlow::Match { source, .. } => {
                self.push_needs(bound, slice::from_ref(source), out)
            }
            ControlFlow::Equal { a, b, .. } => self.push_needs(bound, &[*a, *b], out),
            ControlFlow::Loop { .. } => Ok(()),
            ControlFlow::Return { result, .. } => {
                self.push_needs(bound, slice::from_ref(result), out)
            }
        }
    }

    // Binds a binding, after what it needs.
    fn push_bound(
        &self,
        bound: &mut Scope,
        binding: BindingId,
        out: &mut Vec<Stmt>,
    ) -> Result<(), AllocError>
        requires { AreComputed (setting_in self.now) bound.old
            (Completed.with_needs (setting_in self.now) bound.old binding) }
        ensures { OnOk result (PushesLets (setting_in self.now)
            (Completed.with_needs (setting_in self.now) bound.old binding)
            bound.old bound.new out.old.items out.new.items) }
    {
        let sources = read_for(&self.typed.context, binding);
        self.push_needs(bound, sources, out)?;
        self.push_let(bound, binding, out)
    }

    // Binds each of a bind order, after what it needs.
    fn push_binds(
        &self,
        bound: &mut Scope,
        bindings: &[BindingId],
        out: &mut Vec<Stmt>,
    ) -> Result<(), AllocError>
        requires { AreComputed (setting_in self.now) bound.old
            (Completed.completed_binds (setting_in self.now) bound.old bindings.now) }
        ensures { OnOk result (PushesLets (setting_in self.now)
            (Completed.completed_binds (setting_in self.now) bound.old bindings.now)
            bound.old bound.new out.old.items out.new.items) }
    {
        for binding in bindings {
            self.push_bound(bound, *binding, out)?;
        }
        Ok(())
    }

    /// Binds each of a step's bind order, and then what the step reads, after what is there.
    #[inline(never)]
    pub fn push_lets(
        &self,
        bound: &mut Scope,
        bindings: &[BindingId],
        control: &ControlFlow,
        out: &mut Vec<Stmt>,
    ) -> Result<(), AllocError>
        requires { IsBuiltStep (setting_in self.now) bound.old bindings.now
            (BlockViews.control control.now) }
        ensures lets { OnOk result (PushesLets (setting_in self.now)
            (Completed.step_binds (setting_in self.now) bound.old bindings.now
            (BlockViews.control control.now))
            bound.old bound.new out.old.items out.new.items) }
        ensures built { OnOk result (IsBuiltControl (setting_in self.now) bound.new
            (BlockViews.control control.now)) }
    {
        self.push_binds(bound, bindings, out)?;
        self.push_read_by(bound, control, out)
    }
}
