ghost use Rattle.std.specs.Prelude.{◌≡◌, ◌++◌, ◌∷◌, IfOk, OnOk, OnErr, Some, [], suc};
ghost use Rattle.std.specs.BTreeMap.{Updates, IsUnchanged};
ghost use Rattle.isle_core.specs.declared.types.ReturnKind.TheVariants.{Plain as Once};
ghost use Rattle.isle_rulesets.specs.Keys.{key_cmp, key_path, IsThere, HasParts};
ghost use Rattle.isle_rulesets.specs.Late.{has_turn, turn_at, any_turn, key_turn};
ghost use Rattle.isle_rulesets.specs.Numbering.{known, is_next, Numbers, Calls, next_call, same_call};
ghost use Rattle.std.specs.List.{AllByRecursion};
ghost use Rattle.isle_core.specs.Path.{at, paths_of};
ghost use Rattle.isle_core.specs.StandsFor.{EachOnce};

use crate::keys::Key;
use crate::parts::Parts;
use isle_core::{Binding, BindingId, List, ReturnKind, TermId};
use std::alloc::{AllocError, Global};
use std::collections::BTreeMap;
use std::marker::Model;

/// The number of a call, and that of its value.
#[derive(Clone, Copy, Debug)]
pub struct Call {
    pub number: BindingId,
    pub value: BindingId,
}

// The number of a key: an argument below the count has its index, and any other key what the map has.
fn known(count: usize, numbers: &BTreeMap<Key, BindingId>, key: &Key) -> Option<BindingId>
    ensures { result ≡ known count numbers.now key.now }
{
    if let Key::Argument(index) = key {
        if *index < count {
            return Some(BindingId(*index));
        }
    }
    numbers.get(key).copied()
}

// Whether the key is the argument of this number, and gets that number.
fn is_next(count: usize, number: usize, key: &Key) -> bool
    ensures { result ≡ is_next count number key.now }
{
    match key {
        Key::Argument(index) => *index == count && number == count,
        _ => false,
    }
}

// Whether the path of this number has an impure call within it.
fn has_turn(late: &[bool], number: BindingId) -> bool
    ensures { result ≡ turn_at late.now number }
{
    late.get(number.index()).copied().unwrap_or(false)
}

// Whether one of these has.
fn any_turn(late: &[bool], numbers: &[BindingId]) -> bool
    ensures { result ≡ any_turn late.now numbers.now }
{
    numbers.iter().any(|number| has_turn(late, *number))
}

// Whether the path of a key has an impure call within it.
fn key_turn(late: &[bool], key: &Key) -> bool
    ensures { result ≡ key_turn late.now key.now }
{
    match key {
        Key::Extractor { parameter, .. } => has_turn(late, *parameter),
        Key::Constructor { parameters, .. } => any_turn(late, parameters.as_slice()),
        Key::MakeVariant { fields, .. } | Key::MakeStruct { fields, .. } => {
            any_turn(late, fields.as_slice())
        }
        Key::MatchVariant { source, .. }
        | Key::ExtractStruct { source, .. }
        | Key::Iterator { source }
        | Key::MatchSome { source }
        | Key::MatchTuple { source, .. } => has_turn(late, *source),
        _ => false,
    }
}

// Adds a binding after the others, and whether its path has an impure call within it. The only error is want of
// memory.
fn push_binding(
    bindings: &mut Vec<Binding>,
    late: &mut Vec<bool>,
    binding: Binding,
    has_turn: bool,
) -> Result<(), AllocError>
    ensures added { OnOk result (bindings.new.items ≡ bindings.old.items ++ binding ∷ []) }
    ensures told { OnOk result (late.new.items ≡ late.old.items ++ has_turn ∷ []) }
    ensures kept { OnErr result (bindings.new.items ≡ bindings.old.items) }
    ensures untold { OnErr result (late.new.items ≡ late.old.items) }
{
    let told = late.len();
    late.push(has_turn)?;
    match bindings.push(binding) {
        Ok(()) => Ok(()),
        Err(error) => {
            late.truncate(told);
            Err(error.into())
        }
    }
}

// Gives a key its number. The only error is want of memory.
fn put(
    numbers: &mut BTreeMap<Key, BindingId>,
    key: Key,
    number: BindingId,
) -> Result<(), AllocError>
    ensures updates { OnOk result (Updates key_cmp numbers.old numbers.new key (Some number)) }
    ensures kept { OnErr result (IsUnchanged numbers.old numbers.new) }
{
    numbers.insert(key, number)?;
    Ok(())
}

/// Bindings, each once, and the lists that the rule at hand met. The first bindings may be arguments in order, which
/// are counted; of the others the map has the number by the key. Impure calls have no key, and are counted too. Beside
/// each binding stands whether its path has an impure call within it.
#[derive(Drop)]
pub struct Numbering {
    bindings: Vec<Binding>,
    late: Vec<bool>,
    arguments: usize,
    numbers: BTreeMap<Key, BindingId>,
    calls: usize,
    lists: Vec<BindingId>,
}

impl Model for Numbering {
    ghost use Rattle.isle_rulesets.specs.Numbering.{Numbered, KeepsNumbers, known};

    ghost Value = { Numbered };

    ghost view = { λ n.
        record { bindings = n.bindings.items; calls = n.calls; lists = n.lists.items } };

    ghost invariant = { λ n. KeepsNumbers
        (record { bindings = n.bindings.items; calls = n.calls; lists = n.lists.items })
        (known n.arguments n.numbers) n.late.items };
}

impl Numbering {
    /// Makes a numbering with no binding.
    pub fn new(alloc: Global) -> Numbering
        ensures { result ≡ record { bindings = []; calls = 0; lists = [] } }
    {
        Numbering {
            bindings: Vec::new(alloc),
            late: Vec::new(alloc),
            arguments: 0,
            numbers: BTreeMap::new(alloc),
            calls: 0,
            lists: Vec::new(alloc),
        }
    }

    /// Begins a rule, which has met no list.
    pub fn begin_rule(&mut self)
        ensures { self.new
            ≡ record { bindings = self.old.bindings; calls = self.old.calls; lists = [] } }
    {
        self.lists.truncate(0);
    }

    /// Returns the lists that the rule at hand met, in order, as often as it met them.
    pub fn lists(&self) -> &[BindingId]
        ensures { result.now ≡ self.now.lists }
    {
        self.lists.as_slice()
    }

    /// Returns whether the path of a number has an impure call within it.
    pub fn has_turn(&self, number: BindingId) -> bool
        ensures { result ≡ has_turn (at (paths_of self.now.bindings) number) }
    {
        has_turn(self.late.as_slice(), number)
    }

    /// Returns the number of the key's binding, and adds it if it is not there yet. The only error is want of
    /// memory.
    pub fn intern(&mut self, alloc: Global, key: Key) -> Result<BindingId, AllocError>
        requires { HasParts (paths_of self.old.bindings) key }
        ensures { IfOk result (λ b.
            Numbers self.old self.new (key_path (paths_of self.old.bindings) key) b) }
    {
        if let Some(number) = known(self.arguments, &self.numbers, &key) {
            return Ok(number);
        }
        let number = BindingId(self.bindings.len());
        let is_late = key_turn(self.late.as_slice(), &key);
        let binding = key.binding(alloc)?;
        push_binding(&mut self.bindings, &mut self.late, binding, is_late)?;
        if is_next(self.arguments, number.index(), &key) {
            self.arguments = self.bindings.len();
            return Ok(number);
        }
        match put(&mut self.numbers, key, number) {
            Ok(()) => Ok(number),
            Err(error) => {
                self.bindings.truncate(number.index());
                self.late.truncate(number.index());
                Err(error)
            }
        }
    }

    // Adds the next impure call, of an occurrence of its own. The only error is want of memory.
    fn push_call(
        &mut self,
        term: TermId,
        parameters: List<BindingId>,
    ) -> Result<BindingId, AllocError>
        ensures { IfOk result (λ b.
            Calls self.old self.new (next_call self.old term parameters) Once (suc self.old.calls) b
            b) }
    {
        let instance = self.calls + 1;
        let number = BindingId(self.bindings.len());
        let binding = Binding::Constructor {
            term,
            parameters,
            instance,
        };
        push_binding(&mut self.bindings, &mut self.late, binding, true)?;
        self.calls = instance;
        Ok(number)
    }

    // Meets a list. The only error is want of memory.
    fn meet(&mut self, list: BindingId) -> Result<(), AllocError>
        ensures { OnOk result
            (self.new ≡ record {
              bindings = self.old.bindings;
              calls = self.old.calls;
              lists = self.old.lists ++ list ∷ [];
            }) }
    {
        self.lists.push(list)?;
        Ok(())
    }

    /// Numbers the value of a call that has a number: its inner value if it may be nothing, an item if it answers
    /// several times, or else itself; a list is met. The only error is want of memory.
    pub fn answered(
        &mut self,
        alloc: Global,
        number: BindingId,
        kind: ReturnKind,
    ) -> Result<BindingId, AllocError>
        requires { IsThere (paths_of self.old.bindings) number }
        ensures { IfOk result (λ b.
            Calls self.old self.new (at (paths_of self.old.bindings) number) kind self.old.calls
            number b) }
    {
        match kind {
            ReturnKind::Plain => Ok(number),
            ReturnKind::Option => self.intern(alloc, Key::MatchSome { source: number }),
            ReturnKind::Iterator => {
                self.meet(number)?;
                self.intern(alloc, Key::Iterator { source: number })
            }
        }
    }

    /// Adds the next impure call, of an occurrence of its own, and its value. The only error is want of memory.
    pub fn call(
        &mut self,
        alloc: Global,
        term: TermId,
        parameters: List<BindingId>,
        kind: ReturnKind,
    ) -> Result<Call, AllocError>
        ensures { IfOk result (λ c.
            Calls self.old self.new (next_call self.old term parameters) kind (suc self.old.calls)
            c.number c.value) }
    {
        let number = self.push_call(term, parameters)?;
        let value = self.answered(alloc, number, kind)?;
        Ok(Call { number, value })
    }

    /// Numbers a pure call, and its value; equal ones are one. The only error is want of memory.
    pub fn pure_call(
        &mut self,
        alloc: Global,
        term: TermId,
        parameters: Parts,
        kind: ReturnKind,
    ) -> Result<Call, AllocError>
        requires { AllByRecursion (IsThere (paths_of self.old.bindings)) parameters }
        ensures { IfOk result (λ c.
            Calls self.old self.new (same_call self.old term parameters) kind self.old.calls
            c.number c.value) }
    {
        let number = self.intern(alloc, Key::Constructor { term, parameters })?;
        let value = self.answered(alloc, number, kind)?;
        Ok(Call { number, value })
    }

    /// Returns the bindings, no two of one path.
    pub fn into_bindings(self) -> Vec<Binding>
        ensures bindings { result.items ≡ self.bindings }
        ensures once { EachOnce (paths_of result.items) }
    {
        let Numbering { bindings, .. } = self;
        bindings
    }
}
