//! The nodes of patterns counted as they are made, up to as many as a rule may have.

ghost use Rattle.std.specs.Prelude.{◌≡◌, ◌<◌, ◌≤◌, ◌+◌, ℕ, List, [], ◌∷◌, ◌++◌, length, IfOk};
ghost use Rattle.isle_core.specs.Pattern as pattern;
ghost use Rattle.isle_core.specs.Pattern.{Pattern as Tree};
ghost use Rattle.isle_core.specs.RuleViews.{pattern as elaborated, patterns_of};
ghost use Rattle.isle_templates.specs.Arguments.{needed_one, AreArguments, AreAccepted};
ghost use Rattle.isle_templates.specs.Counted.{IsCounted, AreParts, AreTaken, AreCounted};
ghost use Rattle.isle_templates.specs.NodeCount.{pattern_nodes};

use crate::counted::{Counted, MOST_NODES, Parts};
use isle_core::{Boxed, List, Pattern, TermId, TypeId, VarId};
use std::alloc::{AllocError, Global};

/// Counts a pattern of one node.
pub fn leaf(pattern: Pattern) -> Option<Counted>
    requires { pattern_nodes (elaborated pattern) ≡ 1 }
    ensures { IsCounted (elaborated pattern) result }
{
    Some(Counted { pattern, nodes: 1 })
}

/// Binds a variable to what a pattern matches. The only error is want of memory.
#[tactic(auto, using(isle_core::proofs::SeesRules::sees))]
pub fn bound(
    alloc: Global,
    ty: TypeId,
    variable: VarId,
    inner: Option<Counted>,
) -> Result<Option<Counted>, AllocError>
    ensures { IfOk result (λ found.
        (p : Tree) → IsCounted p inner → IsCounted (pattern.BindPattern ty variable p) found) }
{
    let Some(Counted { pattern, nodes }) = inner else {
        return Ok(None);
    };
    if nodes >= MOST_NODES {
        return Ok(None);
    }
    Ok(Some(Counted {
        pattern: Pattern::BindPattern(ty, variable, Boxed::new(alloc, pattern)?),
        nodes: nodes + 1,
    }))
}

/// Makes the pattern of a term on these parts.
#[tactic(auto, using(isle_core::proofs::SeesRules::sees))]
pub fn term_of(ty: TypeId, term: TermId, parts: Option<Parts>) -> Option<Counted>
    ensures { (ps : List Tree) → AreCounted 1 ps parts
        → IsCounted (pattern.Term ty term (patterns_of ps)) result }
{
    let Parts { patterns, nodes } = parts?;
    Some(Counted {
        pattern: Pattern::Term(ty, term, List::new(patterns)),
        nodes,
    })
}

/// Makes the pattern that matches if each of these parts does.
#[tactic(auto, using(isle_core::proofs::SeesRules::sees))]
pub fn and_of(ty: TypeId, parts: Option<Parts>) -> Option<Counted>
    ensures { (ps : List Tree) → AreCounted 1 ps parts
        → IsCounted (pattern.And ty (patterns_of ps)) result }
{
    let Parts { patterns, nodes } = parts?;
    Some(Counted {
        pattern: Pattern::And(ty, List::new(patterns)),
        nodes,
    })
}

impl Parts {
    /// Makes room for so many patterns, over so many nodes. The only error is want of memory.
    pub fn new(alloc: Global, room: usize, nodes: usize) -> Result<Parts, AllocError>
        requires { nodes ≤ 4096 }
        ensures nodes { IfOk result (λ parts. parts.nodes ≡ nodes) }
        ensures patterns { IfOk result (λ parts. parts.patterns.items ≡ []) }
    {
        Ok(Parts {
            patterns: Vec::with_capacity(alloc, room)?,
            nodes,
        })
    }

    /// Takes one more pattern, and says whether there are few enough nodes with it. The only error is want of memory.
    pub fn push(&mut self, part: Option<Counted>) -> Result<bool, AllocError>
        ensures { IfOk result (λ taken.
            (base : ℕ) (ps : List Tree) (p : Tree) → AreParts base ps self.old → IsCounted p part
            → AreTaken taken base (ps ++ p ∷ []) self.new) }
    {
        let Some(Counted { pattern, nodes }) = part else {
            return Ok(false);
        };
        let nodes = self.nodes.saturating_add(nodes);
        if nodes > MOST_NODES {
            return Ok(false);
        }
        self.nodes = nodes;
        self.patterns.push(pattern)?;
        Ok(true)
    }

    /// Takes what stands for a parameter that stands so often in a template, and says whether there are few enough
    /// nodes with it. The only error is want of memory.
    pub fn push_argument(&mut self, times: usize, part: Option<Counted>) -> Result<bool, AllocError>
        ensures { IfOk result (λ taken.
            (base : ℕ) (of : ℕ → ℕ) (ps : List Tree) (p : Tree) → 0 < base → times ≡ of (length ps)
            → AreArguments base of ps self.old → IsCounted (needed_one times p) part
            → AreAccepted taken base of (ps ++ needed_one times p ∷ []) self.new) }
    {
        let Some(Counted { pattern, nodes }) = part else {
            return Ok(false);
        };
        let more = times.saturating_mul(nodes.saturating_sub(1));
        let nodes = self.nodes.saturating_add(more);
        if nodes > MOST_NODES {
            return Ok(false);
        }
        self.nodes = nodes;
        self.patterns.push(pattern)?;
        Ok(true)
    }
}
