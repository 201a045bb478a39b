//! An order in which each node leads only to earlier ones, by a search in depth that doesn't recurse.

ghost use Rattle.std.specs.Prelude.{◌≡◌, ◌<◌, ◌≤◌, ◌++◌, ℕ, [], ◌∷◌, length, IfOk, MatchOption, slice_index};
ghost use Rattle.std.specs.Prelude.{slice_index_or, slice_set, Contains, true, false};
ghost use Rattle.isle_walks.specs.Walks.{AreNodes, IsOrderFound, next_of};
ghost use Rattle.isle_walks.specs.Sound.{has, LeadsInto, IsSound, IsFinished, IsTried};

use isle_core::List;
use std::alloc::{AllocError, Global};

// How far a search in depth has come.
#[derive(Drop)]
struct DepthFirst {
    // Of each node, how many of the nodes that it leads to have been looked at; these are done.
    looked: Vec<usize>,
    // Of each node, whether it is done.
    done: Vec<bool>,
    // The nodes that are done, each after those that it leads to.
    order: Vec<usize>,
}

// Returns the place of the first node from there on that isn't done, or how many nodes there are.
fn first_left(nodes: &[usize], from: usize, done: &[bool]) -> usize
    requires from { from ≤ length nodes.now }
    requires there { (place : ℕ) → place < length nodes.now
        → slice_index nodes.now place < length done.now }
    ensures within { (from ≤ result) × (result ≤ length nodes.now) }
    ensures done { (place : ℕ) → from ≤ place → place < result
        → slice_index_or done.now (slice_index nodes.now place) false ≡ true }
    ensures left { result < length nodes.now
        → slice_index_or done.now (slice_index nodes.now result) false ≡ false }
{
    for place in from..nodes.len() {
        if !done[nodes[place]] {
            return place;
        }
    }
    nodes.len()
}

impl DepthFirst {
    // Begins a search, with no node done.
    fn new(alloc: Global, graph: &[List<usize>]) -> Result<DepthFirst, AllocError>
        ensures { IfOk result (λ new. IsSound graph.now new) }
    {
        Ok(DepthFirst {
            looked: vec![in alloc; 0; graph.len()]?,
            done: vec![in alloc; false; graph.len()]?,
            order: Vec::new(alloc),
        })
    }

    // Returns a node that a node leads to and that isn't done, and looks no more at those before it.
    fn next_left(&mut self, graph: &[List<usize>], node: usize) -> Option<usize>
        requires nodes { AreNodes graph.now }
        requires sound { IsSound graph.now self.old }
        requires there { node < length graph.now }
        ensures sound { IsSound graph.now self.new }
        ensures same { self.new.order.items ≡ self.old.order.items }
        ensures left { MatchOption result (LeadsInto graph.now self.new.order.items node)
            (λ next. Contains (next_of graph.now node) next
            × (has self.new.order.items next ≡ false)) }
    {
        let nodes = graph[node].as_slice();
        let place = first_left(nodes, self.looked[node], self.done.as_slice());
        self.looked[node] = place;
        nodes.get(place).copied()
    }

    // Puts a node after the order.
    fn close(&mut self, node: usize) -> Result<(), AllocError>
        requires { node < length self.old.done.items }
        ensures order { IfOk result (λ _.
            self.new.order.items ≡ self.old.order.items ++ node ∷ []) }
        ensures done { IfOk result (λ _.
            self.new.done.items ≡ slice_set self.old.done.items node true) }
        ensures looked { self.new.looked.items ≡ self.old.looked.items }
    {
        self.order.push(node)?;
        self.done[node] = true;
        Ok(())
    }

    // Puts a node after the order if all is there that it leads to, and tells whether it did.
    fn close_ready(&mut self, graph: &[List<usize>], node: usize) -> Result<bool, AllocError>
        requires nodes { AreNodes graph.now }
        requires sound { IsSound graph.now self.old }
        requires there { node < length graph.now }
        requires left { has self.old.order.items node ≡ false }
        ensures { IfOk result (λ closed. IsTried graph.now self.old self.new node closed) }
    {
        match self.next_left(graph, node) {
            Some(_) => Ok(false),
            None => {
                self.close(node)?;
                Ok(true)
            }
        }
    }

    // Puts a node after the order once all is there that it leads to, and so on; or tells that a node is on a closed
    // walk, since a path passes more nodes than there are.
    fn finish(
        &mut self,
        alloc: Global,
        graph: &[List<usize>],
        start: usize,
    ) -> Result<bool, AllocError>
        requires nodes { AreNodes graph.now }
        requires sound { IsSound graph.now self.old }
        requires there { start < length graph.now }
        ensures { IfOk result (λ finished. IsFinished graph.now self.old self.new start finished) }
    {
        if self.done[start] {
            return Ok(true);
        }
        if self.close_ready(graph, start)? {
            return Ok(true);
        }
        let mut path = vec![in alloc; start]?;
        while let Some(node) = path.pop() {
            let Some(next) = self.next_left(graph, node) else {
                self.close(node)?;
                continue;
            };
            if path.len() + 1 == graph.len() {
                return Ok(false);
            }
            path.push(node)?;
            path.push(next)?;
        }
        Ok(true)
    }
}

/// Finds an order of all nodes of a graph in which each leads only to nodes before it; there is none if a node is on
/// a closed walk. Fails for want of memory alone.
pub fn order(alloc: Global, graph: &[List<usize>]) -> Result<Option<Vec<usize>>, AllocError>
    requires { AreNodes graph.now }
    ensures { IfOk result (λ found. IsOrderFound graph.now found) }
{
    let mut search = DepthFirst::new(alloc, graph)?;
    for node in 0..graph.len() {
        if !search.finish(alloc, graph, node)? {
            return Ok(None);
        }
    }
    Ok(Some(search.order))
}
