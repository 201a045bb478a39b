//! Which nodes are on closed walks, by a search in depth that doesn't recurse, and that joins nodes that reach one
//! another.

ghost use Rattle.std.specs.Prelude.{◌≡◌, ◌≢◌, ◌<◌, ℕ, [], ◌∷◌, length, map, IfOk, Contains, true, false};
ghost use Rattle.std.specs.List.{range_with_len};
ghost use Rattle.isle_walks.specs.Walks.{AreNodes, AreClosedTold, next_of};
ghost use Rattle.isle_walks.specs.Sound.{has};
ghost use Rattle.isle_walks.specs.Parts.{mark_of, tells_closed, IsSearched, IsLast, IsNext, IsIdle};
ghost use Rattle.isle_walks.specs.Parts.{AreAllDone, left_of};
ghost use Rattle.isle_walks.specs.declared.parts.Mark.TheVariants.{New};

use isle_core::List;
use std::alloc::{AllocError, Global};

// How far the search has come with a node.
#[derive(Clone, Copy)]
enum Mark {
    New,
    // It is on the path, at this place.
    Opened(usize),
    // It is done, and is on a closed walk or on none.
    Done(bool),
}

impl Mark {
    // Returns whether it tells of a closed walk.
    fn tells_closed(self) -> bool
        ensures { result ≡ tells_closed self }
    {
        match self {
            Mark::Done(closed) => closed,
            Mark::New | Mark::Opened(_) => false,
        }
    }
}

// Nodes of the path that reach one another, as far as the next part begins.
#[derive(Clone, Copy)]
struct Part {
    // Where on the path it begins.
    begin: usize,
    // Where the nodes begin that wait since this part leads to them.
    from: usize,
}

// How far a search has come.
#[derive(Drop)]
struct Search {
    marks: Vec<Mark>,
    // The nodes that are begun and not done, each reached from those before it.
    path: Vec<usize>,
    parts: Vec<Part>,
    // The nodes that are still to be looked at.
    waiting: Vec<usize>,
}

// Marks all these nodes.
fn mark_all(marks: &mut [Mark], nodes: &[usize], mark: Mark)
    requires there { (node : ℕ) → Contains nodes.now node → node < length marks.old }
    ensures many { length marks.new ≡ length marks.old }
    ensures marked { (node : ℕ) → Contains nodes.now node → mark_of marks.new node ≡ mark }
    ensures same { (node : ℕ) → (Contains nodes.now node → ⊥)
        → mark_of marks.new node ≡ mark_of marks.old node }
{
    for &node in nodes {
        marks[node] = mark;
    }
}

// Returns whether nodes that reach one another are on closed walks: there is more than one, or the one leads to itself.
fn are_closed(graph: &[List<usize>], nodes: &[usize]) -> bool
    requires there { (node : ℕ) → Contains nodes.now node → node < length graph.now }
    ensures more { length nodes.now ≢ 1 → result ≡ true }
    ensures one { (node : ℕ) → nodes.now ≡ node ∷ [] → result ≡ has (next_of graph.now node) node }
{
    match nodes {
        [node] => graph[*node].as_slice().contains(node),
        _ => true,
    }
}

// Numbers so many nodes.
fn nodes_below(alloc: Global, many: usize) -> Result<Vec<usize>, AllocError>
    ensures { IfOk result (λ nodes. nodes.items ≡ range_with_len 0 many) }
{
    (0..many).collect(alloc)
}

impl Search {
    // Begins a search, with no node looked at.
    fn new(alloc: Global, graph: &[List<usize>]) -> Result<Search, AllocError>
        ensures { IfOk result (λ new. IsSearched graph.now new) }
    {
        Ok(Search {
            marks: vec![in alloc; Mark::New; graph.len()]?,
            path: Vec::new(alloc),
            parts: Vec::new(alloc),
            waiting: nodes_below(alloc, graph.len())?,
        })
    }

    // Returns the last part, or an empty one if there is none.
    fn last_part(&self) -> Part
        ensures none { self.now.parts.items ≡ [] → (result.begin ≡ 0) × (result.from ≡ 0) }
        ensures some { IsLast self.now.parts.items result }
    {
        match self.parts.last() {
            Some(part) => *part,
            None => Part { begin: 0, from: 0 },
        }
    }

    // Puts the last node that waits, a new one, on the path, as a part of its own.
    fn enter(&mut self, graph: &[List<usize>], node: usize) -> Result<(), AllocError>
        requires nodes { AreNodes graph.now }
        requires searched { IsSearched graph.now self.old }
        requires there { node < length graph.now }
        requires next { IsNext self.old node }
        requires new { mark_of self.old.marks.items node ≡ New }
        ensures searched { IfOk result (λ _. IsSearched graph.now self.new) }
        ensures less { IfOk result (λ _. left_of graph.now self.new < left_of graph.now self.old) }
    {
        let _ = self.waiting.pop();
        self.marks[node] = Mark::Opened(self.path.len());
        self.parts.push(Part {
            begin: self.path.len(),
            from: self.waiting.len(),
        })?;
        self.path.push(node)?;
        self.waiting.extend_from_slice(graph[node].as_slice())?;
        Ok(())
    }

    // Ends the last part, which no node waits for any more. Returns false if there is none.
    fn finish(&mut self, graph: &[List<usize>]) -> bool
        requires nodes { AreNodes graph.now }
        requires searched { IsSearched graph.now self.old }
        requires idle { IsIdle self.old }
        ensures searched { IsSearched graph.now self.new }
        ensures less { result ≡ true → left_of graph.now self.new < left_of graph.now self.old }
        ensures all { result ≡ false → AreAllDone graph.now self.new.marks.items }
    {
        let Some(part) = self.parts.pop() else {
            return false;
        };
        let nodes = &self.path[part.begin..];
        let closed = are_closed(graph, nodes);
        mark_all(self.marks.as_mut_slice(), nodes, Mark::Done(closed));
        self.path.truncate(part.begin);
        true
    }

    // Looks at the last node that waits. Where it is on the path before the last part, that part joins the one before
    // it.
    fn look(&mut self, graph: &[List<usize>], node: usize, last: Part) -> Result<(), AllocError>
        requires nodes { AreNodes graph.now }
        requires searched { IsSearched graph.now self.old }
        requires there { node < length graph.now }
        requires next { IsNext self.old node }
        requires last { IsLast self.old.parts.items last }
        ensures searched { IfOk result (λ _. IsSearched graph.now self.new) }
        ensures less { IfOk result (λ _. left_of graph.now self.new < left_of graph.now self.old) }
    {
        match self.marks[node] {
            Mark::New => self.enter(graph, node),
            Mark::Opened(place) => {
                if place < last.begin {
                    let _ = self.parts.pop();
                    return Ok(());
                }
                let _ = self.waiting.pop();
                Ok(())
            }
            Mark::Done(_) => {
                let _ = self.waiting.pop();
                Ok(())
            }
        }
    }

    // Goes one step on. Returns false if all nodes are done.
    fn step(&mut self, graph: &[List<usize>]) -> Result<bool, AllocError>
        requires nodes { AreNodes graph.now }
        requires searched { IsSearched graph.now self.old }
        ensures searched { IfOk result (λ _. IsSearched graph.now self.new) }
        ensures less { IfOk result (λ more.
            more ≡ true → left_of graph.now self.new < left_of graph.now self.old) }
        ensures all { IfOk result (λ more.
            more ≡ false → AreAllDone graph.now self.new.marks.items) }
    {
        let last = self.last_part();
        if self.waiting.len() == last.from {
            return Ok(self.finish(graph));
        }
        let node = self.waiting[self.waiting.len() - 1];
        self.look(graph, node, last)?;
        Ok(true)
    }
}

// Reads from the marks of all nodes which are on closed walks.
fn answers(alloc: Global, marks: &[Mark]) -> Result<Vec<bool>, AllocError>
    ensures { IfOk result (λ closed. closed.items ≡ map tells_closed marks.now) }
{
    marks.iter().map(|mark| mark.tells_closed()).collect(alloc)
}

/// Tells of each node of a graph whether it is on a closed walk. Fails for want of memory alone.
pub fn closed_walks(alloc: Global, graph: &[List<usize>]) -> Result<Vec<bool>, AllocError>
    requires { AreNodes graph.now }
    ensures { IfOk result (λ closed. AreClosedTold graph.now closed.items) }
{
    let mut search = Search::new(alloc, graph)?;
    while search.step(graph)? {}
    answers(alloc, search.marks.as_slice())
}
