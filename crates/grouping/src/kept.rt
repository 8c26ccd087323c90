// The kept edges of a graph, the weights of their loops, and the edge that starts a group.
ghost use Rattle.std.specs.Prelude.{◌≡◌, ◌↔◌, ◌<◌, length, IsTrue, IfOk};
ghost use Rattle.grouping.specs.Weights.{kept_edges};
ghost use Rattle.grouping.specs.Choosing.{heavier_of, IsIdleEdge, FindsHeaviest};
ghost use Rattle.grouping.specs.Growing.{AreEdges, AreLoops, AreKept};

use plan_core::Edge;
use std::alloc::{AllocError, Global};

/// Some edges of a graph, and the weight of each context's edge to itself.
#[derive(Drop)]
pub struct Kept {
    /// The edges; their pairs of ends ascend.
    pub edges: Vec<Edge>,
    /// The weights of the loops, 0 where there is none.
    pub loops: Vec<u64>,
}

impl Kept {
    /// The edges of at least the least weight, of a graph of so many contexts.
    pub fn new(
        alloc: Global,
        edges: &[Edge],
        least: u64,
        contexts: usize,
    ) -> Result<Kept, AllocError>
        requires edges { AreEdges contexts edges.now }
        ensures edges { IfOk result (λ kept. kept.edges.items ≡ kept_edges least edges.now) }
        ensures kept { IfOk result (AreKept contexts) }
    {
        let edges = heavy(alloc, edges, least)?;
        let loops = loop_weights(alloc, edges.as_slice(), contexts)?;
        Ok(Kept { edges, loops })
    }
}

// The edges of at least the least weight.
fn heavy(alloc: Global, edges: &[Edge], least: u64) -> Result<Vec<Edge>, AllocError>
    ensures { IfOk result (λ heavy. heavy.items ≡ kept_edges least edges.now) }
{
    edges
        .iter()
        .filter(|e| least <= e.weight)
        .copied()
        .collect(alloc)
}

// The weight of each context's edge to itself, 0 where there is none.
fn loop_weights(alloc: Global, edges: &[Edge], contexts: usize) -> Result<Vec<u64>, AllocError>
    requires edges { AreEdges contexts edges.now }
    ensures { IfOk result (λ loops. (length loops.items ≡ contexts) × AreLoops edges.now loops.items) }
{
    let mut loops = vec![in alloc; 0u64; contexts]?;
    for edge in edges {
        if edge.low == edge.high {
            loops[edge.low as usize] += edge.weight;
        }
    }
    Ok(loops)
}

/// The heaviest edge whose ends aren't busy, the first of equal ones.
pub fn heaviest(edges: &[Edge], busy: &[bool]) -> Option<Edge>
    requires edges { AreEdges (length busy.now) edges.now }
    ensures { FindsHeaviest edges.now busy.now result }
{
    let mut best: Option<Edge> = None;
    for edge in edges {
        if is_idle(*edge, busy) {
            best = heavier(best, *edge);
        }
    }
    best
}

// Both ends of an edge aren't busy.
fn is_idle(edge: Edge, busy: &[bool]) -> bool
    requires { (edge.low < length busy.now) × (edge.high < length busy.now) }
    ensures { IsTrue result ↔ IsIdleEdge busy.now edge }
{
    !busy[edge.low as usize] && !busy[edge.high as usize]
}

// The heavier of two edges, the first of equal ones.
fn heavier(best: Option<Edge>, edge: Edge) -> Option<Edge>
    ensures { result ≡ heavier_of best edge }
{
    match best {
        Some(other) => {
            if other.weight < edge.weight {
                Some(edge)
            } else {
                Some(other)
            }
        }
        None => Some(edge),
    }
}
