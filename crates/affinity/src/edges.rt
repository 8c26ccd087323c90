// A graph, from the nodes and the weights of pairs.
ghost use Rattle.std.specs.Prelude.{◌≡◌, IfOk, OnOk, IsPermutation, IsSorted};
ghost use Rattle.indexmap.specs.IndexMap.{IsUnique};
ghost use Rattle.affinity.specs.State.{same_pair};
ghost use Rattle.affinity.specs.Edges.{edges_in, edge_cmp};

use crate::counting::Weights;
use plan_core::{Edge, EdgeList, Graph, Node, NodeList};
use std::alloc::{AllocError, Global};

// The pairs and their weights as edges, in the order of the table.
fn edges_of(alloc: Global, weights: &Weights) -> Result<Vec<Edge>, AllocError>
    ensures edges { IfOk result (λ v. v.items ≡ edges_in weights.now.entries) }
    ensures unique { OnOk result (IsUnique same_pair weights.now) }
{
    let mut edges = Vec::new(alloc);
    for at in 0..weights.len() {
        match weights.get_index(at) {
            Some((pair, weight)) => edges.push(Edge {
                low: pair.low,
                high: pair.high,
                weight: *weight,
            })?,
            None => (),
        }
    }
    Ok(edges)
}

// A copy of the nodes.
fn copy_nodes(alloc: Global, nodes: &[Node]) -> Result<Vec<Node>, AllocError>
    ensures { IfOk result (λ v. v.items ≡ nodes.now) }
{
    let mut copy = Vec::new(alloc);
    copy.extend_from_slice(nodes)?;
    Ok(copy)
}

/// The graph of these nodes and weights, with its edges in order.
pub fn graph_of(alloc: Global, nodes: &[Node], weights: &Weights) -> Result<Graph, AllocError>
    ensures nodes { IfOk result (λ g. g.nodes ≡ nodes.now) }
    ensures edges { IfOk result (λ g. IsPermutation (edges_in weights.now.entries) g.edges) }
    ensures sorted { IfOk result (λ g. IsSorted edge_cmp g.edges) }
    ensures unique { OnOk result (IsUnique same_pair weights.now) }
{
    let nodes = copy_nodes(alloc, nodes)?;
    let mut edges = edges_of(alloc, weights)?;
    edges.sort_unstable();
    Ok(Graph {
        nodes: NodeList::from(nodes),
        edges: EdgeList::from(edges),
    })
}
