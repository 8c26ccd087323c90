// Two contexts, each with a heavy loop and a lighter edge to the other.
ghost use Rattle.std.specs.Prelude.{◌≡◌, [], ◌∷◌, length, IfOk};
ghost use Rattle.plan_core.specs.Graphs.{IsOrdered};

use plan_core::{
    Context, ContextList, Edge, EdgeList, Graph, Groups, Members, Node, NodeList, Profile,
};
use std::alloc::{AllocError, Global};

/// The graph of a run that walks two lists of a hundred nodes eight times.
pub fn two_lists(alloc: Global) -> Result<Graph, AllocError>
    ensures nodes { IfOk result (λ graph. length graph.nodes ≡ 2) }
    ensures ordered { IfOk result IsOrdered }
{
    let node = Node {
        grants: 100,
        accesses: 900,
    };
    let edges = [
        Edge {
            low: 0,
            high: 0,
            weight: 792,
        },
        Edge {
            low: 0,
            high: 1,
            weight: 200,
        },
        Edge {
            low: 1,
            high: 1,
            weight: 792,
        },
    ];
    Ok(Graph {
        nodes: NodeList::from(Vec::from_slice(alloc, &[node, node])?),
        edges: EdgeList::from(Vec::from_slice(alloc, &edges)?),
    })
}

/// The profile of that run, whose nodes are granted at two sites.
pub fn two_contexts(alloc: Global) -> Result<Profile, AllocError>
    ensures { IfOk result (λ profile. length profile.contexts ≡ 2) }
{
    let left = Vec::from_slice(alloc, &[0x10110, 0x10174, 0x101c0])?;
    let right = Vec::from_slice(alloc, &[0x10114, 0x10198, 0x101c0])?;
    let mut contexts = ContextList::new(alloc);
    contexts.push(Context::from(left))?;
    contexts.push(Context::from(right))?;
    Ok(Profile {
        distance: 4,
        contexts,
        graph: two_lists(alloc)?,
    })
}

/// Two groups of one context each.
pub fn two_groups(alloc: Global) -> Result<Groups, AllocError>
    ensures { IfOk result (λ groups. groups ≡ (0 ∷ []) ∷ (1 ∷ []) ∷ []) }
{
    let mut groups = Groups::new(alloc);
    groups.push(Members::from(Vec::from_slice(alloc, &[0])?))?;
    groups.push(Members::from(Vec::from_slice(alloc, &[1])?))?;
    Ok(groups)
}
