// Events of worked programs, and the graphs that they give.
use crate::Affinity;
use plan_core::{Edge, Event, Graph, Node};
use std::process::Abort;
use std::test::Fail;

// Takes an event that may come next.
fn push(rt: &impl Abort, affinity: &mut Affinity, event: Event) -> Result<(), Fail> {
    assert!(rt; affinity.takes(event));
    affinity.push(event)?;
    Ok(())
}

// Two accesses of four bytes to one block.
fn access_twice(rt: &impl Abort, affinity: &mut Affinity, block: u32) -> Result<(), Fail> {
    push(rt, affinity, Event::Access { block, width: 4 })?;
    push(rt, affinity, Event::Access { block, width: 4 })
}

// The graph as pairs: what each node counts, and the edges.
fn has_graph(graph: &Graph, nodes: &[Node], edges: &[Edge]) -> bool {
    graph.nodes.as_slice() == nodes && graph.edges.as_slice() == edges
}

// A program that grants a hundred blocks in each of two contexts in turn, writes to both words of each,
// and then eight times walks the blocks of the one context and those of the other, from the last on.
#[test]
fn two_lists_of_a_hundred_have_their_weights(rt: HostRuntime) -> Result<(), Fail> {
    let mut affinity = Affinity::new(rt.alloc(), 4);
    assert_eq!(rt; affinity.kept(), 0);
    for block in 0..200 {
        let context = block % 2;
        push(&rt, &mut affinity, Event::Grant { block, context })?;
        access_twice(&rt, &mut affinity, block)?;
    }
    for _ in 0..8 {
        for first in [198, 199] {
            for node in 0..100 {
                access_twice(&rt, &mut affinity, first - 2 * node)?;
            }
        }
    }
    assert_eq!(rt; affinity.kept(), 2);
    let graph = affinity.graph(rt.alloc())?;
    let node = Node {
        grants: 100,
        accesses: 900,
    };
    let edge = |low, high, weight| Edge { low, high, weight };
    assert!(rt;
        has_graph(
            &graph,
            &[node, node],
            &[edge(0, 0, 792), edge(0, 1, 200), edge(1, 1, 792)]
        )
    );
    Ok(())
}

// Widths count up to the entry before the new one; each block counts once, at its last entry; and blocks
// with a grant of either context between them don't count.
#[test]
fn entries_in_reach_count_once(rt: HostRuntime) -> Result<(), Fail> {
    let mut affinity = Affinity::new(rt.alloc(), 16);
    for (block, context) in [(0, 0), (1, 1), (2, 0), (3, 1), (4, 2)] {
        push(&rt, &mut affinity, Event::Grant { block, context })?;
    }
    let accesses = [
        (0, 8),
        (1, 4),
        (0, 4),
        (2, 8),
        (4, 100),
        (3, 1),
        (3, 7),
        (0, 1),
    ];
    for (block, width) in accesses {
        push(&rt, &mut affinity, Event::Access { block, width })?;
    }
    push(&rt, &mut affinity, Event::Release { block: 0 })?;
    assert!(rt; !affinity.takes(Event::Access { block: 0, width: 1 }));
    assert_eq!(rt; affinity.kept(), 2);
    let graph = affinity.graph(rt.alloc())?;
    let node = |grants, accesses| Node { grants, accesses };
    let edge = |low, high, weight| Edge { low, high, weight };
    let nodes = [node(2, 4), node(2, 2), node(1, 1)];
    assert!(rt;
        has_graph(
            &graph,
            &nodes,
            &[edge(0, 0, 1), edge(0, 1, 3), edge(0, 2, 1)]
        )
    );
    Ok(())
}
