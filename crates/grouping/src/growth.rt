// A group that grows by one member after the other.
ghost use Rattle.std.specs.Prelude.{◌≡◌, ◌⊎◌, ◌==◌, false, ℕ, ◌+◌, ◌*◌, ◌^◌, ◌<◌, ◌≤◌, [], length, vec_len, IfOk, OnOk};
ghost use Rattle.std.specs.Prelude.{IfNone, IfSome, slice_index};
ghost use Rattle.grouping.specs.Weights.{is_between, weight_between, cut_of, with_member};
ghost use Rattle.grouping.specs.Growing.{AreEdges, AreKept, IsCounted};

use crate::kept::Kept;
use group_policy::Cut;
use plan_core::Edge;
use std::alloc::{AllocError, Global};

/// The members of a group, ascending, with what is known of the edges inside and to each context.
#[derive(Drop)]
pub struct Growth {
    /// The members.
    pub members: Vec<u32>,
    /// How many of them have an edge to themselves.
    pub loops: u8,
    /// The weight of the edges between members.
    pub weight: u64,
    /// The weight of the edges between the members and each context.
    pub cross: Vec<u64>,
}

impl Growth {
    /// No members yet.
    pub fn new(alloc: Global, contexts: usize) -> Result<Growth, AllocError>
        ensures counted { IfOk result (λ g. (edges : _) → IsCounted edges g) }
        ensures members { IfOk result (λ g. (g.members.items ≡ []) × (vec_len g.cross ≡ contexts)) }
    {
        Ok(Growth {
            members: Vec::new(alloc),
            loops: 0,
            weight: 0,
            cross: vec![in alloc; 0u64; contexts]?,
        })
    }

    /// Adds a member.
    pub fn join(&mut self, kept: &Kept, context: u32) -> Result<(), AllocError>
        requires kept { AreKept (vec_len self.old.cross) kept.now }
        requires counted { IsCounted kept.now.edges.items self.old }
        requires room { vec_len self.old.members < 8 }
        requires context { context < vec_len self.old.cross }
        ensures counted { OnOk result (IsCounted kept.now.edges.items self.new) }
        ensures members { OnOk result (self.new.members.items ≡ with_member context self.old.members.items) }
        ensures cross { vec_len self.new.cross ≡ vec_len self.old.cross }
    {
        let own = kept.loops[context as usize];
        let cross = self.cross[context as usize];
        let below = self.members.iter().filter(|m| **m < context).count();
        self.members.insert(below, context)?;
        self.loops += u8::from(own > 0);
        self.weight += own + cross;
        add_edges(&mut self.cross, kept.edges.as_slice(), context);
        Ok(())
    }

    /// What a rule is asked about a candidate with this edge to itself.
    pub fn cut(&self, context: usize, own: u64, tolerance: u16) -> Cut
        requires few { vec_len self.now.members < 8 }
        requires context { context < vec_len self.now.cross }
        ensures { (edges : _) → IsCounted edges self.now → own ≡ weight_between edges context context →
            result ≡ cut_of edges tolerance self.now.members.items context }
    {
        Cut {
            nodes: self.members.len() as u8,
            loops: self.loops,
            weight: self.weight,
            node_loop: own,
            cross: self.cross[context],
            tolerance,
        }
    }
}

// Adds the weight of each edge of a context to what its other end has.
fn add_edges(cross: &mut [u64], edges: &[Edge], context: u32)
    requires edges { AreEdges (length cross.old) edges.now }
    requires small { (y : ℕ) → y < length cross.old → slice_index cross.old y ≤ 7 * 2 ^ 44 }
    ensures { (y : ℕ) → y < length cross.old →
        slice_index cross.new y ≡ slice_index cross.old y + weight_between edges.now y context }
{
    for edge in edges {
        if let Some(other) = other_end(*edge, context) {
            cross[other as usize] += edge.weight;
        }
    }
}

// The other end of an edge that has this end.
fn other_end(edge: Edge, end: u32) -> Option<u32>
    ensures none { IfNone result ((y : ℕ) → is_between y end edge ≡ false) }
    ensures some { IfSome result (λ other. (y : ℕ) → is_between y end edge ≡ (y == other)) }
    ensures an_end { IfSome result (λ other. (other ≡ edge.low) ⊎ (other ≡ edge.high)) }
{
    if edge.low == end {
        Some(edge.high)
    } else if edge.high == end {
        Some(edge.low)
    } else {
        None
    }
}
