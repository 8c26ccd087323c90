// Groups, one after the other.
ghost use Rattle.std.specs.Prelude.{◌≡◌, ℕ, List, ◌^◌, ◌<◌, ◌≤◌, ◌++◌, [], ◌∷◌, length, vec_len, All, IfOk, OnOk};
ghost use Rattle.std.specs.Prelude.{slice_set, true};
ghost use Rattle.plan_core.specs.Graphs.{IsOrdered};
ghost use Rattle.grouping.specs.Weights.{kept_edges, with_member};
ghost use Rattle.grouping.specs.Greedy.{Starts, Grown, Formed, Greedy, ends};
ghost use Rattle.grouping.specs.Connected.{IsConnected};
ghost use Rattle.grouping.specs.Growing.{AreKept, IsCounted, Marks};

use crate::choice::best;
use crate::growth::Growth;
use crate::kept::{Kept, heaviest};
use group_policy::{Cut, Policy, Rule};
use plan_core::{Edge, Graph, Groups, Members};
use std::alloc::{AllocError, Global};

// How many groups there are at most.
const GROUPS: usize = 16;

/// How groups are made.
#[derive(Clone, Copy, Debug, PartialEq, Eq, Hash)]
pub struct Options {
    /// How many thousandths of the density a group may lose by a candidate, at most 150.
    pub tolerance: u16,
    /// The least weight of a kept edge, from 1 to `2^44`.
    pub least_edge: u64,
}

/// The groups of a graph's contexts that are made greedily by a policy: at most 16, of at most eight members each.
pub fn group(
    alloc: Global,
    graph: &Graph,
    policy: &Policy,
    options: &Options,
) -> Result<Groups, AllocError>
    requires tolerance { options.now.tolerance ≤ 150 }
    requires least_edge { (1 ≤ options.now.least_edge) × (options.now.least_edge ≤ 2 ^ 44) }
    requires few { length graph.now.nodes < 2 ^ 32 }
    requires ordered { IsOrdered graph.now }
    ensures greedy { IfOk result (Greedy (λ cut answer. ⟦<Rule as Fn(Cut) -> i128>⟧.post policy.now.rule cut answer)
        options.now.tolerance (length graph.now.nodes) (kept_edges options.now.least_edge graph.now.edges)) }
    ensures connected { IfOk result (λ groups. All (IsConnected (kept_edges options.now.least_edge graph.now.edges))
        groups) }
{
    let contexts = graph.nodes.as_slice().len();
    let kept = Kept::new(alloc, graph.edges.as_slice(), options.least_edge, contexts)?;
    let mut busy = vec![in alloc; false; contexts]?;
    make(alloc, &kept, busy.as_mut_slice(), policy, options.tolerance)
}

// All groups of the kept edges.
fn make(
    alloc: Global,
    kept: &Kept,
    busy: &mut [bool],
    policy: &Policy,
    tolerance: u16,
) -> Result<Groups, AllocError>
    requires kept { AreKept (length busy.old) kept.now }
    requires few { length busy.old < 2 ^ 32 }
    requires tolerance { tolerance ≤ 150 }
    requires marks { Marks busy.old [] }
    ensures { IfOk result (Greedy (λ cut answer. ⟦<Rule as Fn(Cut) -> i128>⟧.post policy.now.rule cut answer)
        tolerance (length busy.old) kept.now.edges.items) }
{
    let mut groups = Groups::new(alloc);
    for _ in 0..GROUPS {
        let Some(edge) = heaviest(kept.edges.as_slice(), busy) else {
            return Ok(groups);
        };
        let growth = start(alloc, kept, busy, edge)?;
        let members = fill(growth, kept, busy, policy, tolerance)?;
        groups.push(Members::from(members))?;
    }
    Ok(groups)
}

// Adds a member and marks it.
fn take(growth: &mut Growth, kept: &Kept, busy: &mut [bool], context: u32) -> Result<(), AllocError>
    requires kept { AreKept (length busy.old) kept.now }
    requires counted { IsCounted kept.now.edges.items growth.old }
    requires sizes { vec_len growth.old.cross ≡ length busy.old }
    requires room { vec_len growth.old.members < 8 }
    requires context { context < length busy.old }
    ensures counted { OnOk result (IsCounted kept.now.edges.items growth.new) }
    ensures members { OnOk result (growth.new.members.items ≡ with_member context growth.old.members.items) }
    ensures busy { OnOk result (busy.new ≡ slice_set busy.old context true) }
    ensures sizes { vec_len growth.new.cross ≡ length busy.old }
{
    growth.join(kept, context)?;
    busy[context as usize] = true;
    Ok(())
}

// The group that an edge starts.
fn start(alloc: Global, kept: &Kept, busy: &mut [bool], edge: Edge) -> Result<Growth, AllocError>
    requires kept { AreKept (length busy.old) kept.now }
    requires edge { (edge.low ≤ edge.high) × (edge.high < length busy.old) }
    ensures counted { IfOk result (IsCounted kept.now.edges.items) }
    ensures members { IfOk result (λ g. g.members.items ≡ ends edge) }
    ensures sizes { IfOk result (λ g. vec_len g.cross ≡ length busy.old) }
    ensures marks { (groups : List (List ℕ)) → Marks busy.old groups
        → OnOk result (Marks busy.new (groups ++ ends edge ∷ [])) }
{
    let mut growth = Growth::new(alloc, busy.len())?;
    take(&mut growth, kept, busy, edge.low)?;
    if edge.low == edge.high {
        return Ok(growth);
    }
    take(&mut growth, kept, busy, edge.high)?;
    Ok(growth)
}

// The members of a group when no more join it.
fn fill(
    mut growth: Growth,
    kept: &Kept,
    busy: &mut [bool],
    policy: &Policy,
    tolerance: u16,
) -> Result<Vec<u32>, AllocError>
    requires kept { AreKept (length busy.old) kept.now }
    requires counted { IsCounted kept.now.edges.items growth }
    requires sizes { (vec_len growth.cross ≡ length busy.old) × (length busy.old < 2 ^ 32) }
    requires members { (1 ≤ vec_len growth.members) × (vec_len growth.members ≤ 8) }
    requires tolerance { tolerance ≤ 150 }
    ensures { (groups : List (List ℕ)) → Marks busy.old (groups ++ growth.members.items ∷ []) →
        Grown (λ cut answer. ⟦<Rule as Fn(Cut) -> i128>⟧.post policy.now.rule cut answer)
        tolerance (length busy.old) kept.now.edges.items groups growth.members.items →
        IfOk result (λ members.
        Formed (λ cut answer. ⟦<Rule as Fn(Cut) -> i128>⟧.post policy.now.rule cut answer)
        tolerance (length busy.old) kept.now.edges.items groups members.items
        × Marks busy.new (groups ++ members.items ∷ [])) }
{
    while growth.members.len() < 8 {
        let Some(next) = best(&growth, kept, busy, policy, tolerance) else {
            return Ok(growth.members);
        };
        take(&mut growth, kept, busy, next)?;
    }
    Ok(growth.members)
}
