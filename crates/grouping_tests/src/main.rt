// Prints the groups that policies make of two contexts, and the sites and rows that tell them apart.
#![tactic(auto)]

ghost use Rattle.std.specs.Prelude.{◌^◌, ◌<◌, ◌≤◌, length, All, IfOk};
ghost use Rattle.plan_core.specs.Graphs.{IsOrdered};
ghost use Rattle.grouping.specs.Weights.{kept_edges};
ghost use Rattle.grouping.specs.Connected.{IsConnected};
ghost use Rattle.group_policy.specs.Cuts.{InRange, IsFair};

mod lists;

use group_policy::{Cut, Policy, Rule, density};
use grouping::{Options, group};
use lists::{two_contexts, two_groups, two_lists};
use plan_core::{Graph, Groups};
use selectors::select;
use std::alloc::{AllocError, Global};
use std::io;

/// Options by which every edge counts.
const ALL: Options = Options {
    tolerance: 50,
    least_edge: 1,
};

/// The groups by a rule that takes a context whose edges to the group weigh more than `least`.
pub fn groups_above(
    alloc: Global,
    graph: &Graph,
    least: u64,
    options: &Options,
) -> Result<Groups, AllocError>
    requires tolerance { options.now.tolerance ≤ 150 }
    requires least_edge { (1 ≤ options.now.least_edge) × (options.now.least_edge ≤ 2 ^ 44) }
    requires few { length graph.now.nodes < 2 ^ 32 }
    requires ordered { IsOrdered graph.now }
    ensures { IfOk result (λ groups. All (IsConnected (kept_edges options.now.least_edge graph.now.edges)) groups) }
{
    let above: Rule = Box::new(alloc, move |cut: Cut| {
        i128::from(cut.cross.saturating_sub(least))
    })?;
    let policy = Policy::keep(String::from_str(alloc, "above")?, above);
    group(alloc, graph, &policy, options)
}

/// Prints the members of groups.
fn print_groups(rt: &HostRuntime, groups: &Groups) -> io::Result<()> {
    for group in groups.as_slice() {
        print!(rt; " {:?}", group.as_slice())?;
    }
    println!(rt; "")
}

/// Prints what the policy `density` answers of a cut, and the groups that it makes where each edge counts, and
/// where none does.
fn print_density(rt: &HostRuntime) -> io::Result<()> {
    let apart = Cut {
        nodes: 1,
        loops: 1,
        weight: 792,
        node_loop: 792,
        cross: 200,
        tolerance: 50,
    };
    let policy = Policy::keep(
        String::from_str(rt.alloc(), "density")?,
        Box::new(
            rt.alloc(),
            |cut: Cut|
                requires { InRange cut }
                ensures { IsFair cut result }
            { density(cut) },
        )?,
    );
    println!(rt; "{}: {}", policy.name(), policy.ask(apart))?;
    let graph = two_lists(rt.alloc())?;
    print!(rt; "each edge:")?;
    print_groups(rt, &group(rt.alloc(), &graph, &policy, &ALL)?)?;
    let heavier = Options {
        tolerance: 50,
        least_edge: 793,
    };
    print!(rt; "no edge:")?;
    print_groups(rt, &group(rt.alloc(), &graph, &policy, &heavier)?)
}

/// Prints the groups of the rule with this number.
fn print_above(rt: &HostRuntime, least: u64) -> io::Result<()> {
    let graph = two_lists(rt.alloc())?;
    print!(rt; "above {least}:")?;
    print_groups(rt, &groups_above(rt.alloc(), &graph, least, &ALL)?)
}

/// Prints the sites and rows of two groups of one context each.
fn print_selected(rt: &HostRuntime) -> io::Result<()> {
    let profile = two_contexts(rt.alloc())?;
    let groups = two_groups(rt.alloc())?;
    let selected = select(rt.alloc(), &profile, &groups)?;
    println!(rt; "{:?}", selected.sites.as_slice())?;
    println!(rt; "{:?}", selected.rows.as_slice())?;
    println!(rt; "{} dropped", selected.dropped)
}

fn main(rt: HostRuntime) -> io::Result<()> {
    print_density(&rt)?;
    print_above(&rt, 199)?;
    print_above(&rt, 200)?;
    print_selected(&rt)
}
