// The plan of a profile.
ghost use Rattle.std.specs.Prelude.{◌≡◌, ◌^◌, ◌<◌, ◌≤◌, length, IfOk};
ghost use Rattle.plan_core.specs.Graphs.{IsOrdered};
ghost use Rattle.plan_making.specs.Plans.{IsPlanFor, IsMade};

use group_policy::{Cut, Policy, Rule};
use grouping::{Options, group};
use plan_core::{Area, Groups, Plan, Profile};
use selectors::select;
use std::alloc::{AllocError, Global};

/// A plan, and the groups for which it was made.
#[derive(Drop)]
pub struct Planned {
    pub groups: Groups,
    pub plan: Plan,
}

/// The groups that the policy makes of a profile, and the plan for them: their rows and sites, with this area. It has
/// at most 32 sites and 64 rows.
pub fn make_plan(
    alloc: Global,
    profile: &Profile,
    area: Area,
    options: &Options,
    policy: &Policy,
) -> Result<Planned, AllocError>
    requires tolerance { options.now.tolerance ≤ 150 }
    requires least_edge { (1 ≤ options.now.least_edge) × (options.now.least_edge ≤ 2 ^ 44) }
    requires few { length profile.now.contexts < 2 ^ 32 }
    requires sizes { length profile.now.graph.nodes ≡ length profile.now.contexts }
    requires ordered { IsOrdered profile.now.graph }
    ensures plan { IfOk result (λ planned.
        IsPlanFor (λ cut answer. ⟦<Rule as Fn(Cut) -> i128>⟧.post policy.now.rule cut answer)
        profile.now area options.now planned.groups planned.plan) }
    ensures made { IfOk result (λ planned. IsMade profile.now.contexts planned.plan) }
{
    let groups = group(alloc, &profile.graph, policy, options)?;
    let selected = select(alloc, profile, &groups)?;
    let plan = Plan {
        sites: selected.sites,
        rows: selected.rows,
        area,
    };
    Ok(Planned { groups, plan })
}
