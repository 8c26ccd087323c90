// The optimised file of a profile.
ghost use Rattle.std.specs.Prelude.{◌≡◌, ◌^◌, ◌≤◌, length, IfOk};
ghost use Rattle.plan_core.specs.Plan.{granules};
ghost use Rattle.profile_text.specs.Profile.{IsProfile};
ghost use Rattle.exec_image.specs.Images.{IsAccepted};
ghost use Rattle.rewriter.specs.Rewrites.{IsRewritten};
ghost use Rattle.plan_making.specs.Plans.{AreNearSites, IsPlanFor};
ghost use Rattle.tidy_runs.specs.Tidy.{AreNear};

use crate::contexts::plans_of_near_sites_choose_near_sites_alone;
use group_policy::{Cut, Policy, Rule};
use grouping::Options;
use plan_core::{Area, Groups, Plan, Profile};
use plan_making::{Planned, make_plan, plans_of_near_sites_fit};
use rewriter::{RewriteRefusal, rewrite};
use std::alloc::{AllocError, Global};

/// A file that was rewritten by a plan of its profile.
#[derive(Drop)]
pub struct Optimised {
    /// The groups for which the plan was made.
    pub groups: Groups,
    /// The plan.
    pub plan: Plan,
    /// The new file.
    pub file: Vec<u8>,
}

/// The new file of an accepted executable of at most 33554432 bytes under the plan of its profile: the policy makes
/// groups of the profile's contexts, and the plan has their rows and sites, and this area. As the contexts name near
/// sites of the file alone, the plan fits, and the one failure is want of memory.
pub fn optimise(
    alloc: Global,
    file: &[u8],
    profile: &Profile,
    area: Area,
    options: &Options,
    policy: &Policy,
) -> Result<Optimised, AllocError>
    requires accepted { IsAccepted file.now }
    requires short { length file.now ≤ 33554432 }
    requires profile { IsProfile profile.now }
    requires near { AreNearSites file.now profile.now.contexts }
    requires log_chunk { area.log_chunk ≤ 20 }
    requires chunks { area.chunks ≤ 256 }
    requires area { granules area ≤ 1048576 }
    requires tolerance { options.now.tolerance ≤ 150 }
    requires least_edge { (1 ≤ options.now.least_edge) × (options.now.least_edge ≤ 2 ^ 44) }
    ensures plan { IfOk result (λ made.
        IsPlanFor (λ cut answer. ⟦<Rule as Fn(Cut) -> i128>⟧.post policy.now.rule cut answer)
        profile.now area options.now made.groups made.plan) }
    ensures near { IfOk result (λ made. AreNear file.now made.plan.sites) }
    ensures new { IfOk result (λ made. IsRewritten file.now made.plan made.file.items) }
{
    plans_of_near_sites_fit();
    plans_of_near_sites_choose_near_sites_alone();
    let Planned { groups, plan } = make_plan(alloc, profile, area, options, policy)?;
    match rewrite(alloc, file, &plan) {
        Ok(new) => Ok(Optimised {
            groups,
            plan,
            file: new,
        }),
        Err(why) => match why {
            RewriteRefusal::Memory => Err(AllocError),
            _ => unreachable!(),
        },
    }
}
