// The law that plans of near sites fit.
ghost use Rattle.std.specs.Prelude.{ℕ, List, ◌≤◌};
ghost use Rattle.plan_core.specs.declared.types.Plan.{Plan};
ghost use Rattle.plan_core.specs.Plan.{granules};
ghost use Rattle.site_spec.specs.Plans.{Fits};
ghost use Rattle.plan_making.specs.Plans.{IsMade, AreNearSites};

/// A plan that is made of contexts fits a file where the contexts' addresses are near sites of the file and the plan's
/// area is within its limits.
pub fn plans_of_near_sites_fit()
    ensures { (file : List ℕ) (contexts : List (List ℕ)) (plan : Plan) → IsMade contexts plan
        → AreNearSites file contexts → plan.area.log_chunk ≤ 20 → plan.area.chunks ≤ 256
        → granules plan.area ≤ 1048576 → Fits file plan }
{}
