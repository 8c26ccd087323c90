// The laws that the contexts of runs are near sites, and that plans made of such contexts choose near sites.
ghost use Rattle.std.specs.Prelude.{ℕ, List};
ghost use Rattle.plan_core.specs.declared.types.Plan.{Plan};
ghost use Rattle.plan_core.specs.declared.profiles.Event.{Event};
ghost use Rattle.sym_spec.specs.SymMachine.{SymMachine};
ghost use Rattle.heap_trace.specs.Events.{Traced};
ghost use Rattle.heap_trace.specs.Traces.{Leads};
ghost use Rattle.plan_making.specs.Plans.{AreNearSites, IsMade};
ghost use Rattle.tidy_runs.specs.Tidy.{AreNear};

/// The contexts of a file's run have addresses of near sites of the file alone, also where each turn has an input of
/// its own.
pub fn contexts_of_runs_are_near_sites()
    ensures { (file : List ℕ) (plan : Plan) (n : ℕ) (m : SymMachine) (t : Traced) (events : List Event)
        → Leads file plan n m t events → AreNearSites file t.contexts }
{}

/// A plan that is made of contexts chooses near sites alone where the contexts' addresses are those of near sites: so in
/// a tidy run under it the bits at a grant are the chosen sites on the context of the grant.
pub fn plans_of_near_sites_choose_near_sites_alone()
    ensures { (file : List ℕ) (contexts : List (List ℕ)) (plan : Plan) → IsMade contexts plan
        → AreNearSites file contexts → AreNear file plan.sites }
{}
