// The laws of the simulation, each a function that does nothing, whose contract is proved.
ghost use Rattle.std.specs.Prelude.{◌≡◌, ℕ, List};
ghost use Rattle.plan_core.specs.declared.types.Plan.{Plan};
ghost use Rattle.match_spec.specs.Keeps.{Keeps};
ghost use Rattle.match_spec.specs.Steps.{FollowsEachTurn};
ghost use Rattle.simulation.specs.Ground.{Ground};

/// A new file that is laid out as its source's plan says keeps the behaviour of its source from the start on, and
/// follows each turn from all states that match.
pub fn a_new_file_on_its_ground_keeps_behaviour()
    ensures keeps { (file : List ℕ) (plan : Plan) (new : List ℕ) → Ground file plan new → Keeps file plan new }
    ensures follows { (file : List ℕ) (plan : Plan) (new : List ℕ) → Ground file plan new
        → FollowsEachTurn file plan new }
{}
