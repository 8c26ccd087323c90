// How many blocks a profiled run was granted.
ghost use Rattle.std.specs.Prelude.{◌≡◌, ◌^◌, ◌<◌, ℕ, List, length, sum_by};
ghost use Rattle.plan_core.specs.declared.profiles.Event.{Event as EventValue};
ghost use Rattle.plan_core.specs.declared.profiles.Graph.{Graph};
ghost use Rattle.affinity.specs.Graphs.{IsGraph};
ghost use Rattle.affinity.specs.Histories.{Legal, contexts_of};

use affinity::a_new_number_is_one_more;
use plan_core::Profile;

/// The nodes of the graph of a legal list of events count each grant once, and there are fewer than 2^32 grants.
pub fn every_grant_is_counted_once()
    ensures once { (distance : ℕ) (h : List EventValue) (g : Graph) → Legal h → IsGraph distance h g
        → sum_by (λ node. node.grants) g.nodes ≡ length (contexts_of h) }
    ensures few { (h : List EventValue) → Legal h → length (contexts_of h) < 2 ^ 32 }
{
    a_new_number_is_one_more();
}

/// How many grants the contexts of a profile have together.
pub fn total_grants(profile: &Profile) -> u64
    requires { sum_by (λ node. node.grants) profile.now.graph.nodes < 2 ^ 64 }
    ensures { result ≡ sum_by (λ node. node.grants) profile.now.graph.nodes }
{
    let nodes = profile.graph.nodes.as_slice();
    let mut total = 0;
    for k in 0..nodes.len() {
        total += nodes[k].grants;
    }
    total
}
