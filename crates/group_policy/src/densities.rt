// The density rule: a candidate joins where the group's density falls by no more than the tolerance.
ghost use Rattle.std.specs.Prelude.{◌≡◌, ◌*◌, ◌-◌, ◌^◌, ◌<◌, ◌≤◌, pos, ◌-ℤ◌};
ghost use Rattle.group_policy.specs.Cuts.{InRange, IsFair};
ghost use Rattle.group_policy.specs.Densities.{own_loop, places, score_of, density_of, QuotientsAreWhole};

use crate::cut::Cut;

// The least common multiple of 1 to 36: each number of places of up to eight members divides it.
const SCALE: u128 = 144403552893600;

/// A thousand times the density of the group with the candidate, less `1000 - tolerance` times the greater of the
/// densities of the group and of the candidate alone. A density is the weight inside by the number of loops and
/// pairs of members, times 144403552893600, so that it is a whole number; with no loop and no pair it is 0.
pub fn density(cut: Cut) -> i128
    requires { InRange cut }
    ensures value { result ≡ density_of cut }
    ensures whole { QuotientsAreWhole cut }
    ensures fair { IsFair cut result }
{
    let own_loop = loops_of(cut.node_loop);
    let group = score(cut.weight, places_of(cut.nodes, cut.loops));
    let node = score(cut.node_loop, places_of(1, own_loop));
    let both = score(
        cut.weight + cut.node_loop + cut.cross,
        places_of(cut.nodes + 1, cut.loops + own_loop),
    );
    gain(both, cut.tolerance, group.max(node))
}

// How many loops a candidate has whose loop has this weight.
fn loops_of(weight: u64) -> u8
    ensures { result ≡ own_loop weight }
{
    u8::from(weight > 0)
}

// How many loops and pairs of members there are.
fn places_of(nodes: u8, loops: u8) -> u8
    requires few { nodes ≤ 8 }
    requires loops { loops ≤ nodes }
    ensures value { result ≡ places nodes loops }
    ensures few { result ≤ 36 }
{
    loops + nodes * nodes.saturating_sub(1) / 2
}

// The weight by the number of places, scaled.
fn score(weight: u64, places: u8) -> u128
    requires { places ≤ 36 }
    ensures value { result ≡ score_of weight places }
{
    if places == 0 {
        return 0;
    }
    u128::from(weight) * (SCALE / u128::from(places))
}

// What the density gains.
fn gain(both: u128, tolerance: u16, most: u128) -> i128
    requires both { both < 2 ^ 97 }
    requires most { most < 2 ^ 97 }
    requires tolerance { tolerance ≤ 1000 }
    ensures { result ≡ pos (1000 * both) -ℤ pos ((1000 - tolerance) * most) }
{
    let gained = 1000 * both;
    let lost = u128::from(1000 - tolerance) * most;
    gained as i128 - lost as i128
}
