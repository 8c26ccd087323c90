// The options of a line by their meaning, and what a line must give beside what the table of commands asks.
ghost use Rattle.std.specs.Prelude.{◌≡◌, ◌^◌, ◌<◌, ◌≤◌, length, map, string_bytes, IfSome, MatchOption};
ghost use Rattle.plan_core.specs.Plan.{granules as granules_in};
ghost use Rattle.halo_words.specs.Table.{the_table};
ghost use Rattle.halo_words.specs.Grammar.{texts, AsksFor};
ghost use Rattle.halo_cli.specs.Options.{number_in, area_in, options_in, policy_of, place_named, has_policy};
ghost use Rattle.halo_cli.specs.Valid.{Passes, IsLastWrong};

use group_policy::Policy;
use grouping::Options;
use halo_words::{Values, place_of_value};
use plan_core::Area;
use text_fields::number;

/// The most granules of a heap's area.
const GRANULES: u64 = 1_048_576;

/// The policy of a line that gives none.
const DEFAULT_POLICY: &str = "density";

/// The number in the value of an option, up to a greatest one; 0 where there is none.
pub fn number_of(values: &Values<'_>, name: &str, most: u64) -> u64
    requires { most < 2 ^ 59 }
    ensures value { result ≡ number_in most values.now.given name.now }
    ensures within { result ≤ most }
{
    match number(values.option(name).as_bytes(), most) {
        Some(n) => n,
        None => 0,
    }
}

/// The heap's area.
pub fn area_of(values: &Values<'_>) -> Area
    ensures value { result ≡ area_in values.now.given }
    ensures chunks { result.chunks ≤ 256 }
    ensures log_chunk { result.log_chunk ≤ 20 }
    ensures fallback { result.fallback ≤ 1048576 }
{
    Area {
        chunks: number_of(values, "chunks", 256) as u32,
        log_chunk: number_of(values, "log", 20) as u8,
        fallback: number_of(values, "fallback", 1_048_576) as u32,
    }
}

/// How groups are made.
pub fn options_of(values: &Values<'_>) -> Options
    ensures value { result ≡ options_in values.now.given }
    ensures tolerance { result.tolerance ≤ 150 }
    ensures least_edge { result.least_edge ≤ 17592186044416 }
{
    Options {
        tolerance: number_of(values, "tolerance", 150) as u16,
        least_edge: number_of(values, "edge", 17_592_186_044_416),
    }
}

/// The name of the policy that a line uses: that of its option, or the default of `self`, which has no option for it;
/// empty where the command uses none.
pub fn policy_name<'a>(values: &Values<'a>) -> &'a str
    ensures { result.now ≡ policy_of values.now }
{
    if values.word() == "self" {
        DEFAULT_POLICY
    } else {
        values.option("policy")
    }
}

/// The place of the first policy of a name.
pub fn find_policy(policies: &[Policy], name: &str) -> Option<usize>
    ensures place { result ≡ place_named (map (λ policy. string_bytes policy.name) policies.now) name.now }
    ensures within { IfSome result (λ k. k < length policies.now) }
{
    for k in 0..policies.len() {
        if policies[k].name() == name {
            return Some(k);
        }
    }
    None
}

/// The place of the first word that is wrong in a line of the table: that of the name of a policy that isn't there, or
/// the number of words, where the name is the default or the area is too large.
pub fn last_wrong(words: &[String], values: &Values<'_>, policies: &[Policy]) -> Option<u64>
    ensures { (asks : AsksFor the_table (texts words.now) values.now) → MatchOption result
        (Passes (map (λ policy. string_bytes policy.name) policies.now) values.now)
        (λ place. IsLastWrong (map (λ policy. string_bytes policy.name) policies.now) (texts words.now) values.now asks
        place) }
{
    if !is_there(policies, policy_name(values)) {
        return Some(place_of_value(words, "policy"));
    }
    if granules(area_of(values)) > GRANULES {
        return Some(words.len() as u64);
    }
    None
}

// Whether a command uses no policy, or there is one of this name.
fn is_there(policies: &[Policy], name: &str) -> bool
    ensures { result ≡ has_policy (map (λ policy. string_bytes policy.name) policies.now) name.now }
{
    name.is_empty() || find_policy(policies, name).is_some()
}

// How many granules an area has.
fn granules(area: Area) -> u64
    requires chunks { area.chunks ≤ 256 }
    requires log_chunk { area.log_chunk ≤ 20 }
    requires fallback { area.fallback ≤ 1048576 }
    ensures { result ≡ granules_in area }
{
    u64::from(area.fallback) + u64::from(area.chunks) * (1u64 << area.log_chunk)
}
