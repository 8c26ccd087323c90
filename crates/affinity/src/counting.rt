// The weights of pairs of contexts, and what one entry adds to them.
ghost use Rattle.std.specs.Prelude.{◌≡◌, ℕ, ◌+◌, ◌*◌, ◌-◌, ◌^◌, ◌<◌, ◌≤◌, if◌then◌else◌, length, drop, slice_index};
ghost use Rattle.std.specs.Prelude.{slice_index_or, All, List, min, max};
ghost use Rattle.indexmap.specs.IndexMap.{spare};
ghost use Rattle.affinity.specs.declared.entries.Entry.{Entry};
ghost use Rattle.affinity.specs.State.{same_pair, weight_at};
ghost use Rattle.affinity.specs.Weights.{block_at};
ghost use Rattle.affinity.specs.Near.{counts_newest, near_count};
ghost use Rattle.affinity.specs.Follows.{Follows};

use crate::entries::Pair;
use crate::grants::Grants;
use crate::ring::Ring;
use indexmap::IndexMap;

/// The weight of each pair of contexts that has one, in the order of their first count.
pub type Weights = IndexMap<Pair, u64>;

// The pair of two contexts.
fn pair_of(b: u32, c: u32) -> Pair
    ensures { result ≡ record { low = min b c; high = max b c } }
{
    Pair {
        low: b.min(c),
        high: b.max(c),
    }
}

// Raises the weight of a pair by one, without taking memory.
fn raise(weights: &mut Weights, pair: Pair)
    requires room { 0 < spare weights.old }
    requires small { weight_at weights.old.entries pair.low pair.high < 2 ^ 60 }
    ensures weights { (low high : ℕ) → weight_at weights.new.entries low high
        ≡ weight_at weights.old.entries low high
        + (if same_pair (record { low = low; high = high }) pair then 1 else 0) }
    ensures counted { All (λ e. 0 < e.1) weights.old.entries → All (λ e. 0 < e.1) weights.new.entries }
    ensures room_left { spare weights.old ≤ spare weights.new + 1 }
{
    if let Some(weight) = weights.get_mut(&pair) {
        *weight += 1;
        return;
    }
    let _ = weights.insert(pair, 1);
}

// Counts a kept entry with the last one, which is of this block, if it counts.
fn count_entry(weights: &mut Weights, grants: &Grants, ring: &Ring, block: u32, at: usize)
    requires follows { (distance : ℕ) × (es : List Entry) × Follows distance ring.now es }
    requires inside { at < length ring.now.entries }
    requires known { block < length grants.now.contexts }
    requires other_known { block_at ring.now.entries at < length grants.now.contexts }
    requires room { 0 < spare weights.old }
    requires small { (low high : ℕ) → weight_at weights.old.entries low high < 2 ^ 60 }
    ensures weights { (low high : ℕ) → weight_at weights.new.entries low high ≡ weight_at weights.old.entries low high
        + (if counts_newest grants.now.contexts block low high
        (block_at ring.now.entries at) (drop (at + 1) ring.now.entries) then 1 else 0) }
    ensures counted { All (λ e. 0 < e.1) weights.old.entries → All (λ e. 0 < e.1) weights.new.entries }
    ensures room_left { spare weights.old ≤ spare weights.new + 1 }
{
    let other = ring.block(at);
    if ring.is_newest(at) && grants.are_co_allocatable(other, block) {
        raise(
            weights,
            pair_of(grants.context(other), grants.context(block)),
        );
    }
}

/// Counts the last entry, which is of this block, with those in reach of it, without taking memory.
pub fn count_near(weights: &mut Weights, grants: &Grants, ring: &Ring, block: u32)
    requires follows { (distance : ℕ) × (es : List Entry) × Follows distance ring.now es }
    requires some { 0 < length ring.now.entries }
    requires known { All (λ e. e.block < length grants.now.contexts) ring.now.entries }
    requires block_known { block < length grants.now.contexts }
    requires room { length ring.now.entries ≤ spare weights.old + 1 }
    requires small { (low high : ℕ) → weight_at weights.old.entries low high
        + near_count grants.now.contexts block low high ring.now.entries < 2 ^ 60 }
    ensures weights { (low high : ℕ) → weight_at weights.new.entries low high
        ≡ weight_at weights.old.entries low high + near_count grants.now.contexts block low high ring.now.entries }
    ensures counted { All (λ e. 0 < e.1) weights.old.entries → All (λ e. 0 < e.1) weights.new.entries }
{
    for at in 0..ring.len() - 1 {
        count_entry(weights, grants, ring, block, at);
    }
}
