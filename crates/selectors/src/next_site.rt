// The site that is added next to a member's set, and the whole set.
ghost use Rattle.std.specs.Prelude.{◌≡◌, ℕ, ◌<◌, ◌≤◌, ◌^◌, nat_lt, IfOk, OnOk};
ghost use Rattle.std.specs.Prelude.{List, All, length, slice_index, count_by, filter};
ghost use Rattle.selectors.specs.Sets.{holds_in, is_in, with_site, conflicts, IsSetOf};
ghost use Rattle.selectors.specs.Counting.{IsRising, IsLeast, NextOf, first_of, added_of, told};

use crate::site_sets::{has, tally};
use plan_core::Context;
use std::alloc::{AllocError, Global};

/// A site that may be added to a set.
#[derive(Clone, Copy)]
pub struct Candidate {
    /// Its address.
    pub site: u32,
    /// How many conflicts the set has with it.
    pub left: u32,
}

/// The set of sites that tells a member from the contexts outside as far as its own sites can, ascending.
pub fn set_of(
    alloc: Global,
    sets: &[Context],
    outside: &[u32],
    member: u32,
) -> Result<Vec<u32>, AllocError>
    requires sets { All IsRising sets.now }
    requires few { length outside.now < 2 ^ 32 }
    requires member { member < length sets.now }
    ensures { IfOk result (λ set. IsSetOf (holds_in sets.now) outside.now member set.items) }
{
    let own = sets[member as usize].as_slice();
    let mut rivals = Vec::from_slice(alloc, outside)?;
    let mut chosen: Vec<u32> = Vec::new(alloc);
    while let Some(site) = next(alloc, sets, rivals.as_slice(), own, chosen.as_slice())? {
        keep_holders(&mut rivals, sets, site);
        insert_site(&mut chosen, site)?;
    }
    Ok(chosen)
}

// Keeps the contexts that hold a site.
fn keep_holders(contexts: &mut Vec<u32>, sets: &[Context], site: u32)
    requires { All IsRising sets.now }
    ensures { contexts.new.items ≡ filter (λ d. holds_in sets.now d site) contexts.old.items }
{
    contexts.retain(|d| has(sets, *d, site));
}

// Adds a site to an ascending set.
fn insert_site(set: &mut Vec<u32>, site: u32) -> Result<(), AllocError>
    ensures { OnOk result (set.new.items ≡ with_site site set.old.items) }
{
    let below = count_below(set.as_slice(), site);
    set.insert(below, site)?;
    Ok(())
}

// How many sites of a set are below one.
fn count_below(set: &[u32], site: u32) -> usize
    ensures value { result ≡ count_by (λ t. nat_lt t site) set.now }
    ensures bound { result ≤ length set.now }
{
    let mut count = 0;
    for other in set {
        if *other < site {
            count += 1;
        }
    }
    count
}

// The site that is added next, if one is.
fn next(
    alloc: Global,
    sets: &[Context],
    rivals: &[u32],
    own: &[u32],
    chosen: &[u32],
) -> Result<Option<u32>, AllocError>
    requires sets { All IsRising sets.now }
    requires few { length rivals.now < 2 ^ 32 }
    requires own { IsRising own.now }
    ensures { (outside : List ℕ) (c : ℕ) → rivals.now ≡ conflicts (holds_in sets.now) outside c chosen.now →
        ((s : ℕ) → is_in own.now s ≡ holds_in sets.now c s) →
        IfOk result (NextOf (holds_in sets.now) outside c chosen.now) }
{
    if tells(rivals, chosen) {
        return Ok(None);
    }
    let counts = tally(alloc, sets, rivals, own)?;
    Ok(added(least(own, counts.as_slice(), chosen), chosen, rivals.len()))
}

// Whether a set isn't empty and has no conflicts.
fn tells(rivals: &[u32], chosen: &[u32]) -> bool
    ensures { result ≡ told rivals.now chosen.now }
{
    !chosen.is_empty() && rivals.is_empty()
}

// The site of the first candidate, where it is added.
fn added(best: Option<Candidate>, chosen: &[u32], rivals: usize) -> Option<u32>
    ensures { result ≡ added_of best chosen.now rivals }
{
    match best {
        Some(first) if chosen.is_empty() || (first.left as usize) < rivals => Some(first.site),
        _ => None,
    }
}

// The first of the candidates that aren't chosen yet.
fn least(own: &[u32], counts: &[u32], chosen: &[u32]) -> Option<Candidate>
    requires { length counts.now ≡ length own.now }
    ensures { (left : ℕ → ℕ) →
        ((i : ℕ) → i < length own.now → slice_index counts.now i ≡ left (slice_index own.now i)) →
        IsLeast left own.now chosen.now (length own.now) result }
{
    let mut best: Option<Candidate> = None;
    for i in 0..own.len() {
        if !chosen.contains(&own[i]) {
            best = first(
                best,
                Candidate {
                    site: own[i],
                    left: counts[i],
                },
            );
        }
    }
    best
}

// The first of two candidates.
fn first(best: Option<Candidate>, other: Candidate) -> Option<Candidate>
    ensures { result ≡ first_of best other }
{
    match best {
        Some(a) => {
            if other.left < a.left || (other.left == a.left && other.site < a.site) {
                Some(other)
            } else {
                Some(a)
            }
        }
        None => Some(other),
    }
}
