// The sites of contexts, sorted, which contexts hold a site, and which contexts are in a group or outside.
ghost use Rattle.std.specs.Prelude.{◌≡◌, ℕ, ◌<◌, ◌≤◌, ◌+◌, ◌^◌, [], All, length, IfOk, slice_index, slice_index_or};
ghost use Rattle.selectors.specs.Sets.{holds_in, is_in, is_in_any, outside_of, members_of};
ghost use Rattle.selectors.specs.Counting.{AreSets, IsRising, AddsHolders, IsTally, is_at};

use plan_core::{Context, Members};
use std::alloc::{AllocError, Global};

/// The sites of each context, ascending.
pub fn sorted(alloc: Global, contexts: &[Context]) -> Result<Vec<Context>, AllocError>
    ensures { IfOk result (λ sets. AreSets contexts.now sets.items) }
{
    let mut sets = Vec::new(alloc);
    for context in contexts {
        let mut sites = Vec::from_slice(alloc, context.as_slice())?;
        sites.sort()?;
        sets.push(Context::from(sites))?;
    }
    Ok(sets)
}

// The sites of a context, by its number.
fn sites_of(sets: &[Context], context: u32) -> &[u32]
    ensures { result.now ≡ slice_index_or sets.now context [] }
{
    match sets.get(context as usize) {
        Some(set) => set.as_slice(),
        None => &[],
    }
}

/// Whether a context holds a site.
pub fn has(sets: &[Context], context: u32, site: u32) -> bool
    requires { All IsRising sets.now }
    ensures { result ≡ holds_in sets.now context site }
{
    contains(sites_of(sets, context), site)
}

// Whether a site is among ascending ones.
fn contains(set: &[u32], site: u32) -> bool
    requires { IsRising set.now }
    ensures { result ≡ is_in set.now site }
{
    set.binary_search(&site).is_ok()
}

/// How many of some contexts hold each of some ascending sites.
pub fn tally(
    alloc: Global,
    sets: &[Context],
    contexts: &[u32],
    sites: &[u32],
) -> Result<Vec<u32>, AllocError>
    requires sets { All IsRising sets.now }
    requires few { length contexts.now < 2 ^ 32 }
    requires sites { IsRising sites.now }
    ensures { IfOk result (λ counts. IsTally (holds_in sets.now) contexts.now sites.now counts.items) }
{
    let mut counts = vec![in alloc; 0u32; sites.len()]?;
    for context in contexts {
        add_holder(counts.as_mut_slice(), sites_of(sets, *context), sites);
    }
    Ok(counts)
}

// Counts a context, by its ascending sites, at each of some ascending sites that it holds.
fn add_holder(counts: &mut [u32], set: &[u32], sites: &[u32])
    requires set { IsRising set.now }
    requires sites { IsRising sites.now }
    requires counts { length counts.old ≡ length sites.now }
    requires room { All (λ n. n + 1 < 2 ^ 32) counts.old }
    ensures { AddsHolders (is_in set.now) sites.now counts.old counts.new }
{
    let mut place = 0;
    for i in 0..sites.len() {
        place = skip_below(set, place, sites[i]);
        counts[i] += u32::from(stands_at(set, place, sites[i]));
    }
}

// The first place from one on whose site isn't below `site`.
fn skip_below(set: &[u32], from: usize, site: u32) -> usize
    requires { from ≤ length set.now }
    ensures bounds { (from ≤ result) × (result ≤ length set.now) }
    ensures below { (k : ℕ) → from ≤ k → k < result → slice_index set.now k < site }
    ensures reached { result < length set.now → site ≤ slice_index set.now result }
{
    let mut place = from;
    while place < set.len() && set[place] < site {
        place += 1;
    }
    place
}

// Whether a site stands at a place.
fn stands_at(set: &[u32], place: usize, site: u32) -> bool
    ensures { result ≡ is_at set.now place site }
{
    place < set.len() && set[place] == site
}

/// The contexts that are in none of some groups, ascending.
pub fn outsiders(alloc: Global, contexts: usize, groups: &[Members]) -> Result<Vec<u32>, AllocError>
    requires { contexts < 2 ^ 32 }
    ensures { IfOk result (λ outside. outside.items ≡ outside_of contexts groups.now) }
{
    let mut outside = Vec::new(alloc);
    for context in 0..contexts {
        if !is_grouped(groups, context as u32) {
            outside.push(context as u32)?;
        }
    }
    Ok(outside)
}

// Whether a context is in one of some groups.
fn is_grouped(groups: &[Members], context: u32) -> bool
    ensures { result ≡ is_in_any groups.now context }
{
    for group in groups {
        if group.as_slice().contains(&context) {
            return true;
        }
    }
    false
}

/// The contexts in a group, ascending.
pub fn insiders(alloc: Global, contexts: usize, group: &Members) -> Result<Vec<u32>, AllocError>
    requires { contexts < 2 ^ 32 }
    ensures { IfOk result (λ inside. inside.items ≡ members_of contexts group.now) }
{
    let mut inside = Vec::new(alloc);
    for context in 0..contexts {
        if group.as_slice().contains(&(context as u32)) {
            inside.push(context as u32)?;
        }
    }
    Ok(inside)
}
