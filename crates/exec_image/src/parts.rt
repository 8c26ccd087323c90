// Parts of a file or of memory, in which a number is looked up in logarithmic time, however they
// overlap.

ghost use Rattle.std.specs.Prelude.{◌≡◌, ℕ, ◌<◌, ◌≤◌, get_or, length, IfOk};
ghost use Rattle.std.specs.List.{list_any};
ghost use Rattle.std.specs.List.Sorted.{IsNonDecreasingBy};
ghost use Rattle.exec_image.specs.Parts.{StandsFor, is_meeting, running};

use std::alloc::{AllocError, Global};

/// The numbers from `start` to before `end`.
#[derive(Clone, Copy, Debug, PartialEq, Eq)]
pub struct Part {
    pub start: u64,
    pub end: u64,
}

/// The parts, each with the greatest end so far.
fn with_ends(alloc: Global, parts: &[Part]) -> Result<Vec<Part>, AllocError>
    ensures { IfOk result (λ list. list.items ≡ running 0 parts.now) }
{
    let mut list = Vec::with_capacity(alloc, parts.len())?;
    let mut end = 0;
    for p in parts {
        end = end.max(p.end);
        list.push(Part {
            start: p.start,
            end,
        })?;
    }
    Ok(list)
}

/// The parts in ascending order, each of which ends no earlier than those before it.
pub fn in_order(alloc: Global, parts: Vec<Part>) -> Result<Vec<Part>, AllocError>
    ensures { IfOk result (λ sorted. StandsFor parts.items sorted.items) }
{
    let mut parts = parts;
    parts.sort_unstable_by_key(|p| p.start);
    with_ends(alloc, parts.as_slice())
}

/// Whether some number from one to before another is in one of the parts in order.
pub fn meets(sorted: &[Part], from: u64, to: u64) -> bool
    requires starts { IsNonDecreasingBy (λ (p : Part). p.start) sorted.now }
    requires ends { IsNonDecreasingBy (λ (p : Part). p.end) sorted.now }
    ensures { result ≡ list_any (is_meeting from to) sorted.now }
{
    let count = sorted.partition_point(|p| p.start < to);
    count > 0 && sorted[count - 1].end > from
}

/// The index of the first of the parts in order that ends above a number; their count where none does.
pub fn first_above(sorted: &[Part], at: u64) -> usize
    requires { IsNonDecreasingBy (λ (p : Part). p.end) sorted.now }
    ensures bound { result ≤ length sorted.now }
    ensures below { (k : ℕ) (d : Part) → k < result → (get_or sorted.now k d).end ≤ at }
    ensures above { (k : ℕ) (d : Part) → result ≤ k → k < length sorted.now → at < (get_or sorted.now k d).end }
{
    sorted.partition_point(|p| p.end <= at)
}
