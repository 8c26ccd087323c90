// Whether no number stands twice in a list.
ghost use Rattle.std.specs.Prelude.{◌≡◌, IfOk};
ghost use Rattle.profile_text.specs.Distinct.{are_distinct, differ_in_turn};

use std::alloc::{AllocError, Global};

// Whether each number differs from the next.
fn differ_in_turn(numbers: &[u32]) -> bool
    ensures { result ≡ differ_in_turn numbers.now }
{
    for at in 1..numbers.len() {
        if numbers[at - 1] == numbers[at] {
            return false;
        }
    }
    true
}

/// Whether no number stands twice, by a sorted copy.
pub fn are_distinct(alloc: Global, numbers: &[u32]) -> Result<bool, AllocError>
    ensures { IfOk result (λ t. t ≡ are_distinct numbers.now) }
{
    let mut sorted = Vec::new(alloc);
    sorted.extend_from_slice(numbers)?;
    sorted.sort_unstable();
    Ok(differ_in_turn(&sorted))
}
