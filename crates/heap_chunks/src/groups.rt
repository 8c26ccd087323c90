// The tests that find the group of the bits.
ghost use Rattle.std.specs.Prelude.{◌≡◌, All, ◌<◌, ◌==◌, IfOk};
ghost use Rattle.std.specs.List.{list_any};
ghost use Rattle.frag_code.specs.Fragments.{plain};
ghost use Rattle.heap_chunks.specs.Groups as specs;

use frag_code::{Frag, choice, compute, immediate, sequence, set};
use plan_core::Row;
use rv_isa::{Cond, Op};
use std::alloc::{AllocError, Global};

/// The tests of the bits in x5, whose complement is in x13, against the rows' masks: x14 becomes the
/// address of the word of the group's current chunk, or the word for none, which is in x31. The tables
/// are at x12.
pub fn group_tests(alloc: Global, rows: &[Row]) -> Result<Frag, AllocError>
    requires { All (λ row. row.group < 16) rows.now }
    ensures { IfOk result (λ f. plain f ≡ specs.group_tests rows.now) }
{
    let tests = row_tests(alloc, rows)?;
    if takes_all(rows) {
        return Ok(tests);
    }
    let none = compute(Op::Add, 14, 31, 0);
    let all = choice(alloc, Cond::Eq, 5, 0, none, tests)?;
    Ok(all)
}

/// Whether a row takes all bits, as its mask is 0.
fn takes_all(rows: &[Row]) -> bool
    ensures { result ≡ list_any (λ row. row.mask == 0) rows.now }
{
    rows.iter().any(|row| row.mask == 0)
}

/// The tests of all rows, from the last to the first.
fn row_tests(alloc: Global, rows: &[Row]) -> Result<Frag, AllocError>
    requires { All (λ row. row.group < 16) rows.now }
    ensures { IfOk result (λ f. plain f ≡ specs.row_tests rows.now) }
{
    let mut all = compute(Op::Add, 14, 31, 0);
    let mut left = rows.len();
    while left > 0 {
        left -= 1;
        let row = rows[left];
        let found = immediate(Op::Add, 14, 12, 64 + 4 * (row.group as u32));
        let test = mask_test(alloc, row.mask)?;
        let chosen = choice(alloc, Cond::Eq, 30, 0, found, all)?;
        all = sequence(alloc, test, chosen)?;
    }
    Ok(all)
}

/// The test of one mask.
fn mask_test(alloc: Global, mask: u32) -> Result<Frag, AllocError>
    ensures { IfOk result (λ f. plain f ≡ specs.mask_test mask) }
{
    if mask < 2048 {
        return Ok(immediate(Op::And, 30, 13, mask));
    }
    let test = sequence(alloc, set(30, mask), compute(Op::And, 30, 30, 13))?;
    Ok(test)
}
