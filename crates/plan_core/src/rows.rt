// The group that a plan's rows give to bits.
ghost use Rattle.std.specs.Prelude.{◌≡◌, ◌↔◌, ◌≢◌, IsNone, All, bit_and};
ghost use Rattle.plan_core.specs.Plan.{group_of_bits};

use crate::types::Plan;

/// The group of the first row whose mask is in `bits`; none where there is no such row.
pub fn group_of(plan: &Plan, bits: u32) -> Option<u8>
    ensures value { result ≡ group_of_bits plan.now.rows bits }
    ensures none { IsNone result ↔ All (λ row. bit_and row.mask bits ≢ row.mask) plan.now.rows }
{
    let rows = plan.rows.as_slice();
    rows.iter()
        .find(|row| row.mask & bits == row.mask)
        .map(|row| row.group)
}
