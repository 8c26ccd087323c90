// What operations and conditions are of two words.
ghost use Rattle.std.specs.Prelude.{◌≡◌};
ghost use Rattle.rv_isa.specs.Compute.{computed, is_held};

use crate::{Cond, Op};

/// The word that an operation gives. Sums, differences and products wrap; shifts go by the low five
/// bits of `b`; a division by 0 gives all ones and leaves `a`, and -2^31 by -1 is -2^31 and leaves 0.
#[tactic(auto, unfolding(crate::specs::Compute::computed))]
pub fn compute(op: Op, a: u32, b: u32) -> u32
    ensures { result ≡ computed op a b }
{
    match op {
        Op::Add => a.wrapping_add(b),
        Op::Sub => a.wrapping_sub(b),
        Op::Sll => a << (b % 32),
        Op::Slt => (a.cast_signed() < b.cast_signed()) as u32,
        Op::Sltu => (a < b) as u32,
        Op::Xor => a ^ b,
        Op::Srl => a >> (b % 32),
        Op::Sra => (a.cast_signed() >> (b % 32)).cast_unsigned(),
        Op::Or => a | b,
        Op::And => a & b,
        Op::Mul => a.wrapping_mul(b),
        Op::Mulh => upper_signed(a, b),
        Op::Mulhsu => upper_mixed(a, b),
        Op::Mulhu => ((a as u64 * b as u64) >> 32) as u32,
        Op::Div => divided(a, b),
        Op::Divu => if b == 0 { u32::MAX } else { a / b },
        Op::Rem => remainder(a, b),
        Op::Remu => if b == 0 { a } else { a % b },
    }
}

/// The upper word of the product of two signed words.
#[tactic(auto, unfolding(crate::specs::Compute::computed))]
fn upper_signed(a: u32, b: u32) -> u32
    ensures { result ≡ computed Op.Mulh a b }
{
    let product = a.cast_signed() as i64 * b.cast_signed() as i64;
    (product.cast_unsigned() >> 32) as u32
}

/// The upper word of the product of a signed and an unsigned word.
#[tactic(auto, unfolding(crate::specs::Compute::computed))]
fn upper_mixed(a: u32, b: u32) -> u32
    ensures { result ≡ computed Op.Mulhsu a b }
{
    let product = a.cast_signed() as i64 * b as i64;
    (product.cast_unsigned() >> 32) as u32
}

/// The quotient of two signed words.
#[tactic(auto, unfolding(crate::specs::Compute::computed))]
fn divided(a: u32, b: u32) -> u32
    ensures { result ≡ computed Op.Div a b }
{
    if b == 0 {
        u32::MAX
    } else {
        a.cast_signed()
            .wrapping_div(b.cast_signed())
            .cast_unsigned()
    }
}

/// The remainder of two signed words, with the sign of the first.
#[tactic(auto, unfolding(crate::specs::Compute::computed))]
fn remainder(a: u32, b: u32) -> u32
    ensures { result ≡ computed Op.Rem a b }
{
    if b == 0 {
        a
    } else {
        a.cast_signed()
            .wrapping_rem(b.cast_signed())
            .cast_unsigned()
    }
}

/// Whether the condition of a branch holds of two words.
#[tactic(auto, unfolding(crate::specs::Compute::is_held))]
pub fn holds(cond: Cond, a: u32, b: u32) -> bool
    ensures { result ≡ is_held cond a b }
{
    match cond {
        Cond::Eq => a == b,
        Cond::Ne => a != b,
        Cond::Lt => a.cast_signed() < b.cast_signed(),
        Cond::Ge => a.cast_signed() >= b.cast_signed(),
        Cond::Ltu => a < b,
        Cond::Geu => a >= b,
    }
}
