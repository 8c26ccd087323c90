// Operations and conditions of two numbers: the common ones at once.
ghost use Rattle.std.specs.Prelude.{◌≡◌};
ghost use Rattle.rv_isa.specs.Compute.{computed, is_held};

use rv_isa::{Cond, Op, compute};

/// The word that an operation gives.
#[inline(always)]
#[tactic(auto, unfolding(rv_isa::specs::Compute::computed))]
pub fn computed(op: Op, a: u32, b: u32) -> u32
    ensures { result ≡ computed op a b }
{
    match op {
        Op::Add => a.wrapping_add(b),
        Op::Sub => a.wrapping_sub(b),
        Op::Sll => a << (b % 32),
        Op::Slt => (a.cast_signed() < b.cast_signed()) as u32,
        Op::Sltu => (a < b) as u32,
        Op::Xor => a ^ b,
        Op::Srl => a >> (b % 32),
        Op::Sra => (a.cast_signed() >> (b % 32)).cast_unsigned(),
        Op::Or => a | b,
        Op::And => a & b,
        Op::Mul => a.wrapping_mul(b),
        rest => compute(rest, a, b),
    }
}

/// Whether the condition of a branch holds.
#[inline(always)]
#[tactic(auto, unfolding(rv_isa::specs::Compute::is_held))]
pub fn is_held(cond: Cond, a: u32, b: u32) -> bool
    ensures { result ≡ is_held cond a b }
{
    match cond {
        Cond::Eq => a == b,
        Cond::Ne => a != b,
        Cond::Lt => a.cast_signed() < b.cast_signed(),
        Cond::Ge => a.cast_signed() >= b.cast_signed(),
        Cond::Ltu => a < b,
        Cond::Geu => a >= b,
    }
}
