// Constants in registers.
ghost use Rattle.std.specs.Prelude.{◌≡◌, IfOk};
ghost use Rattle.frag_code.specs.Fragments.{plain};
ghost use Rattle.heap_chunks.specs.Constants as specs;

use frag_code::{Frag, compute, immediate, sequence, set};
use rv_isa::Op;
use std::alloc::{AllocError, Global};

/// The register becomes the constant.
pub fn constant(rd: u8, v: u32) -> Frag
    ensures { plain result ≡ specs.constant rd v }
{
    if v < 2048 {
        immediate(Op::Add, rd, 0, v)
    } else {
        set(rd, v)
    }
}

/// The register rd becomes rs plus the constant, which may go through the register spare.
pub fn plus_constant(alloc: Global, rd: u8, rs: u8, spare: u8, v: u32) -> Result<Frag, AllocError>
    ensures { IfOk result (λ f. plain f ≡ specs.plus_constant rd rs spare v) }
{
    if v < 2048 {
        return Ok(immediate(Op::Add, rd, rs, v));
    }
    let sum = sequence(alloc, set(spare, v), compute(Op::Add, rd, rs, spare))?;
    Ok(sum)
}

/// The register rd becomes rs less the constant, which may go through the register spare.
pub fn minus_constant(alloc: Global, rd: u8, rs: u8, spare: u8, v: u32) -> Result<Frag, AllocError>
    ensures { IfOk result (λ f. plain f ≡ specs.minus_constant rd rs spare v) }
{
    if v.saturating_sub(1) < 2048 {
        return Ok(immediate(Op::Add, rd, rs, v.wrapping_neg()));
    }
    let difference = sequence(alloc, set(spare, v), compute(Op::Sub, rd, rs, spare))?;
    Ok(difference)
}
