// The fragments of the heap functions.
ghost use Rattle.std.specs.Prelude.{◌≡◌, ◌<◌, ◌≤◌, All, IfOk};
ghost use Rattle.frag_code.specs.Fragments.{plain};
ghost use Rattle.heap_spec.specs.Places.{base_of};
ghost use Rattle.heap_code.specs.Calls as specs;

use crate::pieces::{clean_block, free_block, granule_of_block, place_block, settle, size_need};
use frag_code::{Frag, chain, choice, compute, immediate, set};
use plan_core::{Area, Row};
use rv_isa::{Cond, Op};
use std::alloc::{AllocError, Global};

/// A block for a size in x10, under the bits in x5: it reads as zero, and x10 becomes its address, or 0.
pub fn grant(
    alloc: Global,
    rows: &[Row],
    area: Area,
    data_at: u32,
    base: u32,
) -> Result<Frag, AllocError>
    requires groups { All (λ row. row.group < 16) rows.now }
    requires chunks { area.chunks ≤ 256 }
    requires chunk { area.log_chunk < 32 }
    requires base { base ≡ base_of area data_at }
    ensures { IfOk result (λ f. plain f ≡ specs.grant rows.now area data_at) }
{
    let fill = clean_block(alloc, area, data_at, base)?;
    let end = choice(alloc, Cond::Eq, 15, 31, immediate(Op::Add, 10, 0, 0), fill)?;
    let all = chain(
        alloc,
        vec![in alloc;
            settle(alloc, area, data_at)?,
            size_need(alloc)?,
            place_block(alloc, rows, area)?,
            end,
        ]?,
    )?;
    Ok(all)
}

/// A block for x10 times x11 bytes, as `grant` gives it; none where the product is no word.
pub fn calloc_code(
    alloc: Global,
    rows: &[Row],
    area: Area,
    data_at: u32,
    base: u32,
) -> Result<Frag, AllocError>
    requires groups { All (λ row. row.group < 16) rows.now }
    requires chunks { area.chunks ≤ 256 }
    requires chunk { area.log_chunk < 32 }
    requires base { base ≡ base_of area data_at }
    ensures { IfOk result (λ f. plain f ≡ specs.calloc_code rows.now area data_at) }
{
    let block = grant(alloc, rows, area, data_at, base)?;
    let either = choice(alloc, Cond::Eq, 6, 0, block, immediate(Op::Add, 10, 0, 0))?;
    let all = chain(
        alloc,
        vec![in alloc;
            compute(Op::Mulhu, 6, 10, 11),
            compute(Op::Mul, 10, 10, 11),
            either,
        ]?,
    )?;
    Ok(all)
}

/// The block at address x10 is released, or nothing is done where x10 is 0.
pub fn free_code(alloc: Global, area: Area, data_at: u32, base: u32) -> Result<Frag, AllocError>
    requires chunks { area.chunks ≤ 256 }
    requires chunk { area.log_chunk < 32 }
    requires base { base ≡ base_of area data_at }
    ensures { IfOk result (λ f. plain f ≡ specs.free_code area data_at) }
{
    let granule = granule_of_block(alloc, area, data_at, base)?;
    let free = free_block(alloc, area)?;
    let release = chain(alloc, vec![in alloc; set(12, data_at), granule, free]?)?;
    let all = choice(alloc, Cond::Eq, 10, 0, Frag::Skip, release)?;
    Ok(all)
}
