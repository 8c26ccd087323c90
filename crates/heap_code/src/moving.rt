// The fragment that moves a block.
ghost use Rattle.std.specs.Prelude.{◌≡◌, ◌<◌, ◌≤◌, All, IfOk};
ghost use Rattle.frag_code.specs.Fragments.{plain};
ghost use Rattle.heap_spec.specs.Places.{base_of};
ghost use Rattle.heap_code.specs.Moving as specs;

use crate::pieces::{clean_block, free_block, place_block, settle, size_need};
use frag_code::{Frag, chain, choice, compute, immediate, load, set};
use heap_bytes::copy_block;
use plan_core::{Area, Row};
use rv_isa::{Cond, Op};
use std::alloc::{AllocError, Global};

/// The block at address x10 is moved to one for the size in x11, under the bits in x5, and x10 becomes
/// the new address; or x10 becomes 0 and nothing else changes. Where x10 is 0 the block is only granted.
pub fn realloc_code(
    alloc: Global,
    rows: &[Row],
    area: Area,
    data_at: u32,
    base: u32,
) -> Result<Frag, AllocError>
    requires groups { All (λ row. row.group < 16) rows.now }
    requires chunks { area.chunks ≤ 256 }
    requires chunk { area.log_chunk < 32 }
    requires base { base ≡ base_of area data_at }
    ensures { IfOk result (λ f. plain f ≡ specs.realloc_code rows.now area data_at) }
{
    let fill = fill_new(alloc, area, data_at, base)?;
    let end = choice(alloc, Cond::Eq, 15, 31, immediate(Op::Add, 10, 0, 0), fill)?;
    let all = chain(
        alloc,
        vec![in alloc;
            immediate(Op::Add, 17, 10, 0),
            immediate(Op::Add, 10, 11, 0),
            settle(alloc, area, data_at)?,
            size_need(alloc)?,
            place_block(alloc, rows, area)?,
            end,
        ]?,
    )?;
    Ok(all)
}

// A new block, zero or with the old one's bytes first.
fn fill_new(alloc: Global, area: Area, data_at: u32, base: u32) -> Result<Frag, AllocError>
    requires chunks { area.chunks ≤ 256 }
    requires chunk { area.log_chunk < 32 }
    requires base { base ≡ base_of area data_at }
    ensures { IfOk result (λ f. plain f ≡ specs.fill_new area data_at) }
{
    let old = move_old(alloc, area, data_at, base)?;
    let either = choice(alloc, Cond::Eq, 17, 0, Frag::Skip, old)?;
    let all = chain(
        alloc,
        vec![in alloc;
            immediate(Op::Add, 14, 10, 0),
            clean_block(alloc, area, data_at, base)?,
            either,
        ]?,
    )?;
    Ok(all)
}

// The old block is copied and released.
fn move_old(alloc: Global, area: Area, data_at: u32, base: u32) -> Result<Frag, AllocError>
    requires chunks { area.chunks ≤ 256 }
    requires chunk { area.log_chunk < 32 }
    requires base { base ≡ base_of area data_at }
    ensures { IfOk result (λ f. plain f ≡ specs.move_old area data_at) }
{
    let shorter = immediate(Op::Add, 16, 14, 0);
    let lesser = choice(alloc, Cond::Ltu, 14, 16, shorter, Frag::Skip)?;
    let all = chain(
        alloc,
        vec![in alloc;
            immediate(Op::Add, 15, 10, 0),
            old_length(alloc, area, data_at, base)?,
            lesser,
            immediate(Op::Add, 5, 17, 0),
            copy_block(alloc)?,
            release_old(alloc, area, data_at, base)?,
            immediate(Op::Add, 10, 15, 0),
        ]?,
    )?;
    Ok(all)
}

// The old block's length.
fn old_length(alloc: Global, area: Area, data_at: u32, base: u32) -> Result<Frag, AllocError>
    requires { base ≡ base_of area data_at }
    ensures { IfOk result (λ f. plain f ≡ specs.old_length area data_at) }
{
    let all = chain(
        alloc,
        vec![in alloc;
            set(7, base),
            compute(Op::Sub, 16, 17, 7),
            immediate(Op::Srl, 16, 16, 1),
            compute(Op::Add, 16, 16, 11),
            load(16, 16, 0),
        ]?,
    )?;
    Ok(all)
}

// The old block's release.
fn release_old(alloc: Global, area: Area, data_at: u32, base: u32) -> Result<Frag, AllocError>
    requires chunks { area.chunks ≤ 256 }
    requires chunk { area.log_chunk < 32 }
    requires base { base ≡ base_of area data_at }
    ensures { IfOk result (λ f. plain f ≡ specs.release_old area data_at) }
{
    let all = chain(
        alloc,
        vec![in alloc;
            set(7, base),
            compute(Op::Sub, 10, 17, 7),
            immediate(Op::Srl, 10, 10, 4),
            free_block(alloc, area)?,
        ]?,
    )?;
    Ok(all)
}
