// Placing and releasing in chunks.
ghost use Rattle.std.specs.Prelude.{◌≡◌, ◌<◌, ◌^◌, IfOk};
ghost use Rattle.frag_code.specs.Fragments.{plain};
ghost use Rattle.heap_chunks.specs.Chunks as specs;

use crate::constants::{constant, minus_constant, plus_constant};
use frag_code::{Frag, chain, choice, compute, immediate, load, repeat, sequence, store};
use plan_core::Area;
use rv_isa::{Cond, Op};
use std::alloc::{AllocError, Global};

/// The first two rules for a block of x10 granules in the group whose word is at x14: x15 becomes the
/// block's first granule, or the word for none. x31 is the word for none, x12 where the tables are and x11
/// where the rows of the granules are.
pub fn place_high(alloc: Global, area: Area) -> Result<Frag, AllocError>
    requires { area.log_chunk < 32 }
    ensures { IfOk result (λ f. plain f ≡ specs.place_high area) }
{
    let owned = place_owned(alloc, area)?;
    let fresh = place_fresh(alloc, area)?;
    let either = choice(alloc, Cond::Eq, 7, 31, fresh, owned)?;
    let fitting = sequence(alloc, load(7, 14, 0), either)?;
    let rules = choice(
        alloc,
        Cond::Ltu,
        28,
        10,
        compute(Op::Add, 15, 31, 0),
        fitting,
    )?;
    let all = chain(
        alloc,
        vec![in alloc; constant(28, 1 << area.log_chunk), rules]?,
    )?;
    Ok(all)
}

/// The release of the block at granule x10, which stands in a chunk. The tables are at x12.
pub fn release_high(alloc: Global, area: Area) -> Result<Frag, AllocError>
    requires { area.log_chunk < 32 }
    ensures { IfOk result (λ f. plain f ≡ specs.release_high area) }
{
    let clear = clear_chunk(alloc)?;
    let all = chain(
        alloc,
        vec![in alloc;
            minus_constant(alloc, 7, 10, 28, area.fallback)?,
            immediate(Op::Srl, 7, 7, area.log_chunk as u32),
            immediate(Op::Sll, 6, 7, 4),
            compute(Op::Add, 6, 6, 12),
            load(28, 6, 136),
            immediate(Op::Add, 28, 28, 0xFFFF_FFFF),
            store(6, 28, 136),
            choice(alloc, Cond::Ne, 28, 0, Frag::Skip, clear)?,
        ]?,
    )?;
    Ok(all)
}

/// The block's first granule in x15, and its length in its row.
fn answer_block(alloc: Global, area: Area) -> Result<Frag, AllocError>
    ensures { IfOk result (λ f. plain f ≡ specs.answer_block area) }
{
    let all = chain(
        alloc,
        vec![in alloc;
            immediate(Op::Sll, 7, 7, area.log_chunk as u32),
            compute(Op::Add, 7, 7, 29),
            plus_constant(alloc, 15, 7, 28, area.fallback)?,
            immediate(Op::Sll, 30, 15, 3),
            compute(Op::Add, 30, 30, 11),
            store(30, 10, 0),
        ]?,
    )?;
    Ok(all)
}

/// A block at the bump of its group's current chunk.
fn place_current(alloc: Global, area: Area) -> Result<Frag, AllocError>
    ensures { IfOk result (λ f. plain f ≡ specs.place_current area) }
{
    let all = chain(
        alloc,
        vec![in alloc;
            store(6, 30, 132),
            load(30, 6, 136),
            immediate(Op::Add, 30, 30, 1),
            store(6, 30, 136),
            answer_block(alloc, area)?,
        ]?,
    )?;
    Ok(all)
}

/// The search for the lowest chunk without owner.
fn find_idle(alloc: Global) -> Result<Frag, AllocError>
    ensures { IfOk result (λ f. plain f ≡ specs.find_idle) }
{
    let owner = choice(
        alloc,
        Cond::Eq,
        6,
        30,
        compute(Op::Add, 7, 31, 0),
        load(7, 6, 128),
    )?;
    let next = chain(alloc, vec![in alloc; immediate(Op::Add, 6, 6, 16), owner]?)?;
    let all = chain(
        alloc,
        vec![in alloc;
            immediate(Op::Add, 30, 11, 0xFFFF_FF80),
            immediate(Op::Add, 6, 12, 0),
            load(7, 6, 128),
            repeat(alloc, Cond::Ne, 7, 31, next)?,
        ]?,
    )?;
    Ok(all)
}

/// A block at the front of a chunk without owner, which its group then owns.
fn own_chunk(alloc: Global, area: Area) -> Result<Frag, AllocError>
    ensures { IfOk result (λ f. plain f ≡ specs.own_chunk area) }
{
    let all = chain(
        alloc,
        vec![in alloc;
            compute(Op::Sub, 7, 6, 12),
            immediate(Op::Srl, 7, 7, 4),
            store(14, 7, 0),
            compute(Op::Sub, 30, 14, 12),
            immediate(Op::Add, 30, 30, 0xFFFF_FFC0),
            immediate(Op::Srl, 30, 30, 2),
            store(6, 30, 128),
            store(6, 10, 132),
            immediate(Op::Add, 30, 0, 1),
            store(6, 30, 136),
            immediate(Op::Add, 29, 0, 0),
            answer_block(alloc, area)?,
        ]?,
    )?;
    Ok(all)
}

/// The second rule.
fn place_fresh(alloc: Global, area: Area) -> Result<Frag, AllocError>
    ensures { IfOk result (λ f. plain f ≡ specs.place_fresh area) }
{
    let find = find_idle(alloc)?;
    let own = own_chunk(alloc, area)?;
    let found = choice(alloc, Cond::Eq, 6, 30, compute(Op::Add, 15, 31, 0), own)?;
    let all = sequence(alloc, find, found)?;
    Ok(all)
}

/// The first rule in a group's current chunk, and the second where the block doesn't fit there.
fn place_owned(alloc: Global, area: Area) -> Result<Frag, AllocError>
    ensures { IfOk result (λ f. plain f ≡ specs.place_owned area) }
{
    let fresh = place_fresh(alloc, area)?;
    let current = place_current(alloc, area)?;
    let all = chain(
        alloc,
        vec![in alloc;
            immediate(Op::Sll, 6, 7, 4),
            compute(Op::Add, 6, 6, 12),
            load(29, 6, 132),
            compute(Op::Add, 30, 29, 10),
            choice(alloc, Cond::Ltu, 28, 30, fresh, current)?,
        ]?,
    )?;
    Ok(all)
}

/// What is left of a chunk without live blocks.
fn clear_chunk(alloc: Global) -> Result<Frag, AllocError>
    ensures { IfOk result (λ f. plain f ≡ specs.clear_chunk) }
{
    let disown = chain(
        alloc,
        vec![in alloc; immediate(Op::Add, 30, 0, 0xFFFF_FFFF), store(6, 30, 128)]?,
    )?;
    let all = chain(
        alloc,
        vec![in alloc;
            store(6, 0, 132),
            load(29, 6, 128),
            immediate(Op::Sll, 29, 29, 2),
            compute(Op::Add, 29, 29, 12),
            load(29, 29, 64),
            choice(alloc, Cond::Eq, 29, 7, Frag::Skip, disown)?,
        ]?,
    )?;
    Ok(all)
}
