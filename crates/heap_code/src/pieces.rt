// The pieces of the heap functions.
ghost use Rattle.std.specs.Prelude.{◌≡◌, ◌<◌, ◌≤◌, All, IfOk};
ghost use Rattle.frag_code.specs.Fragments.{plain};
ghost use Rattle.heap_spec.specs.Places.{base_of};
ghost use Rattle.heap_code.specs.Pieces as specs;

use frag_code::{Frag, chain, choice, compute, immediate, repeat, set, store};
use heap_chunks::{constant, group_tests, place_high, plus_constant, release_high};
use heap_holes::{first_fit, release_low};
use plan_core::{Area, Row};
use rv_isa::{Cond, Op};
use std::alloc::{AllocError, Global};

/// x31 becomes the word for none, x12 where the tables are and x11 where the rows of the granules are.
pub fn settle(alloc: Global, area: Area, data_at: u32) -> Result<Frag, AllocError>
    requires { area.chunks ≤ 256 }
    ensures { IfOk result (λ f. plain f ≡ specs.settle area data_at) }
{
    let rows = settle_rows(alloc, area)?;
    let all = chain(
        alloc,
        vec![in alloc;
            immediate(Op::Add, 31, 0, 0xFFFF_FFFF),
            set(12, data_at),
            rows,
        ]?,
    )?;
    Ok(all)
}

/// x10, a size, becomes the granules that it needs.
pub fn size_need(alloc: Global) -> Result<Frag, AllocError>
    ensures { IfOk result (λ f. plain f ≡ specs.size_need) }
{
    let all = chain(
        alloc,
        vec![in alloc;
            compute(Op::Sltu, 6, 0, 10),
            compute(Op::Sub, 10, 10, 6),
            immediate(Op::Srl, 10, 10, 4),
            immediate(Op::Add, 10, 10, 1),
        ]?,
    )?;
    Ok(all)
}

/// A block of x10 granules is placed under the bits in x5: x15 becomes its first granule, or the word for
/// none.
pub fn place_block(alloc: Global, rows: &[Row], area: Area) -> Result<Frag, AllocError>
    requires groups { All (λ row. row.group < 16) rows.now }
    requires chunk { area.log_chunk < 32 }
    ensures { IfOk result (λ f. plain f ≡ specs.place_block rows.now area) }
{
    if !has_groups(rows, area) {
        return place_low(alloc, area);
    }
    let tests = group_tests(alloc, rows)?;
    let high = place_high(alloc, area)?;
    let low = place_low(alloc, area)?;
    let none = compute(Op::Add, 15, 31, 0);
    let grouped = choice(alloc, Cond::Eq, 14, 31, none, high)?;
    let either = choice(alloc, Cond::Eq, 15, 31, low, Frag::Skip)?;
    let all = chain(
        alloc,
        vec![in alloc; compute(Op::Sub, 13, 31, 5), tests, grouped, either]?,
    )?;
    Ok(all)
}

// x6 becomes the address of granule x15 of the area that begins at `base`.
fn block_address(alloc: Global, area: Area, data_at: u32, base: u32) -> Result<Frag, AllocError>
    requires { base ≡ base_of area data_at }
    ensures { IfOk result (λ f. plain f ≡ specs.block_address area data_at) }
{
    let all = chain(
        alloc,
        vec![in alloc;
            immediate(Op::Sll, 6, 15, 4),
            set(7, base),
            compute(Op::Add, 6, 6, 7),
        ]?,
    )?;
    Ok(all)
}

/// The x10 granules from granule x15 on become zero, and x10 and x6 become their address.
pub fn clean_block(alloc: Global, area: Area, data_at: u32, base: u32) -> Result<Frag, AllocError>
    requires { base ≡ base_of area data_at }
    ensures { IfOk result (λ f. plain f ≡ specs.clean_block area data_at) }
{
    let address = block_address(alloc, area, data_at, base)?;
    let zero = zero_block(alloc)?;
    let all = chain(alloc, vec![in alloc; address, zero]?)?;
    Ok(all)
}

// The x10 granules from address x6 on become zero, and x10 becomes x6.
fn zero_block(alloc: Global) -> Result<Frag, AllocError>
    ensures { IfOk result (λ f. plain f ≡ specs.zero_block) }
{
    let granule = zero_granule(alloc)?;
    let granules = repeat(alloc, Cond::Ne, 10, 6, granule)?;
    let all = chain(
        alloc,
        vec![in alloc;
            immediate(Op::Sll, 10, 10, 4),
            compute(Op::Add, 10, 10, 6),
            granules,
        ]?,
    )?;
    Ok(all)
}

/// x10, an address in the area that begins at `base`, becomes its granule.
pub fn granule_of_block(
    alloc: Global,
    area: Area,
    data_at: u32,
    base: u32,
) -> Result<Frag, AllocError>
    requires { base ≡ base_of area data_at }
    ensures { IfOk result (λ f. plain f ≡ specs.granule_of_block area data_at) }
{
    let all = chain(
        alloc,
        vec![in alloc;
            set(7, base),
            compute(Op::Sub, 10, 10, 7),
            immediate(Op::Srl, 10, 10, 4),
        ]?,
    )?;
    Ok(all)
}

/// The block at granule x10 is released. The tables are at x12.
pub fn free_block(alloc: Global, area: Area) -> Result<Frag, AllocError>
    requires chunks { area.chunks ≤ 256 }
    requires chunk { area.log_chunk < 32 }
    ensures { IfOk result (λ f. plain f ≡ specs.free_block area) }
{
    if area.fallback == 0 {
        return release_high(alloc, area);
    }
    if area.chunks == 0 {
        return free_low(alloc, area);
    }
    let low = free_low(alloc, area)?;
    let high = release_high(alloc, area)?;
    let either = choice(alloc, Cond::Ltu, 10, 7, low, high)?;
    let all = chain(alloc, vec![in alloc; constant(7, area.fallback), either]?)?;
    Ok(all)
}

// Where the rows of the granules are.
fn settle_rows(alloc: Global, area: Area) -> Result<Frag, AllocError>
    requires { area.chunks ≤ 256 }
    ensures { IfOk result (λ f. plain f ≡ specs.settle_rows area) }
{
    plus_constant(alloc, 11, 12, 11, 128 + 16 * area.chunks)
}

// Whether a group is looked for.
fn has_groups(rows: &[Row], area: Area) -> bool
    ensures { result ≡ specs.has_groups rows.now area }
{
    !rows.is_empty() && area.chunks != 0
}

// The third rule.
fn place_low(alloc: Global, area: Area) -> Result<Frag, AllocError>
    ensures { IfOk result (λ f. plain f ≡ specs.place_low area) }
{
    if area.fallback == 0 {
        return Ok(compute(Op::Add, 15, 31, 0));
    }
    first_fit(alloc)
}

// The last granule before x10.
fn zero_granule(alloc: Global) -> Result<Frag, AllocError>
    ensures { IfOk result (λ f. plain f ≡ specs.zero_granule) }
{
    let all = chain(
        alloc,
        vec![in alloc;
            immediate(Op::Add, 10, 10, 0xFFFF_FFF0),
            store(10, 0, 0),
            store(10, 0, 4),
            store(10, 0, 8),
            store(10, 0, 12),
        ]?,
    )?;
    Ok(all)
}

// The block at granule x10 of the fallback.
fn free_low(alloc: Global, area: Area) -> Result<Frag, AllocError>
    requires { area.chunks ≤ 256 }
    ensures { IfOk result (λ f. plain f ≡ specs.free_low area) }
{
    let rows = settle_rows(alloc, area)?;
    let release = release_low(alloc)?;
    let all = chain(
        alloc,
        vec![in alloc;
            rows,
            immediate(Op::Sll, 7, 10, 3),
            compute(Op::Add, 7, 7, 11),
            release,
        ]?,
    )?;
    Ok(all)
}
