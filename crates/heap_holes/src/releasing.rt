// The fragment that releases a block of the fallback.
ghost use Rattle.std.specs.Prelude.{◌≡◌, IfOk};
ghost use Rattle.frag_code.specs.Fragments.{plain};
ghost use Rattle.heap_holes.specs.Releasing as holes;

use frag_code::{Frag, chain, choice, compute, immediate, load, repeat, store};
use rv_isa::{Cond, Op};
use std::alloc::{AllocError, Global};

/// The block at granule x10, whose row is at x7, becomes a hole, which is joined with those that it
/// touches. x11 is where the rows of the granules are, and x12 where the tables are.
pub fn release_low(alloc: Global) -> Result<Frag, AllocError>
    ensures { IfOk result (λ f. plain f ≡ holes.release_low) }
{
    let behind = release_behind(alloc)?;
    let first = release_first(alloc)?;
    let release = choice(alloc, Cond::Ltu, 6, 10, behind, first)?;
    chain(alloc, vec![in alloc; load(6, 12, 0), release]?)
}

// From one hole to the next.
fn next_hole(alloc: Global) -> Result<Frag, AllocError>
    ensures { IfOk result (λ f. plain f ≡ holes.next_hole) }
{
    chain(
        alloc,
        vec![in alloc;
            immediate(Op::Sll, 5, 6, 3),
            compute(Op::Add, 5, 5, 11),
            load(6, 5, 4),
        ]?,
    )
}

// The next hole becomes a part of the block.
fn absorb(alloc: Global) -> Result<Frag, AllocError>
    ensures { IfOk result (λ f. plain f ≡ holes.absorb) }
{
    let steps = vec![in alloc;
        immediate(Op::Sll, 29, 6, 3),
        compute(Op::Add, 29, 29, 11),
        load(6, 29, 4),
        load(29, 29, 0),
        compute(Op::Add, 28, 28, 29),
        store(7, 28, 0),
    ]?;
    chain(alloc, steps)
}

// The block with the next hole, if they touch.
fn join_next(alloc: Global) -> Result<Frag, AllocError>
    ensures { IfOk result (λ f. plain f ≡ holes.join_next) }
{
    let touching = absorb(alloc)?;
    let join = choice(alloc, Cond::Eq, 29, 6, touching, Frag::Skip)?;
    chain(
        alloc,
        vec![in alloc; load(28, 7, 0), compute(Op::Add, 29, 10, 28), join]?,
    )
}

// The last hole before the block grows by it.
fn widen(alloc: Global) -> Result<Frag, AllocError>
    ensures { IfOk result (λ f. plain f ≡ holes.widen) }
{
    chain(
        alloc,
        vec![in alloc;
            compute(Op::Add, 28, 28, 29),
            store(5, 28, 0),
            store(5, 6, 4),
        ]?,
    )
}

// The block becomes a hole of its own.
fn link(alloc: Global) -> Result<Frag, AllocError>
    ensures { IfOk result (λ f. plain f ≡ holes.link) }
{
    chain(alloc, vec![in alloc; store(7, 6, 4), store(5, 10, 4)]?)
}

// The block and the last hole before it.
fn join_last(alloc: Global) -> Result<Frag, AllocError>
    ensures { IfOk result (λ f. plain f ≡ holes.join_last) }
{
    let touching = widen(alloc)?;
    let apart = link(alloc)?;
    let join = choice(alloc, Cond::Eq, 30, 7, touching, apart)?;
    let steps = vec![in alloc;
        load(29, 5, 0),
        immediate(Op::Sll, 30, 29, 3),
        compute(Op::Add, 30, 30, 5),
        join,
    ]?;
    chain(alloc, steps)
}

// Some holes stand before the block.
fn release_behind(alloc: Global) -> Result<Frag, AllocError>
    ensures { IfOk result (λ f. plain f ≡ holes.release_behind) }
{
    let first = next_hole(alloc)?;
    let pass = next_hole(alloc)?;
    let walk = repeat(alloc, Cond::Ltu, 6, 10, pass)?;
    let upper = join_next(alloc)?;
    let lower = join_last(alloc)?;
    chain(alloc, vec![in alloc; first, walk, upper, lower]?)
}

// None does.
fn release_first(alloc: Global) -> Result<Frag, AllocError>
    ensures { IfOk result (λ f. plain f ≡ holes.release_first) }
{
    let upper = join_next(alloc)?;
    chain(
        alloc,
        vec![in alloc; upper, store(7, 6, 4), store(12, 10, 0)]?,
    )
}
