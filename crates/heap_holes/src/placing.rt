// The fragment that places a block at the front of the first hole that is long enough.
ghost use Rattle.std.specs.Prelude.{◌≡◌, IfOk};
ghost use Rattle.frag_code.specs.Fragments.{plain};
ghost use Rattle.heap_holes.specs.Placing as holes;

use frag_code::{Frag, chain, choice, compute, immediate, load, repeat, store};
use rv_isa::{Cond, Op};
use std::alloc::{AllocError, Global};

/// A block of x10 granules in the first hole that is long enough: x15 becomes its first granule, or the
/// word for none. x11 is where the rows of the granules are, x12 where the tables are, and x31 the word
/// for none.
pub fn first_fit(alloc: Global) -> Result<Frag, AllocError>
    ensures { IfOk result (λ f. plain f ≡ holes.first_fit) }
{
    let walk = find_hole(alloc)?;
    let take = take_front(alloc)?;
    let end = choice(alloc, Cond::Eq, 15, 31, Frag::Skip, take)?;
    chain(alloc, vec![in alloc; walk, end]?)
}

// The length and the row of the hole at granule x15.
fn measure(alloc: Global) -> Result<Frag, AllocError>
    ensures { IfOk result (λ f. plain f ≡ holes.measure) }
{
    let steps = vec![in alloc;
        immediate(Op::Sll, 7, 15, 3),
        compute(Op::Add, 7, 7, 11),
        load(28, 7, 0),
    ]?;
    let row = chain(alloc, steps)?;
    choice(
        alloc,
        Cond::Eq,
        15,
        31,
        immediate(Op::Add, 28, 0, 0xffff_ffff),
        row,
    )
}

// From one hole to the next.
fn pass_hole(alloc: Global) -> Result<Frag, AllocError>
    ensures { IfOk result (λ f. plain f ≡ holes.pass_hole) }
{
    let next = measure(alloc)?;
    chain(
        alloc,
        vec![in alloc; immediate(Op::Add, 5, 7, 0), load(15, 7, 4), next]?,
    )
}

// Past the holes that are too short.
fn find_hole(alloc: Global) -> Result<Frag, AllocError>
    ensures { IfOk result (λ f. plain f ≡ holes.find_hole) }
{
    let first = measure(alloc)?;
    let pass = pass_hole(alloc)?;
    let walk = repeat(alloc, Cond::Ltu, 28, 10, pass)?;
    chain(
        alloc,
        vec![in alloc;
            immediate(Op::Add, 5, 12, 0xffff_fffc),
            load(15, 12, 0),
            first,
            walk,
        ]?,
    )
}

// A hole that is all used.
fn unlink(alloc: Global) -> Result<Frag, AllocError>
    ensures { IfOk result (λ f. plain f ≡ holes.unlink) }
{
    chain(alloc, vec![in alloc; load(29, 7, 4), store(5, 29, 4)]?)
}

// A hole of which a part is left.
fn split(alloc: Global) -> Result<Frag, AllocError>
    ensures { IfOk result (λ f. plain f ≡ holes.split) }
{
    let steps = vec![in alloc;
        compute(Op::Add, 29, 15, 10),
        store(5, 29, 4),
        immediate(Op::Sll, 29, 29, 3),
        compute(Op::Add, 29, 29, 11),
        store(29, 28, 0),
        load(28, 7, 4),
        store(29, 28, 4),
        store(7, 10, 0),
    ]?;
    chain(alloc, steps)
}

// The front of the hole.
fn take_front(alloc: Global) -> Result<Frag, AllocError>
    ensures { IfOk result (λ f. plain f ≡ holes.take_front) }
{
    let whole = unlink(alloc)?;
    let part = split(alloc)?;
    let end = choice(alloc, Cond::Eq, 28, 0, whole, part)?;
    chain(alloc, vec![in alloc; compute(Op::Sub, 28, 28, 10), end]?)
}
