// The fragment that copies granules.
ghost use Rattle.std.specs.Prelude.{◌≡◌, IfOk};
ghost use Rattle.frag_code.specs.Fragments.{plain};
ghost use Rattle.heap_bytes.specs.Copying as bytes;

use frag_code::{Frag, chain, compute, immediate, load, repeat, store};
use rv_isa::{Cond, Op};
use std::alloc::{AllocError, Global};

/// x16 granules from x5 on are written from x6 on. Both stretches are apart and stand at multiples of 4.
pub fn copy_block(alloc: Global) -> Result<Frag, AllocError>
    ensures { IfOk result (λ f. plain f ≡ bytes.copy_block) }
{
    let granule = copy_granule(alloc)?;
    let granules = repeat(alloc, Cond::Ne, 5, 16, granule)?;
    chain(
        alloc,
        vec![in alloc;
            immediate(Op::Sll, 16, 16, 4),
            compute(Op::Add, 16, 16, 5),
            granules,
        ]?,
    )
}

// One granule.
fn copy_granule(alloc: Global) -> Result<Frag, AllocError>
    ensures { IfOk result (λ f. plain f ≡ bytes.copy_granule) }
{
    let steps = vec![in alloc;
        load(7, 5, 0),
        load(28, 5, 4),
        load(29, 5, 8),
        load(30, 5, 12),
        store(6, 7, 0),
        store(6, 28, 4),
        store(6, 29, 8),
        store(6, 30, 12),
        immediate(Op::Add, 5, 5, 16),
        immediate(Op::Add, 6, 6, 16),
    ]?;
    chain(alloc, steps)
}
