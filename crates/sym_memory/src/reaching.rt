// Blocks as their lives and buffers: which bytes can be reached, and loads and stores of them.
ghost use Rattle.std.specs.Prelude.{◌≡◌, ◌+◌, ◌^◌, ◌<◌, ◌≢◌, [], length, slice_set, slice_index_or, true, is_some};
ghost use Rattle.std.specs.Prelude.{slice_get};
ghost use Rattle.machine_spec.specs.Widths.{size_of};
ghost use Rattle.sym_cells.specs.Memory.{is_aligned, loaded_in, stored_in, known_in, set_block, overlaid};
ghost use Rattle.sym_memory.specs.Kept.{blocks_of, AreKept, holds_access};

use crate::block_cells::BlockCells;
use crate::widths::{is_aligned, size_of};
use rv_isa::Width;
use sym_value::{Live, Value};

/// The byte of a block at an offset.
#[derive(Clone, Copy)]
pub struct BlockByte {
    pub block: u32,
    pub offset: u32,
}

/// Whether a block lives and has `size` bytes from an offset on.
pub fn can_reach(live: &Live, buffers: &[BlockCells], block: u32, offset: u32, size: usize) -> bool
    requires kept { AreKept live.now.blocks buffers.now }
    requires small { size < 2 ^ 32 }
    ensures { result ≡ holds_access offset size (slice_get (blocks_of live.now.blocks buffers.now) block) }
{
    if (block as usize) < buffers.len() && live.lives(block) {
        offset as usize + size <= live.capacity(block) as usize
    } else {
        false
    }
}

/// The value of a load; none exactly where it isn't aligned or not all its bytes can be reached.
pub fn load_in(
    live: &Live,
    buffers: &[BlockCells],
    block: u32,
    width: Width,
    offset: u32,
) -> Option<Value>
    requires { AreKept live.now.blocks buffers.now }
    ensures { result ≡ loaded_in width offset (slice_get (blocks_of live.now.blocks buffers.now) block) }
{
    if is_aligned(width, offset) && can_reach(live, buffers, block, offset, size_of(width)) {
        Some(buffers[block as usize].load(width, offset as usize))
    } else {
        None
    }
}

/// The number of a byte; none exactly where it can't be reached or isn't known.
pub fn known_in(live: &Live, buffers: &[BlockCells], block: u32, offset: u32) -> Option<u8>
    requires { AreKept live.now.blocks buffers.now }
    ensures { result ≡ known_in offset (slice_get (blocks_of live.now.blocks buffers.now) block) }
{
    if can_reach(live, buffers, block, offset, 1) {
        buffers[block as usize].known(offset as usize)
    } else {
        None
    }
}

/// Stores a value. False exactly where it isn't aligned or not all its bytes can be reached; then
/// nothing changes.
pub fn store_in(
    live: &Live,
    buffers: &mut [BlockCells],
    at: BlockByte,
    width: Width,
    value: Value,
) -> bool
    requires { AreKept live.now.blocks buffers.old }
    ensures kept { AreKept live.now.blocks buffers.new }
    ensures answer { result ≡ is_some (stored_in width at.offset value
        (slice_get (blocks_of live.now.blocks buffers.old) at.block)) }
    ensures blocks { blocks_of live.now.blocks buffers.new ≡ set_block at.block
        (stored_in width at.offset value (slice_get (blocks_of live.now.blocks buffers.old) at.block))
        (blocks_of live.now.blocks buffers.old) }
{
    if is_aligned(width, at.offset)
        && can_reach(live, buffers, at.block, at.offset, size_of(width))
    {
        store_here(live, buffers, at, width, value);
        true
    } else {
        false
    }
}

fn store_here(live: &Live, buffers: &mut [BlockCells], at: BlockByte, width: Width, value: Value)
    requires kept { AreKept live.now.blocks buffers.old }
    requires aligned { is_aligned width at.offset ≡ true }
    requires reached { holds_access at.offset (size_of width)
        (slice_get (blocks_of live.now.blocks buffers.old) at.block) ≡ true }
    ensures kept { AreKept live.now.blocks buffers.new }
    ensures answer { is_some (stored_in width at.offset value
        (slice_get (blocks_of live.now.blocks buffers.old) at.block)) ≡ true }
    ensures blocks { blocks_of live.now.blocks buffers.new ≡ set_block at.block
        (stored_in width at.offset value (slice_get (blocks_of live.now.blocks buffers.old) at.block))
        (blocks_of live.now.blocks buffers.old) }
{
    buffers[at.block as usize].store(width, at.offset as usize, value);
}

/// Copies the cells of one buffer in front of those of another, up to the lesser length.
pub fn copy_in(buffers: &mut [BlockCells], from: usize, to: usize)
    requires from { from < length buffers.old }
    requires to { to < length buffers.old }
    requires differ { from ≢ to }
    ensures { buffers.new ≡ slice_set buffers.old to
        (overlaid (slice_index_or buffers.old from []) (slice_index_or buffers.old to [])) }
{
    if from < to {
        let (low, high) = buffers.split_at_mut(to);
        high[0].overlay(&low[from]);
    } else {
        let (low, high) = buffers.split_at_mut(from);
        low[to].overlay(&high[0]);
    }
}
