// The blocks of a run with their public calls, each over their lives and buffers.
ghost use Rattle.std.specs.Prelude.{◌≡◌, ◌≢◌, ◌*◌, ◌<◌, ◌≤◌, [], ◌∷◌, ◌++◌, true, is_some, length, map, option_map};
ghost use Rattle.std.specs.Prelude.{replicate, IfOk, OnErr, slice_get};
ghost use Rattle.sym_cells.specs.Memory.{life_of, loaded_in, stored_in, known_in, set_block, overlaid_block, died};
ghost use Rattle.sym_cells.specs.Buffers.{is_inside_one};
ghost use Rattle.sym_cells.specs.Cells.{zero_cell};
ghost use Rattle.sym_memory.specs.Kept.{HeldBlocks, is_alive};

use crate::block_cells::BlockCells;
use crate::reaching::{BlockByte, can_reach, copy_in, known_in, load_in, store_in};
use rv_isa::Width;
use std::alloc::{AllocError, Global};
use std::marker::Model;
use sym_value::{Live, Value};

/// The blocks so far by their names, living and dead, beside the end of the image. A store takes no
/// memory; a grant takes all that its block needs, and the block's death gives it back.
#[derive(Debug, Drop)]
pub struct Blocks {
    live: Live,
    buffers: Vec<BlockCells>,
}

impl Model for Blocks {
    ghost use Rattle.sym_memory.specs.Kept.{HeldBlocks, blocks_of, AreKept};

    ghost Value = { HeldBlocks };

    ghost view = { λ s. record { blocks = blocks_of s.live.blocks s.buffers.items; end = s.live.end } };

    ghost invariant = { λ s. AreKept s.live.blocks s.buffers.items };
}

impl Blocks {
    /// No blocks, beside an image that ends at `end`.
    pub fn new(alloc: Global, end: u32) -> Self
        ensures { result ≡ record { blocks = []; end = end } }
    {
        let live = Live::new(alloc, end);
        let buffers = Vec::new(alloc);
        Blocks { live, buffers }
    }

    /// The lives of the blocks, as values see them.
    pub fn live(&self) -> &Live
        ensures { result.now ≡ record { blocks = map life_of self.now.blocks; end = self.now.end } }
    {
        &self.live
    }

    /// The value of a load; none exactly where it isn't aligned or not all its bytes can be reached.
    pub fn load(&self, block: u32, width: Width, offset: u32) -> Option<Value>
        ensures { result ≡ loaded_in width offset (slice_get self.now.blocks block) }
    {
        load_in(&self.live, &self.buffers, block, width, offset)
    }

    /// The number of a byte; none exactly where it can't be reached or isn't known.
    pub fn known(&self, block: u32, offset: u32) -> Option<u8>
        ensures { result ≡ known_in offset (slice_get self.now.blocks block) }
    {
        known_in(&self.live, &self.buffers, block, offset)
    }

    /// Stores a value. False exactly where it isn't aligned or not all its bytes can be reached; then
    /// nothing changes.
    pub fn store(&mut self, block: u32, width: Width, offset: u32, value: Value) -> bool
        ensures answer { result ≡ is_some (stored_in width offset value (slice_get self.old.blocks block)) }
        ensures blocks { self.new ≡ record self.old {
          blocks = set_block block
              (stored_in width offset value (slice_get self.old.blocks block)) self.old.blocks;
        } }
    {
        let at = BlockByte { block, offset };
        store_in(&self.live, &mut self.buffers, at, width, value)
    }

    /// Whether the block lives and has `len` bytes from an offset on.
    pub fn can_reach(&self, block: u32, offset: u32, len: u32) -> bool
        ensures { result ≡ is_inside_one offset len (slice_get self.now.blocks block) }
    {
        can_reach(&self.live, &self.buffers, block, offset, len as usize)
    }

    /// Makes a block of `need` granules of 16 bytes, which is zero; its name is how many there were.
    pub fn grant(&mut self, alloc: Global, need: u32) -> Result<u32, AllocError>
        requires need { (1 ≤ need) × (need ≤ 1048576) }
        requires name { length self.old.blocks < 4294967295 }
        ensures name { IfOk result (λ block. block ≡ length self.old.blocks) }
        ensures granted { IfOk result (λ block. self.new ≡ record self.old {
          blocks = self.old.blocks
              ++ record { cells = replicate (4 * need) zero_cell; lives = true } ∷ [];
        }) }
        ensures unchanged { OnErr result (self.new ≡ self.old) }
    {
        let buffer = BlockCells::zeros(alloc, 4 * need as usize)?;
        self.buffers.push(buffer)?;
        match self.live.add(16 * need) {
            Ok(block) => Ok(block),
            Err(error) => {
                self.buffers.pop();
                Err(error)
            }
        }
    }

    /// Copies the cells of one living block in front of those of another, up to the lesser capacity.
    pub fn copy_block(&mut self, from: u32, to: u32)
        requires from { is_alive (slice_get self.old.blocks from) ≡ true }
        requires to { is_alive (slice_get self.old.blocks to) ≡ true }
        requires differ { from ≢ to }
        ensures { self.new ≡ record self.old {
          blocks = set_block to
              (overlaid_block (slice_get self.old.blocks from) (slice_get self.old.blocks to)) self.old.blocks;
        } }
    {
        copy_in(&mut self.buffers, from as usize, to as usize);
    }

    /// Ends a living block, and gives its memory back.
    pub fn drop_block(&mut self, block: u32)
        requires { is_alive (slice_get self.old.blocks block) ≡ true }
        ensures { self.new ≡ record self.old {
          blocks = set_block block
              (option_map died (slice_get self.old.blocks block)) self.old.blocks;
        } }
    {
        self.live.kill(block);
        self.buffers[block as usize].release();
    }
}
