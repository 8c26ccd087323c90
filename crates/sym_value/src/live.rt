// The blocks of a run by their names, and where pointers and numbers may lie.
ghost use Rattle.std.specs.Prelude.{◌≡◌, ◌<◌, ◌≤◌, ◌+◌, ◌^◌, ◌++◌, ◌∷◌, [], true, false, length, IfOk, OnErr};
ghost use Rattle.std.specs.Prelude.{slice_set, Some, slice_get};
ghost use Rattle.sym_value.specs.Places.{no_blocks, with_block, without_block, capacity_of, is_living, is_inner, is_on};
ghost use Rattle.sym_value.specs.Places.{is_near, is_low, is_high, is_outer};

use std::alloc::{AllocError, Global};
use std::marker::Model;

/// The capacity of a block in bytes, and whether it lives.
#[derive(Clone, Copy, Debug, PartialEq, Eq)]
pub struct Life {
    pub capacity: u32,
    pub lives: bool,
}

/// The blocks so far, living and dead, and the end of the image. Names of blocks count from 0 and
/// aren't used again.
#[derive(Debug, Drop)]
pub struct Live {
    blocks: Vec<Life>,
    end: u32,
}

impl Model for Live {
    ghost use Rattle.std.specs.Prelude.{◌≤◌, All};
    ghost use Rattle.sym_value.specs.Places.{Lives};

    ghost Value = { Lives };

    ghost view = { λ s. record { blocks = s.blocks.items; end = s.end } };

    ghost invariant = { λ s. All (λ life. life.capacity ≤ 16777216) s.blocks.items };
}

impl Live {
    /// No blocks, beside an image that ends at `end`.
    pub fn new(alloc: Global, end: u32) -> Self
        ensures { result ≡ no_blocks end }
    {
        Live {
            blocks: Vec::new(alloc),
            end,
        }
    }

    /// Names the next block, which lives: its name is how many there were.
    pub fn add(&mut self, capacity: u32) -> Result<u32, AllocError>
        requires capacity { capacity ≤ 16777216 }
        requires name { length self.old.blocks < 4294967295 }
        ensures name { IfOk result (λ block. block ≡ length self.old.blocks) }
        ensures added { IfOk result (λ block. self.new ≡ with_block capacity self.old) }
        ensures unchanged { OnErr result (self.new ≡ self.old) }
    {
        let block = self.blocks.len() as u32;
        self.blocks.push(Life {
            capacity,
            lives: true,
        })?;
        Ok(block)
    }

    /// Ends a living block.
    pub fn kill(&mut self, block: u32)
        requires { is_living self.old block ≡ true }
        ensures { self.new ≡ without_block block self.old }
    {
        let capacity = self.blocks[block as usize].capacity;
        self.blocks[block as usize] = Life {
            capacity,
            lives: false,
        };
    }

    /// The capacity of a block that was named.
    pub fn capacity(&self, block: u32) -> u32
        requires { block < length self.now.blocks }
        ensures { result ≡ capacity_of self.now block }
    {
        self.blocks[block as usize].capacity
    }

    /// Whether a block that was named lives.
    pub fn lives(&self, block: u32) -> bool
        requires { block < length self.now.blocks }
        ensures { result ≡ is_living self.now block }
    {
        self.blocks[block as usize].lives
    }

    /// Whether a block lives and an offset is below its capacity.
    pub(crate) fn is_inner(&self, block: u32, offset: u32) -> bool
        ensures { result ≡ is_inner self.now block offset }
    {
        match self.blocks.get(block as usize) {
            Some(life) => life.lives && offset < life.capacity,
            None => false,
        }
    }

    /// Whether an offset is at most the capacity of a block, living or dead.
    pub(crate) fn is_on(&self, block: u32, offset: u32) -> bool
        ensures { result ≡ is_on self.now block offset }
    {
        match self.blocks.get(block as usize) {
            Some(life) => offset <= life.capacity,
            None => false,
        }
    }

    /// Whether an offset is at most 65536 above the capacity of a block, or below its start.
    pub(crate) fn is_near(&self, block: u32, offset: u32) -> bool
        ensures { result ≡ is_near self.now block offset }
    {
        match self.blocks.get(block as usize) {
            Some(life) => offset <= life.capacity + 65536 || offset >= 0xffff_0000,
            None => false,
        }
    }

    /// Whether a number lies below every block.
    pub(crate) fn is_low(&self, number: u32) -> bool
        ensures { result ≡ is_low self.now number }
    {
        number < self.end.max(65536)
    }

    /// Whether a number lies below or above every block.
    pub(crate) fn is_outer(&self, number: u32) -> bool
        ensures { result ≡ is_outer self.now number }
    {
        self.is_low(number) || is_high(number)
    }
}

/// Whether a number lies above every block.
pub(crate) fn is_high(number: u32) -> bool
    ensures { result ≡ is_high number }
{
    number >= 0x7ff0_0000
}
