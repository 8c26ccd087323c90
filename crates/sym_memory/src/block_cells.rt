// The cells of a block, in memory of their own until they are given back.
ghost use Rattle.std.specs.Prelude.{◌≡◌, ◌*◌, ◌<◌, ◌^◌, [], length, replicate, IfOk};
ghost use Rattle.sym_cells.specs.Cells.{zero_cell, cell_in, mark_at};
ghost use Rattle.sym_cells.specs.Moves.{load_at, store};
ghost use Rattle.sym_cells.specs.Memory.{number_in, overlaid};
ghost use Rattle.cell_buffer.specs.Entries.{IsAccess};

use cell_buffer::CellBuffer;
use rv_isa::Width;
use std::alloc::{AllocError, Global};
use std::marker::Model;
use sym_value::Value;

/// Cells of four bytes, which contracts see as the list of them. All memory is taken when it is made; of a
/// block that is dead a pointer is left.
#[derive(Debug, Drop)]
pub struct BlockCells {
    held: Option<Box<CellBuffer>>,
}

impl Model for BlockCells {
    ghost use Rattle.std.specs.Prelude.{List, [], option_map, unwrap_or};
    ghost use Rattle.sym_cells.specs.Cells.{Cell};

    ghost Value = { List Cell };

    ghost view = { λ b. unwrap_or (option_map (λ held. held.value) b.held) [] };
}

impl BlockCells {
    /// So many cells of zero bytes.
    pub fn zeros(alloc: Global, cells: usize) -> Result<Self, AllocError>
        requires { cells < 2 ^ 32 }
        ensures { IfOk result (λ buffer. buffer ≡ replicate cells zero_cell) }
    {
        let buffer = CellBuffer::zeros(alloc, cells)?;
        let held = Box::new(alloc, buffer)?;
        Ok(BlockCells { held: Some(held) })
    }

    /// The value of a load at an aligned offset.
    #[tactic(auto, using(crate::proofs::CellLaws::none_there))]
    pub fn load(&self, width: Width, at: usize) -> Value
        requires { IsAccess width at (4 * length self.now) }
        ensures { result ≡ load_at width at (cell_in self.now) }
    {
        match &self.held {
            Some(cells) => cells.load(width, at),
            None => unreachable!(),
        }
    }

    /// Stores a value at an aligned offset.
    #[tactic(auto, using(crate::proofs::CellLaws::none_there))]
    pub fn store(&mut self, width: Width, at: usize, value: Value)
        requires { IsAccess width at (4 * length self.old) }
        ensures cells { self.new ≡ store width at value self.old }
        ensures long { length self.new ≡ length self.old }
    {
        match &mut self.held {
            Some(cells) => cells.store(width, at, value),
            None => unreachable!(),
        }
    }

    /// The number of the byte at an offset; none exactly where it isn't known.
    pub fn known(&self, at: usize) -> Option<u8>
        requires { at < 4 * length self.now }
        ensures { result ≡ number_in (mark_at (cell_in self.now) at) }
    {
        match &self.held {
            Some(cells) => cells.known(at),
            None => unreachable!(),
        }
    }

    /// Gives its memory back, and has no cells from then on.
    pub fn release(&mut self)
        ensures { self.new ≡ [] }
    {
        self.held = None;
    }

    /// Takes over the cells of another, up to the lesser length.
    pub fn overlay(&mut self, from: &BlockCells)
        ensures cells { self.new ≡ overlaid from.now self.old }
        ensures long { length self.new ≡ length self.old }
    {
        if let Some(cells) = &mut self.held {
            if let Some(others) = &from.held {
                cells.overlay(others);
            }
        }
    }
}
