// A buffer of cells with its public calls, each over the list of its entries.
ghost use Rattle.std.specs.Prelude.{◌≡◌, ◌+◌, ◌*◌, ◌<◌, ◌≤◌, ◌^◌, [], ◌∷◌, ◌++◌, length, replicate, IfOk, OnOk, OnErr};
ghost use Rattle.sym_cells.specs.Cells.{Bytes, zero_cell, cell_in, mark_at};
ghost use Rattle.sym_cells.specs.Moves.{load_at, store};
ghost use Rattle.sym_cells.specs.Memory.{number_in, overlaid};
ghost use Rattle.cell_buffer.specs.Entries.{IsAccess};

use crate::entry::{Entry, entry_of};
use crate::loads::{byte_at, load_in};
use crate::stores::{overlay_in, store_in};
use rv_isa::Width;
use std::alloc::{AllocError, Global};
use std::marker::Model;
use sym_cells::Mark;
use sym_value::Value;

/// Cells of four bytes, which contracts see as the list of them. All memory is taken when it is made.
#[derive(Debug, Drop)]
pub struct CellBuffer {
    entries: Vec<Entry>,
}

impl Model for CellBuffer {
    ghost use Rattle.std.specs.Prelude.{◌≡◌, ◌%◌, ◌<◌, ◌^◌, List, length};
    ghost use Rattle.sym_cells.specs.Cells.{Cell};

    ghost Value = { List Cell };

    ghost use Rattle.cell_buffer.specs.Entries.{cells_of};

    ghost view = { λ b. cells_of b.entries.items };

    ghost invariant = { λ b. length b.entries.items % 4 ≡ 0 };
}

impl CellBuffer {
    /// So many cells of zero bytes.
    #[tactic(auto, using(crate::proofs::EntryLaws::zeros_made))]
    pub fn zeros(alloc: Global, cells: usize) -> Result<Self, AllocError>
        requires { cells < 2 ^ 32 }
        ensures { IfOk result (λ buffer. buffer ≡ replicate cells zero_cell) }
    {
        let mut entries = Vec::new(alloc);
        entries.resize(4 * cells, Entry::Known(0))?;
        Ok(CellBuffer { entries })
    }

    /// No cells, with room for so many.
    #[tactic(auto, unfolding(crate::specs::Entries::cells_of))]
    pub fn with_room(alloc: Global, cells: usize) -> Result<Self, AllocError>
        requires { cells < 2 ^ 32 }
        ensures { IfOk result (λ buffer. buffer ≡ []) }
    {
        let entries = Vec::with_capacity(alloc, 4 * cells)?;
        Ok(CellBuffer { entries })
    }

    /// Adds a cell of four bytes, lowest first.
    #[tactic(auto, using(crate::proofs::EntryLaws::cells_more))]
    pub fn push(
        &mut self,
        first: Mark,
        second: Mark,
        third: Mark,
        fourth: Mark,
    ) -> Result<(), AllocError>
        ensures pushed { OnOk result (self.new ≡ self.old ++ Bytes first second third fourth ∷ []) }
        ensures unchanged { OnErr result (self.new ≡ self.old) }
    {
        self.entries.extend_from_slice(&[
            entry_of(first),
            entry_of(second),
            entry_of(third),
            entry_of(fourth),
        ])?;
        Ok(())
    }

    /// How many bytes it has.
    pub fn len(&self) -> usize
        ensures { result ≡ 4 * length self.now }
    {
        self.entries.len()
    }

    /// The value of a load at an aligned offset.
    #[inline(always)]
    pub fn load(&self, width: Width, at: usize) -> Value
        requires { IsAccess width at (4 * length self.now) }
        ensures { result ≡ load_at width at (cell_in self.now) }
    {
        load_in(&self.entries, width, at)
    }

    /// Stores a value at an aligned offset.
    #[inline(always)]
    pub fn store(&mut self, width: Width, at: usize, value: Value)
        requires { IsAccess width at (4 * length self.old) }
        ensures cells { self.new ≡ store width at value self.old }
        ensures long { length self.new ≡ length self.old }
    {
        store_in(&mut self.entries, width, at, value);
    }

    /// The number of the byte at an offset; none exactly where it isn't known.
    pub fn known(&self, at: usize) -> Option<u8>
        requires { at < 4 * length self.now }
        ensures { result ≡ number_in (mark_at (cell_in self.now) at) }
    {
        match byte_at(&self.entries, at) {
            Entry::Known(number) => Some(number),
            Entry::Blank | Entry::Ptr { .. } | Entry::Ret { .. } | Entry::Mixed(_) => None,
        }
    }

    /// Gives its memory back, and has no cells from then on.
    pub fn release(&mut self)
        ensures { self.new ≡ [] }
    {
        self.entries.clear();
        self.entries.shrink_to_fit();
    }

    /// Takes over the cells of another buffer, up to the lesser length.
    pub fn overlay(&mut self, from: &CellBuffer)
        ensures cells { self.new ≡ overlaid from.now self.old }
        ensures long { length self.new ≡ length self.old }
    {
        overlay_in(&mut self.entries, &from.entries);
    }
}
