// Placing, releasing and moving blocks by their addresses.
ghost use Rattle.std.specs.Prelude.{◌≡◌, ℕ, ◌+◌, ◌<◌, ◌≤◌, ◌^◌, ◌↔◌, All, length, ◌≢◌, IsTrue, IsSome, IsNone, IfOk};
ghost use Rattle.std.specs.Prelude.{IfSome, IfNone};
ghost use Rattle.plan_core.specs.Plan.{granules, group_of_bits};
ghost use Rattle.place_spec.specs.Layout.{first_layout, granules_for, address_of};
ghost use Rattle.place_spec.specs.Place.{IsRefused};
ghost use Rattle.place_spec.specs.Sound.{Sound};
ghost use Rattle.place_model.specs.Heap.{LivesAt, address_in, placed_in_heap, moved_in_heap, heap_after, heap_without};

use crate::tables::Tables;
use place_spec::{Chunk, Hole};
use plan_core::{Plan, PlanLines, RowList, group_of};
use std::alloc::{AllocError, Global};
use std::marker::Model;

/// How many granules of 16 bytes a block of `size` bytes needs: at least one.
pub fn need_of(size: u32) -> u32
    ensures { result ≡ granules_for size }
{
    size.div_ceil(16).max(1)
}

/// A heap's area: which of its granules are given out, under the rows of a plan.
#[derive(Debug, Drop)]
pub struct Places {
    plan: Plan,
    base: u32,
    tables: Tables,
}

impl Model for Places {
    ghost use Rattle.place_model.specs.Heap.{Heap};

    ghost Value = { Heap };

    ghost use Rattle.place_model.specs.Tables.{layout_of, IsKept};

    ghost view = { λ p. record { rows = p.plan.rows; area = p.plan.area; base = p.base; layout = layout_of p.tables } };

    ghost invariant = { λ p. IsKept p.plan p.base p.tables };
}

impl Places {
    /// The first layout of the plan's area, which begins at `base`. All memory is taken here.
    pub fn new(alloc: Global, plan: &Plan, base: u32) -> Result<Self, AllocError>
        requires groups { All (λ row. row.group < 16) plan.now.rows }
        requires log_chunk { plan.now.area.log_chunk ≤ 20 }
        requires area { granules plan.now.area ≤ 1048576 }
        requires ends { address_of base (granules plan.now.area) < 2 ^ 32 }
        ensures layout { IfOk result (λ places. places ≡ record {
          rows = plan.now.rows;
          area = plan.now.area;
          base = base;
          layout = first_layout plan.now.area;
        }) }
        ensures sound { IfOk result (λ places. Sound places.area places.layout) }
    {
        let rows = Vec::from_slice(alloc, plan.rows.as_slice())?;
        let tables = Tables::new(alloc, plan.area)?;
        Ok(Places {
            plan: Plan {
                sites: PlanLines::new(alloc),
                rows: RowList::from(rows),
                area: plan.area,
            },
            base,
            tables,
        })
    }

    /// Places a block of `need` granules for a request under `bits`, whose group the rows say; gives
    /// its address. None, and no change, where the rules refuse it.
    pub fn place(&mut self, need: u32, bits: u32) -> Option<u32>
        requires { 1 ≤ need }
        ensures address { result ≡ address_in self.old (placed_in_heap self.old need bits) }
        ensures layout { self.new ≡ heap_after self.old (placed_in_heap self.old need bits) }
        ensures refused { IsNone result
            ↔ IsRefused self.old.area self.old.layout need (group_of_bits self.old.rows bits) }
        ensures unchanged { IfNone result (self.new ≡ self.old) }
        ensures lives { IfSome result (λ addr. LivesAt self.new addr) }
        ensures apart { IfSome result (λ addr. ¬ LivesAt self.old addr) }
        ensures others { (addr : ℕ) → LivesAt self.old addr → LivesAt self.new addr }
        ensures sound { Sound self.new.area self.new.layout }
    {
        let group = group_of(&self.plan, bits);
        match self.tables.spot(self.plan.area, need, group) {
            Some(spot) => {
                let granule = self.tables.place(self.plan.area, need, group, spot);
                Some(self.base + 16 * granule)
            }
            None => None,
        }
    }

    /// Whether a block of `need` granules would be placed for a request under `bits`.
    pub fn fits(&self, need: u32, bits: u32) -> bool
        requires { 1 ≤ need }
        ensures fits { IsTrue result ↔ IsSome (placed_in_heap self.now need bits) }
        ensures small { IsTrue result → need ≤ granules self.now.area }
    {
        let group = group_of(&self.plan, bits);
        self.tables.spot(self.plan.area, need, group).is_some()
    }

    /// Releases the live block at `addr`.
    pub fn release(&mut self, addr: u32)
        requires { LivesAt self.old addr }
        ensures layout { self.new ≡ heap_without self.old addr }
        ensures others { (other : ℕ) → other ≢ addr → LivesAt self.old other
            → LivesAt self.new other }
        ensures sound { Sound self.new.area self.new.layout }
    {
        let granule = (addr - self.base) / 16;
        self.tables.release(self.plan.area, granule);
    }

    /// Places a block as `place` does, and then releases the live block at `addr`. None, and no
    /// change, where the placing is refused.
    pub fn move_to(&mut self, addr: u32, need: u32, bits: u32) -> Option<u32>
        requires block { LivesAt self.old addr }
        requires need { 1 ≤ need }
        ensures address { result ≡ address_in self.old (moved_in_heap self.old addr need bits) }
        ensures layout { self.new ≡ heap_after self.old (moved_in_heap self.old addr need bits) }
        ensures refused { IsNone result
            ↔ IsRefused self.old.area self.old.layout need (group_of_bits self.old.rows bits) }
        ensures unchanged { IfNone result (self.new ≡ self.old) }
        ensures lives { IfSome result (λ new. LivesAt self.new new) }
        ensures others { (other : ℕ) → other ≢ addr → LivesAt self.old other
            → LivesAt self.new other }
        ensures sound { Sound self.new.area self.new.layout }
    {
        match self.place(need, bits) {
            Some(new) => {
                self.release(addr);
                Some(new)
            }
            None => None,
        }
    }

    /// The holes of the fallback, in ascending order.
    pub fn holes(&self) -> &[Hole]
        ensures { result.now ≡ self.now.layout.holes }
    {
        self.tables.holes.as_slice()
    }

    /// The chunks.
    pub fn chunks(&self) -> &[Chunk]
        ensures { result.now ≡ self.now.layout.chunks }
    {
        self.tables.chunks.as_slice()
    }
}
