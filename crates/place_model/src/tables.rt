// The layout of a heap, kept in flat tables.
ghost use Rattle.std.specs.Prelude.{◌≡◌, ℕ, Some, ◌+◌, ◌-◌, ◌/◌, ◌^◌, ◌<◌, ◌≤◌, ◌↔◌, length, slice_set, slice_index_or};
ghost use Rattle.std.specs.Prelude.{is_none, position, [], ◌∷◌, ◌==◌, if◌then◌else◌, IsTrue, IfOk, All, Any};
ghost use Rattle.std.specs.Prelude.{vec_capacity};
ghost use Rattle.std.specs.Option.{option_or};
ghost use Rattle.plan_core.specs.Plan.{granules};
ghost use Rattle.place_spec.specs.Layout.{first_layout, current_of, chunk_of, chunk_size};
ghost use Rattle.place_spec.specs.Place.{current_spot, fresh_spot, front_spot, spot_of, granule_of, taken, placed_at};
ghost use Rattle.place_spec.specs.Release.{is_current, left_with, left_chunk, released};
ghost use Rattle.place_spec.specs.Sound.{Sound};
ghost use Rattle.place_model.specs.Tables.{layout_of, FewLive, IsFree, KeepsRoom};

use crate::extents::{front_of_chunk, granules_of, granules_of_chunk};
use crate::holes::{add_hole, cut_front, first_long_enough};
use place_spec::{Chunk, Hole, Spot};
use plan_core::Area;
use std::alloc::{AllocError, Global};

/// What begins at a granule: a live block of some granules and of a group or none; none where there
/// are no granules.
#[derive(Clone, Copy, Debug)]
pub struct Start {
    pub granules: u32,
    pub group: Option<u8>,
}

/// The current chunk of each group, the chunks, the holes in ascending order and, for each granule,
/// what begins there.
#[derive(Debug, Drop)]
pub struct Tables {
    pub currents: Vec<Option<usize>>,
    pub chunks: Vec<Chunk>,
    pub holes: Vec<Hole>,
    pub starts: Vec<Start>,
}

// The number of the lowest chunk without owner.
fn lowest_unowned(chunks: &[Chunk]) -> Option<usize>
    ensures { result ≡ position (λ c. is_none c.owner) chunks.now }
{
    chunks.iter().position(|chunk| chunk.owner.is_none())
}

impl Tables {
    /// The tables of the first layout, with room for all holes that there can be.
    pub fn new(alloc: Global, area: Area) -> Result<Self, AllocError>
        requires log_chunk { area.log_chunk ≤ 20 }
        requires granules { granules area ≤ 1048576 }
        ensures layout { IfOk result (λ tables. layout_of tables ≡ first_layout area) }
        ensures starts { IfOk result (λ tables. length tables.starts.items ≡ granules area) }
        ensures room { IfOk result (λ tables. (area.fallback + 1) / 2 ≤ vec_capacity tables.holes) }
    {
        let currents = vec![in alloc; None; 16]?;
        let chunks = vec![in alloc; Chunk {
            owner: None,
            bump: 0,
            live: 0
        }; area.chunks as usize]?;
        let starts = vec![in alloc; Start {
            granules: 0,
            group: None
        }; granules_of(area) as usize]?;
        let holes = first_holes(alloc, area.fallback)?;
        Ok(Tables {
            currents,
            chunks,
            holes,
            starts,
        })
    }

    // At the bump of the group's current chunk, where the block fits there.
    fn current_spot(&self, area: Area, need: u32, group: u8) -> Option<Spot>
        requires log_chunk { area.log_chunk ≤ 20 }
        requires sound { Sound area (layout_of self.now) }
        requires group { group < 16 }
        requires need { need ≤ chunk_size area }
        ensures { result ≡ current_spot area (layout_of self.now) need group }
    {
        let Some(number) = self.currents[group as usize] else {
            return None;
        };
        let chunk = self.chunks[number];
        if chunk.bump + need <= granules_of_chunk(area) {
            Some(Spot::Current(number))
        } else {
            None
        }
    }

    // In a chunk, where there is room in the group's current one or a chunk has no owner.
    fn chunk_spot(&self, area: Area, need: u32, group: u8) -> Option<Spot>
        requires log_chunk { area.log_chunk ≤ 20 }
        requires sound { Sound area (layout_of self.now) }
        requires group { group < 16 }
        requires need { need ≤ chunk_size area }
        ensures { result
            ≡ option_or (current_spot area (layout_of self.now) need group) (fresh_spot (layout_of self.now) group) }
    {
        if let Some(spot) = self.current_spot(area, need, group) {
            return Some(spot);
        }
        match lowest_unowned(self.chunks.as_slice()) {
            Some(number) => Some(Spot::Fresh(group, number)),
            None => None,
        }
    }

    // At the front of the first hole that is long enough.
    fn front_spot(&self, need: u32) -> Option<Spot>
        ensures { result ≡ front_spot (layout_of self.now) need }
    {
        match first_long_enough(self.holes.as_slice(), need) {
            Some(number) => Some(Spot::Front(number)),
            None => None,
        }
    }

    // The spot for a block of a group: in a chunk if a chunk can hold it, and else in a hole.
    fn group_spot(&self, area: Area, need: u32, group: u8) -> Option<Spot>
        requires log_chunk { area.log_chunk ≤ 20 }
        requires sound { Sound area (layout_of self.now) }
        requires group { group < 16 }
        ensures { result ≡ spot_of area (layout_of self.now) need (Some group) }
    {
        if need > granules_of_chunk(area) {
            return self.front_spot(need);
        }
        match self.chunk_spot(area, need, group) {
            Some(spot) => Some(spot),
            None => self.front_spot(need),
        }
    }

    /// The spot for a block of some granules and of a group or none; none where it is refused.
    pub fn spot(&self, area: Area, need: u32, group: Option<u8>) -> Option<Spot>
        requires log_chunk { area.log_chunk ≤ 20 }
        requires sound { Sound area (layout_of self.now) }
        requires group { (g : ℕ) → group ≡ Some g → g < 16 }
        ensures { result ≡ spot_of area (layout_of self.now) need group }
    {
        let Some(number) = group else {
            return self.front_spot(need);
        };
        self.group_spot(area, need, number)
    }

    // Takes granules at the bump of a chunk; gives the first.
    fn take_current(&mut self, area: Area, need: u32, number: usize) -> u32
        requires log_chunk { area.log_chunk ≤ 20 }
        requires granules { granules area ≤ 1048576 }
        requires free { IsFree area (layout_of self.old) need (Spot.Current number) }
        requires chunks { length self.old.chunks.items ≡ area.chunks }
        requires few { FewLive (layout_of self.old) }
        ensures granule { result ≡ granule_of area (layout_of self.old) (Spot.Current number) }
        ensures layout { layout_of self.new
            ≡ taken need (Spot.Current number) (layout_of self.old) }
        ensures kept { KeepsRoom self.old self.new }
    {
        let chunk = self.chunks[number];
        self.chunks[number] = Chunk {
            owner: chunk.owner,
            bump: chunk.bump + need,
            live: chunk.live + 1,
        };
        front_of_chunk(area, number) + chunk.bump
    }

    // Takes granules at the front of a chunk without owner; gives the first.
    fn take_fresh(&mut self, area: Area, need: u32, group: u8, number: usize) -> u32
        requires log_chunk { area.log_chunk ≤ 20 }
        requires granules { granules area ≤ 1048576 }
        requires free { IsFree area (layout_of self.old) need (Spot.Fresh group number) }
        requires chunks { length self.old.chunks.items ≡ area.chunks }
        ensures granule { result ≡ granule_of area (layout_of self.old) (Spot.Fresh group number) }
        ensures layout { layout_of self.new
            ≡ taken need (Spot.Fresh group number) (layout_of self.old) }
        ensures kept { KeepsRoom self.old self.new }
    {
        self.currents[group as usize] = Some(number);
        self.chunks[number] = Chunk {
            owner: Some(group),
            bump: need,
            live: 1,
        };
        front_of_chunk(area, number)
    }

    // Takes the granules of a spot; gives the first.
    fn take(&mut self, area: Area, need: u32, spot: Spot) -> u32
        requires log_chunk { area.log_chunk ≤ 20 }
        requires granules { granules area ≤ 1048576 }
        requires free { IsFree area (layout_of self.old) need spot }
        requires sound { Sound area (layout_of self.old) }
        requires few { FewLive (layout_of self.old) }
        ensures granule { result ≡ granule_of area (layout_of self.old) spot }
        ensures layout { layout_of self.new ≡ taken need spot (layout_of self.old) }
        ensures kept { KeepsRoom self.old self.new }
    {
        match spot {
            Spot::Current(number) => self.take_current(area, need, number),
            Spot::Fresh(group, number) => self.take_fresh(area, need, group, number),
            Spot::Front(number) => cut_front(&mut self.holes, number, need),
        }
    }

    /// Places a block of some granules and of a group or none at the spot that the rules choose;
    /// gives its first granule.
    pub fn place(&mut self, area: Area, need: u32, group: Option<u8>, spot: Spot) -> u32
        requires log_chunk { area.log_chunk ≤ 20 }
        requires granules { granules area ≤ 1048576 }
        requires need { 1 ≤ need }
        requires group { (g : ℕ) → group ≡ Some g → g < 16 }
        requires spot { spot_of area (layout_of self.old) need group ≡ Some spot }
        requires sound { Sound area (layout_of self.old) }
        requires few { FewLive (layout_of self.old) }
        requires starts { length self.old.starts.items ≡ granules area }
        ensures granule { result ≡ granule_of area (layout_of self.old) spot }
        ensures layout { layout_of self.new
            ≡ (placed_at area (layout_of self.old) need group spot).after }
        ensures kept { KeepsRoom self.old self.new }
    {
        let granule = self.take(area, need, spot);
        self.starts[granule as usize] = Start {
            granules: need,
            group,
        };
        granule
    }

    // Whether a chunk is the current one of its owner.
    fn is_current(&self, number: usize, owner: Option<u8>) -> bool
        requires { (g : ℕ) → owner ≡ Some g → g < length self.now.currents.items }
        ensures { result ≡ is_current (layout_of self.now) number owner }
    {
        let Some(group) = owner else {
            return false;
        };
        match self.currents[group as usize] {
            Some(current) => current == number,
            None => false,
        }
    }

    // A block of a chunk is released.
    fn leave(&mut self, number: usize)
        requires number { number < length self.old.chunks.items }
        requires live { 1 ≤ (chunk_of (layout_of self.old) number).live }
        requires owner { (g : ℕ) → (chunk_of (layout_of self.old) number).owner ≡ Some g
            → g < length self.old.currents.items }
        ensures chunks { self.new.chunks.items
            ≡ slice_set self.old.chunks.items number
            (left_chunk (layout_of self.old) number (chunk_of (layout_of self.old) number)) }
        ensures currents { self.new.currents.items ≡ self.old.currents.items }
        ensures holes { self.new.holes ≡ self.old.holes }
        ensures starts { self.new.starts ≡ self.old.starts }
    {
        let chunk = self.chunks[number];
        let current = self.is_current(number, chunk.owner);
        self.chunks[number] = left_by_one(chunk, current);
    }

    /// Releases the block that begins at a granule.
    pub fn release(&mut self, area: Area, granule: u32)
        requires log_chunk { area.log_chunk ≤ 20 }
        requires granules { granules area ≤ 1048576 }
        requires block { Any (λ b. b.first ≡ granule) (layout_of self.old).blocks }
        requires sound { Sound area (layout_of self.old) }
        requires starts { length self.old.starts.items ≡ granules area }
        requires room { (area.fallback + 1) / 2 ≤ vec_capacity self.old.holes }
        ensures layout { layout_of self.new ≡ released area (layout_of self.old) granule }
        ensures kept { KeepsRoom self.old self.new }
    {
        let start = self.starts[granule as usize];
        self.starts[granule as usize] = Start {
            granules: 0,
            group: None,
        };
        if granule < area.fallback {
            let hole = Hole {
                start: granule,
                length: start.granules,
            };
            add_hole(&mut self.holes, hole);
        } else {
            self.leave(((granule - area.fallback) >> area.log_chunk) as usize);
        }
    }
}

// One hole over the fallback, or none where it is empty; and room for a hole at every second granule.
fn first_holes(alloc: Global, fallback: u32) -> Result<Vec<Hole>, AllocError>
    ensures holes { IfOk result (λ holes. holes.items
        ≡ (if fallback == 0 then [] else record { start = 0; length = fallback } ∷ [])) }
    ensures room { IfOk result (λ holes. (fallback + 1) / 2 ≤ vec_capacity holes) }
{
    let mut holes = Vec::with_capacity(alloc, (fallback as usize + 1) / 2)?;
    if fallback == 0 {
        return Ok(holes);
    }
    holes.push(Hole {
        start: 0,
        length: fallback,
    })?;
    Ok(holes)
}

// A chunk one of whose blocks is released: with no block left only its owner's current chunk stays owned.
fn left_by_one(chunk: Chunk, current: bool) -> Chunk
    requires { 1 ≤ chunk.live }
    ensures { result ≡ left_with (chunk.live - 1) current chunk }
{
    if chunk.live > 1 {
        return Chunk {
            owner: chunk.owner,
            bump: chunk.bump,
            live: chunk.live - 1,
        };
    }
    Chunk {
        owner: if current { chunk.owner } else { None },
        bump: 0,
        live: 0,
    }
}
