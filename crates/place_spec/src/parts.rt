// The parts of a heap's layout that the rules and the allocator share.

/// Free granules of the fallback, from the first on.
#[derive(Clone, Copy, Debug, PartialEq, Eq)]
pub struct Hole {
    /// The first free granule.
    pub start: u32,
    /// How many granules are free.
    pub length: u32,
}

/// A chunk: equally many granules for the blocks of one group at a time.
#[derive(Clone, Copy, Debug, PartialEq, Eq)]
pub struct Chunk {
    /// The group that the chunk belongs to.
    pub owner: Option<u8>,
    /// How many granules from the front on were given out.
    pub bump: u32,
    /// How many live blocks stand in the chunk.
    pub live: u32,
}

/// A place for a block.
#[derive(Clone, Copy, Debug, PartialEq, Eq)]
pub enum Spot {
    /// At the bump of a chunk, by its number.
    Current(usize),
    /// At the front of a chunk without owner, by its number, which the group then owns.
    Fresh(u8, usize),
    /// At the front of a hole, by its number.
    Front(usize),
}
