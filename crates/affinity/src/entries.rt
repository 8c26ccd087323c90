// Entries of the access list, and pairs of contexts.

/// An entry of the access list.
#[derive(Clone, Copy, Debug, PartialEq, Eq, Hash)]
pub struct Entry {
    /// The number of the block that was accessed.
    pub block: u32,
    /// How many bytes were accessed.
    pub width: u32,
}

/// The numbers of two contexts, the lower first.
#[derive(Clone, Copy, Debug, PartialEq, Eq, Hash)]
pub struct Pair {
    /// The lower number.
    pub low: u32,
    /// The higher number, which may be the same.
    pub high: u32,
}
