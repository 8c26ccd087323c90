// The types of a plan.
use vec_list::VecList;

/// A call site and the bit that is set while it is active.
#[derive(Clone, Copy, Debug, PartialEq, Eq, Hash)]
pub struct PlanLine {
    /// The number of the bit, which a fitting plan keeps below 32.
    pub bit: u8,
    /// The address of the site in the executable's memory.
    pub addr: u32,
}

/// The group of an allocation that is made while all the bits of a mask are set.
#[derive(Clone, Copy, Debug, PartialEq, Eq, Hash)]
pub struct Row {
    /// The number of the group, which a fitting plan keeps below 16.
    pub group: u8,
    /// The bits that have to be set.
    pub mask: u32,
}

/// The size of the heap's area, in granules of 16 bytes.
#[derive(Clone, Copy, Debug, PartialEq, Eq, Hash)]
pub struct Area {
    /// How many chunks there are for groups.
    pub chunks: u32,
    /// A chunk has 2 to the power of this many granules.
    pub log_chunk: u8,
    /// How many granules there are for what is in no group.
    pub fallback: u32,
}

/// Sites in the order of their lines.
pub type PlanLines = VecList<PlanLine>;

/// Rows in the order of their lines; the first whose mask is in the bits counts.
pub type RowList = VecList<Row>;

/// A plan of a heap's layout.
#[derive(Debug, Drop)]
pub struct Plan {
    /// The sites that set bits.
    pub sites: PlanLines,
    /// The rows that give bits a group.
    pub rows: RowList,
    /// The size of the heap's area.
    pub area: Area,
}
