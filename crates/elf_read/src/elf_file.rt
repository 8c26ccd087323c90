// A file's header fields, headers and symbols as records.

use elf_spec::{Section, Segment, Symbol};
use vec_list::VecList;

/// Segments in the file's order.
pub type SegmentList = VecList<Segment>;

/// Sections in the file's order.
pub type SectionList = VecList<Section>;

/// Symbols in the table's order.
pub type SymbolList = VecList<Symbol>;

/// What is read of a file: fields of its header (gABI, "ELF Header"), its program and section
/// headers, and the symbols of its first symbol table (none where it has no symbol table).
#[derive(Debug, Drop)]
pub struct Elf {
    /// `e_entry`: the address where the program begins.
    pub entry: u32,
    /// `e_phoff`: the file offset of the program headers.
    pub phoff: u32,
    /// `e_shoff`: the file offset of the section headers.
    pub shoff: u32,
    /// `e_flags`.
    pub flags: u32,
    pub segments: SegmentList,
    pub sections: SectionList,
    pub symbols: SymbolList,
}
