// Why a file is not read.

use std::fmt;
use thiserror::Error;

/// One of the two header tables of a file.
#[derive(Clone, Copy, Debug, PartialEq, Eq)]
pub enum Table {
    Program,
    Section,
}

impl fmt::Display for Table {
    fn fmt<W: fmt::Write>(&self, f: &mut fmt::Formatter<W>) -> Result<(), fmt::Error> {
        f.write_str(match self {
            Table::Program => "program",
            Table::Section => "section",
        })
    }
}

/// Why a file is not read: the first check that it fails, in the order of the variants, with the
/// lowest index that fails it; or want of memory.
#[derive(Clone, Copy, Debug, PartialEq, Eq, Error)]
pub enum ElfRefusal {
    /// The file is shorter than its header, or does not begin with the magic number.
    #[error("not elf")]
    NotElf,
    /// `EI_CLASS` is this, not 1 (32 bits).
    #[error("class {0}")]
    WrongClass(u8),
    /// `EI_DATA` is this, not 1 (little-endian).
    #[error("byte order {0}")]
    WrongOrder(u8),
    /// `EI_VERSION` or `e_version` is not 1.
    #[error("version")]
    WrongVersion,
    /// `e_type` is this, not 2 (executable).
    #[error("type {0}")]
    NotExec(u16),
    /// `e_machine` is this, not 243 (RISC-V).
    #[error("machine {0}")]
    NotRiscv(u16),
    /// `e_flags` is this: compressed code, a float ABI or RV32E.
    #[error("flags {0:08x}")]
    Flags(u32),
    /// The table's entries have another size, or it leaves the file.
    #[error("{0} headers out")]
    TableOut(Table),
    /// There are so many program headers, more than 100.
    #[error("program headers {0}")]
    TooMany(u16),
    /// The segment asks for a dynamic linker or thread-local storage, or holds the headers.
    #[error("segment {index} kind {kind:08x}")]
    SegmentKind { index: u32, kind: u32 },
    /// The loaded segment's file range leaves the file or is greater than its memory range, or this
    /// ends above 0x7ff00000.
    #[error("segment {0} out")]
    SegmentOut(u32),
    /// The loaded segment shares an address or a file byte with an earlier one.
    #[error("segment {0} overlaps")]
    SegmentOverlap(u32),
    /// The PT_LOAD segments take so many bytes of memory, more than 134217728.
    #[error("{0} bytes")]
    TooLarge(u32),
    /// The section leaves the file, or it is the symbol table and has no whole entries of 16 bytes
    /// or no string table.
    #[error("section {0} out")]
    SectionOut(u32),
    /// The name of the symbol does not end inside the string table.
    #[error("symbol {0} name out")]
    NameOut(u32),
    /// There is no memory for the lists.
    #[error("out of memory")]
    Memory,
}
