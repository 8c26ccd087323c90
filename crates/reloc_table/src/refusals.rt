// Why a file's relocations are refused.

use std::fmt;
use thiserror::Error;

/// Why a file's relocations are refused: the first check that they fail, in the order of the
/// variants, with the lowest index; or want of memory. The last three are checked entry by entry.
#[derive(Clone, Copy, Debug, PartialEq, Eq, Error)]
pub enum RelocRefusal {
    /// No kept relocation section applies to an executable section.
    #[error("no relocations")]
    NoRelocs,
    /// The relocation section has entries of another size than 12, or no whole number of them.
    #[error("section {0} entry size")]
    EntrySize(u32),
    /// The entry names a symbol that is not in the symbol table.
    #[error("section {section} entry {entry} symbol out")]
    SymbolOut { section: u32, entry: u32 },
    /// The entry that applies to this address is for thread-local storage.
    #[error("tls at {0:08x}")]
    Tls(u32),
    /// The entry that applies to this address is for compressed code.
    #[error("compressed at {0:08x}")]
    Compressed(u32),
    /// There is no memory for the entries.
    #[error("out of memory")]
    Memory,
}
