// Why a file isn't accepted.

use elf_read::ElfRefusal;
use elf_spec::HeapName;
use reloc_table::RelocRefusal;
use std::fmt;
use thiserror::Error;

/// What of an image is too large.
#[derive(Clone, Copy, Debug, PartialEq, Eq)]
pub enum ImagePart {
    /// There are more than 64 program headers.
    Headers,
    /// The segments take more than 67108864 bytes of memory.
    Bytes,
    /// A segment ends above 0x70000000.
    End,
}

impl fmt::Display for ImagePart {
    fn fmt<W: fmt::Write>(&self, f: &mut fmt::Formatter<W>) -> Result<(), fmt::Error> {
        f.write_str(match self {
            ImagePart::Headers => "headers",
            ImagePart::Bytes => "bytes",
            ImagePart::End => "end",
        })
    }
}

/// Why a file isn't accepted: the first check that it fails, in the order of the variants, with the
/// lowest index or address, or the first name in the order of `HeapName`; or want of memory. `Elf` and
/// `Relocs` never carry their own `Memory`.
#[derive(Clone, Copy, Debug, PartialEq, Eq, Error)]
pub enum FileRefusal {
    /// The headers or symbols are refused.
    #[error("{0}")]
    Elf(ElfRefusal),
    /// The relocations are refused.
    #[error("{0}")]
    Relocs(RelocRefusal),
    /// The executable section has an address or a size that is no multiple of 4.
    #[error("section {0} not words")]
    ExecNotWords(u32),
    /// The executable section isn't in the file part of one segment of code, or has bytes that describe
    /// the file.
    #[error("section {0} outside")]
    ExecOutside(u32),
    /// The program begins at this address, which is no code word.
    #[error("entry {0:08x} out")]
    EntryOut(u32),
    /// Symbols of this heap function have different values, or it has a byte of an earlier one.
    #[error("{name} twice", name = .0.name())]
    HeapEntryTwice(HeapName),
    /// The heap function hasn't two code words, or a symbol says so.
    #[error("{name} small", name = .0.name())]
    HeapEntrySmall(HeapName),
    /// A segment begins with the mark of a new text.
    #[error("already rewritten")]
    AlreadyRewritten,
    /// New segments or stubs would have no room.
    #[error("image {0}")]
    ImageTooLarge(ImagePart),
    /// The code word at this address names x4.
    #[error("x4 at {0:08x}")]
    TpUsed(u32),
    /// There is no memory for the image.
    #[error("out of memory")]
    Memory,
}
