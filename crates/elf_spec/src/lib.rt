// The records of a 32-bit ELF file, the names of heap functions, and in specs/ what they are over the
// file's bytes.
#![tactic(auto)]

ghost use Rattle.std.specs.Prelude.{◌≡◌, ◌≤◌, length};
ghost use Rattle.elf_spec.specs.Heap.{heap_name};

use vec_list::VecList;

/// A list of bytes.
pub type ByteList = VecList<u8>;

/// The fields of a program header, in the file's order (gABI, "Program Header").
#[derive(Clone, Copy, Debug, PartialEq, Eq)]
pub struct Segment {
    pub kind: u32,
    pub offset: u32,
    pub vaddr: u32,
    pub paddr: u32,
    pub file_size: u32,
    pub mem_size: u32,
    pub flags: u32,
    pub align: u32,
}

/// The fields of a section header, in the file's order (gABI, "Section Header").
#[derive(Clone, Copy, Debug, PartialEq, Eq)]
pub struct Section {
    pub name: u32,
    pub kind: u32,
    pub flags: u32,
    pub addr: u32,
    pub offset: u32,
    pub size: u32,
    pub link: u32,
    pub info: u32,
    pub align: u32,
    pub entry_size: u32,
}

/// A symbol (gABI, "Symbol Table"): `name_at` is the file offset of its name and `name_len` the
/// name's bytes before its zero byte; both are 0 for a symbol without a name.
#[derive(Clone, Copy, Debug, PartialEq, Eq)]
pub struct Symbol {
    pub name_at: u32,
    pub name_len: u32,
    pub value: u32,
    pub size: u32,
    pub info: u8,
    pub section: u16,
}

/// A relocation entry with addend (gABI, "Relocation"): the address that it applies to, its type
/// and the index of its symbol.
#[derive(Clone, Copy, Debug, PartialEq, Eq)]
pub struct Reloc {
    pub place: u32,
    pub kind: u8,
    pub symbol: u32,
}

/// A word that is to stand at a file offset in place of the four bytes there.
#[derive(Clone, Copy, Debug, PartialEq, Eq)]
pub struct Patch {
    pub offset: u32,
    pub word: u32,
}

/// A segment that is added to a file: where it is loaded, its flags, its size in memory and the
/// bytes of its file part.
#[derive(Debug, Drop)]
pub struct NewSegment {
    pub vaddr: u32,
    pub flags: u32,
    pub mem_size: u32,
    pub bytes: ByteList,
}

/// A heap function that an executable may have: one of C, or its reentrant form in newlib (`_malloc_r`
/// and so on), in the order in which they are looked at.
#[derive(Clone, Copy, Debug, PartialEq, Eq)]
pub enum HeapName {
    Malloc,
    Calloc,
    Realloc,
    Free,
    MallocR,
    CallocR,
    ReallocR,
    FreeR,
}

impl HeapName {
    /// The name that the function's symbol has.
    pub fn name(self) -> &'static str
        ensures name { result.now ≡ heap_name self }
        ensures short { length result.now ≤ 10 }
    {
        match self {
            HeapName::Malloc => "malloc",
            HeapName::Calloc => "calloc",
            HeapName::Realloc => "realloc",
            HeapName::Free => "free",
            HeapName::MallocR => "_malloc_r",
            HeapName::CallocR => "_calloc_r",
            HeapName::ReallocR => "_realloc_r",
            HeapName::FreeR => "_free_r",
        }
    }
}
