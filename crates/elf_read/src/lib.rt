// Reads 32-bit little-endian ELF files (gABI): their fields, headers, sections and symbols.
#![tactic(auto)]

mod elf_file;
mod fields;
mod flag_bits;
mod header;
mod laws;
mod names;
mod overlaps;
mod read_file;
mod refusals;
mod sections;
mod segments;
mod symbols;

pub use elf_file::{Elf, SectionList, SegmentList, SymbolList};
pub use elf_spec::{ByteList, HeapName, Reloc, Section, Segment, Symbol};
pub use fields::{half, word};
pub use flag_bits::{FileFlags, SectionFlags, SegmentFlags};
pub use laws::readable_files_keep_their_facts;
pub use read_file::read_elf;
pub use refusals::{ElfRefusal, Table};
pub use sections::symbol_table;
pub use segments::{is_loaded, memory_size};
