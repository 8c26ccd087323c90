// The file header and the program header (gABI, "ELF Header", "Program Header").
ghost use Rattle.std.specs.Prelude.{◌≡◌, ◌++◌, OnOk};
ghost use Rattle.rv_build.specs.Built.{file_header, identification, table_sizes};
ghost use Rattle.rv_build.specs.RecordBytes.{segment_bytes};

use crate::fields::{push_half, push_word};
use elf_spec::Segment;
use std::alloc::AllocError;

/// Where the file's first byte is loaded.
pub const BASE: u32 = 0x10000;
/// The file offset of the code.
pub const CODE_AT: usize = 256;
/// The address of the code, at which the program starts.
pub const ENTRY: u32 = 0x10100;
/// The size of the file header, which the program header follows.
const FILE_HEADER_SIZE: u16 = 52;
/// The size of a program header.
const SEGMENT_SIZE: u16 = 32;
/// The size of the file header and the program header.
pub const HEADERS_SIZE: usize = 84;
/// The size of a section header.
pub const SECTION_SIZE: u16 = 40;
/// The number of sections.
pub const SECTIONS: u16 = 5;

/// Class ELFCLASS32, order ELFDATA2LSB and version EV_CURRENT behind the magic number.
const IDENT: &[u8] = b"\x7fELF\x01\x01\x01\0\0\0\0\0\0\0\0\0";
/// Kind of a program header: the segment is loaded.
pub const PT_LOAD: u32 = 1;
/// The flags R and X of a program header.
pub const READ_AND_EXECUTE: u32 = 5;
/// The alignment of the segment.
pub const PAGE: u32 = 4096;

const ET_EXEC: u16 = 2;

const EM_RISCV: u16 = 243;

const EV_CURRENT: u32 = 1;

/// Adds what the file is.
#[tactic(auto, unfolding(crate::specs::Built::identification))]
fn push_identification(out: &mut Vec<u8>) -> Result<(), AllocError>
    ensures { OnOk result (out.new.items ≡ out.old.items ++ identification) }
{
    out.extend_from_slice(IDENT)?;
    Ok(())
}

/// Adds the sizes and numbers of the tables.
#[tactic(auto, using(crate::proofs::Assoc::assoc), unfolding(crate::specs::Built::table_sizes))]
fn push_table_sizes(out: &mut Vec<u8>) -> Result<(), AllocError>
    ensures { OnOk result (out.new.items ≡ out.old.items ++ table_sizes) }
{
    push_half(out, FILE_HEADER_SIZE)?;
    push_half(out, SEGMENT_SIZE)?;
    push_half(out, 1)?; // one program header
    push_half(out, SECTION_SIZE)?;
    push_half(out, SECTIONS)?;
    push_half(out, SECTIONS - 1) // the last section has the names
}

/// Adds the file header of a file whose section headers begin at `sections`.
#[tactic(auto, using(crate::proofs::Assoc::assoc), unfolding(crate::specs::Built::file_header))]
pub fn push_file_header(out: &mut Vec<u8>, sections: u32) -> Result<(), AllocError>
    ensures { OnOk result (out.new.items ≡ out.old.items ++ file_header sections) }
{
    push_identification(out)?;
    push_half(out, ET_EXEC)?;
    push_half(out, EM_RISCV)?;
    push_word(out, EV_CURRENT)?;
    push_word(out, ENTRY)?;
    push_word(out, u32::from(FILE_HEADER_SIZE))?;
    push_word(out, sections)?;
    push_word(out, 0)?; // e_flags
    push_table_sizes(out)
}

/// Adds a program header.
#[tactic(auto, using(crate::proofs::Assoc::assoc), unfolding(crate::specs::RecordBytes::segment_bytes))]
pub fn push_segment(out: &mut Vec<u8>, segment: Segment) -> Result<(), AllocError>
    ensures { OnOk result (out.new.items ≡ out.old.items ++ segment_bytes segment) }
{
    push_word(out, segment.kind)?;
    push_word(out, segment.offset)?;
    push_word(out, segment.vaddr)?;
    push_word(out, segment.paddr)?;
    push_word(out, segment.file_size)?;
    push_word(out, segment.mem_size)?;
    push_word(out, segment.flags)?;
    push_word(out, segment.align)
}
