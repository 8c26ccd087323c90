// The program header table of the new file (gABI, "Program Header").
ghost use Rattle.std.specs.Prelude.{◌≡◌, ◌+◌, ◌*◌, ◌^◌, ◌<◌, ◌≤◌, ◌++◌, take, drop, length, All, OnOk};
ghost use Rattle.elf_spec.specs.NewFile.{header_bytes, new_headers, up16};
ghost use Rattle.elf_spec.specs.Records.{e_phnum, e_phoff};
ghost use Rattle.elf_write.specs.Inputs.{HasTable, IsSmall};

use crate::bytes::{push_word, read_half, read_word};
use crate::contents::{PAGE, next_page};
use elf_spec::NewSegment;
use std::alloc::AllocError;

/// Offset of the program header table's offset in the file header.
pub const E_PHOFF: usize = 28;
/// Offset of the number of program headers in the file header.
pub const E_PHNUM: usize = 44;
/// Bytes of a program header.
pub const HEADER_SIZE: usize = 32;
/// The alignment of the program header table.
const TABLE_ALIGN: usize = 16;
/// Kind of a program header: the segment is loaded.
const PT_LOAD: u32 = 1;

/// The number of program headers of `file`.
pub fn header_count(file: &[u8]) -> usize
    requires { 52 ≤ length file.now }
    ensures { result ≡ e_phnum file.now }
{
    usize::from(read_half(file, E_PHNUM))
}

/// Where the program header table of the new file begins: at the next multiple of 16.
pub fn table_place(file: &[u8]) -> usize
    requires { length file.now ≤ 33554432 }
    ensures is { result ≡ up16 (length file.now) }
    ensures after { length file.now ≤ result }
    ensures near { result ≤ 33554432 }
{
    file.len().next_multiple_of(TABLE_ALIGN)
}

/// Where the program header table of the new file ends if it has `more` further headers.
pub fn table_end(file: &[u8], more: usize) -> usize
    requires has_file_header { 52 ≤ length file.now }
    requires fits_32_mib { length file.now ≤ 33554432 }
    requires has_few_headers { e_phnum file.now ≤ 64 }
    requires few_segments { more ≤ 2 }
    ensures is { result ≡ up16 (length file.now) + 32 * (e_phnum file.now + more) }
    ensures low { result ≤ 33600000 }
{
    table_place(file) + HEADER_SIZE * (header_count(file) + more)
}

/// Adds the old program headers as they stand in `file`.
pub fn push_old_headers(out: &mut Vec<u8>, file: &[u8]) -> Result<(), AllocError>
    requires has_file_header { 52 ≤ length file.now }
    requires has_table { HasTable file.now }
    ensures is { OnOk result (out.new.items ≡ out.old.items ++ take (32 * e_phnum file.now)
        (drop (e_phoff file.now) file.now)) }
    ensures long { OnOk result (length out.new.items ≡ length out.old.items + 32 * e_phnum file.now) }
{
    let count = header_count(file);
    if count > 0 {
        let start = read_word(file, E_PHOFF) as usize;
        out.extend_from_slice(&file[start..start + HEADER_SIZE * count])?;
    }
    Ok(())
}

/// Adds the program header of a segment whose file part begins at `offset`.
#[tactic(auto, using(crate::proofs::Assoc::assoc), unfolding(elf_spec::specs::NewFile::header_bytes))]
fn push_header(out: &mut Vec<u8>, offset: u32, segment: &NewSegment) -> Result<(), AllocError>
    requires { length segment.now.bytes ≤ 65536 }
    ensures is { OnOk result (out.new.items ≡ out.old.items ++ header_bytes offset segment.now) }
    ensures long { OnOk result (length out.new.items ≡ length out.old.items + 32) }
{
    push_word(out, PT_LOAD)?;
    push_word(out, offset)?;
    push_word(out, segment.vaddr)?;
    push_word(out, segment.vaddr)?;
    push_word(out, segment.bytes.as_slice().len() as u32)?;
    push_word(out, segment.mem_size)?;
    push_word(out, segment.flags)?;
    push_word(out, PAGE as u32)
}

/// Adds the program headers of segments that are laid out from `end` on.
#[tactic(auto, using(crate::proofs::Assoc::assoc))]
pub fn push_headers(
    out: &mut Vec<u8>,
    end: usize,
    segments: &[NewSegment],
) -> Result<(), AllocError>
    requires low { end ≤ 33600000 }
    requires few_segments { length segments.now ≤ 2 }
    requires small_segments { All IsSmall segments.now }
    ensures is { OnOk result (out.new.items ≡ out.old.items ++ new_headers end segments.now) }
    ensures long { OnOk result (length out.new.items ≡ length out.old.items + 32 * length segments.now) }
{
    let mut at = end;
    for segment in segments {
        let place = next_page(at);
        push_header(out, place as u32, segment)?;
        at = place + segment.bytes.as_slice().len();
    }
    Ok(())
}
