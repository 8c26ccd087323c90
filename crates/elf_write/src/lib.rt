// The new file: an ELF file with patched words and added segments, made in one buffer.
#![tactic(auto)]

ghost use Rattle.std.specs.Prelude.{◌≡◌, ◌+◌, ◌*◌, ◌≤◌, length, All, IfOk};
ghost use Rattle.elf_spec.specs.NewFile.{new_file};
ghost use Rattle.elf_spec.specs.Records.{e_phnum};
ghost use Rattle.elf_write.specs.Inputs.{HasTable, IsInside, IsSmall};
ghost use Rattle.elf_write.specs.Layout.{NewLayout};

mod bytes;
mod contents;
mod from_elf;
mod front;
mod laws;
mod table;

use contents::{contents_end, push_contents};
use elf_spec::{NewSegment, Patch};
pub use from_elf::with_segments;
use front::front_copy;
pub use laws::new_files_are_read_again;
use std::alloc::{AllocError, Global};
use table::{push_headers, push_old_headers, table_end, table_place};

/// The bytes of `file` with `patches` and with `segments` added behind them: the program header
/// table moves to the next multiple of 16 behind the old bytes, and each added segment stands at
/// the next multiple of 4096 from what is before it (gABI, "Program Header").
///
/// The old program headers are copied as they stand in `file`, without patches; where there are none,
/// their place in `file` is not looked at. A later patch wins over an earlier one of the same bytes.
/// The one failure is want of memory.
#[tactic(auto, unfolding(elf_spec::specs::NewFile::new_file))]
pub fn with_new_segments(
    alloc: Global,
    file: &[u8],
    patches: &[Patch],
    segments: &[NewSegment],
) -> Result<Vec<u8>, AllocError>
    requires has_file_header { 52 ≤ length file.now }
    requires fits_32_mib { length file.now ≤ 33554432 }
    requires has_table { HasTable file.now }
    requires has_few_headers { e_phnum file.now ≤ 64 }
    requires patches_inside { All (IsInside (length file.now)) patches.now }
    requires few_segments { length segments.now ≤ 2 }
    requires small_segments { All IsSmall segments.now }
    ensures is { IfOk result (λ new. new.items ≡ new_file file.now patches.now segments.now) }
    ensures fits_33_mib { IfOk result (λ new. length new.items ≤ 34603008) }
    ensures layout { IfOk result (λ new. NewLayout file.now patches.now segments.now new.items) }
{
    let place = table_place(file);
    let end = table_end(file, segments.len());
    let mut out = front_copy(
        alloc,
        contents_end(end, segments),
        file,
        patches,
        segments.len(),
    )?;
    out.resize(place, 0)?;
    push_old_headers(&mut out, file)?;
    push_headers(&mut out, end, segments)?;
    push_contents(&mut out, end, segments)?;
    Ok(out)
}
