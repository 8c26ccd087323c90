// The checks of the loaded segments (gABI, "Program Loading").

ghost use Rattle.std.specs.Prelude.{◌≡◌, ◌+◌, ◌<◌, ◌≤◌, ◌^◌, All, length};
ghost use Rattle.std.specs.List.{list_any};
ghost use Rattle.elf_spec.specs.Memory.{image_end, is_loaded};
ghost use Rattle.elf_spec.specs.Records.{e_phnum, segments_of};
ghost use Rattle.elf_read.specs.Refusals.{memory_size};
ghost use Rattle.first_check.specs.Answers.{Says};
ghost use Rattle.site_spec.specs.Places.{text_at};
ghost use Rattle.exec_image.specs.Checks.{ends_above, has_mark};
ghost use Rattle.exec_image.specs.Refusals.{already_rewritten, image_too_large};

use crate::file_bytes::bytes_at;
use crate::refusals::{FileRefusal, ImagePart};
use elf_read::{is_loaded, memory_size};
use elf_spec::Segment;

/// What a new text begins with.
const MARK: &[u8] = b"HALO-LAYOUT-RV1\n";

/// The most program headers, bytes of memory and the greatest end of an image.
const MOST_HEADERS: usize = 64;

const MOST_BYTES: u32 = 67108864;

const MOST_END: u64 = 0x7000_0000;

/// Whether a loaded segment begins with the mark.
fn has_mark(file: &[u8], g: &Segment) -> bool
    ensures { result ≡ has_mark file.now g.now }
{
    is_loaded(g) && g.file_size >= 16 && bytes_at(file, g.offset, 16) == MARK
}

fn is_marked(file: &[u8], segments: &[Segment]) -> bool
    ensures { result ≡ list_any (has_mark file.now) segments.now }
{
    segments.iter().any(|g| has_mark(file, g))
}

/// Checks that no loaded segment begins with the mark.
#[tactic(auto, unfolding(crate::specs::Refusals::already_rewritten))]
pub fn check_mark(file: &[u8], segments: &[Segment]) -> Result<(), FileRefusal>
    requires { segments.now ≡ segments_of file.now }
    ensures { Says result (already_rewritten file.now) }
{
    if is_marked(file, segments) {
        return Err(FileRefusal::AlreadyRewritten);
    }
    Ok(())
}

fn ends_above(segments: &[Segment], limit: u64) -> bool
    ensures { result ≡ list_any (ends_above limit) segments.now }
{
    segments.iter().any(|g| is_loaded(g) && g.vaddr as u64 + g.mem_size as u64 > limit)
}

/// Checks that new segments and stubs have room.
#[tactic(auto, unfolding(crate::specs::Refusals::image_too_large))]
pub fn check_room(file: &[u8], segments: &[Segment]) -> Result<(), FileRefusal>
    requires segments { segments.now ≡ segments_of file.now }
    requires count { length segments.now ≡ e_phnum file.now }
    requires memory { memory_size segments.now < 2 ^ 32 }
    ensures { Says result (image_too_large file.now) }
{
    if segments.len() > MOST_HEADERS {
        return Err(FileRefusal::ImageTooLarge(ImagePart::Headers));
    }
    if memory_size(segments) > MOST_BYTES {
        return Err(FileRefusal::ImageTooLarge(ImagePart::Bytes));
    }
    if ends_above(segments, MOST_END) {
        return Err(FileRefusal::ImageTooLarge(ImagePart::End));
    }
    Ok(())
}

/// The greatest end of a loaded segment.
fn image_end(segments: &[Segment]) -> u64
    ensures { result ≡ image_end segments.now }
{
    let mut end = 0;
    for g in segments {
        if is_loaded(g) {
            end = end.max(g.vaddr as u64 + g.mem_size as u64);
        }
    }
    end
}

/// Where the new text of a file stands: at the first multiple of 4096 past its image and from 65536 on.
pub fn text_place(file: &[u8], segments: &[Segment]) -> u32
    requires segments { segments.now ≡ segments_of file.now }
    requires room { image_end (segments_of file.now) ≤ 0x70000000 }
    ensures exact { result ≡ text_at file.now }
    ensures room { result ≤ 0x70001000 }
{
    let end = image_end(segments).max(65536);
    ((end + 4095) / 4096 * 4096) as u32
}
