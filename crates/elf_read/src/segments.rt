// The program headers of a file and their checks (gABI, "Program Header", "Program Loading").

ghost use Rattle.std.specs.Prelude.{◌≡◌, ◌+◌, ◌*◌, ◌<◌, ◌≤◌, ◌^◌, length, IfOk, IfSome};
ghost use Rattle.std.specs.List.{position};
ghost use Rattle.elf_spec.specs.Records.{entries, segment_at};
ghost use Rattle.elf_spec.specs.Memory.{is_loaded};
ghost use Rattle.first_check.specs.Answers.{Says};
ghost use Rattle.elf_read.specs.Checks.{is_refused_kind, is_segment_out};
ghost use Rattle.elf_read.specs.Refusals.{memory_size, segment_kind, segment_out, too_large};

use crate::elf_file::SegmentList;
use crate::fields::word;
use crate::refusals::ElfRefusal;
use elf_spec::Segment;
use std::alloc::{AllocError, Global};

const PT_LOAD: u32 = 1;

const PT_DYNAMIC: u32 = 2;

const PT_INTERP: u32 = 3;

const PT_PHDR: u32 = 6;

const PT_TLS: u32 = 7;

/// The greatest address at which a segment may end.
const MOST_ADDRESS: u64 = 0x7ff00000;

/// The most bytes of memory that all segments may take.
const MOST_MEMORY: u32 = 134217728;

/// The program header at an offset.
#[tactic(auto, unfolding(elf_spec::specs::Records::segment_at))]
fn segment(file: &[u8], at: usize) -> Segment
    requires { at + 32 ≤ length file.now }
    ensures { result ≡ segment_at file.now at }
{
    Segment {
        kind: word(file, at),
        offset: word(file, at + 4),
        vaddr: word(file, at + 8),
        paddr: word(file, at + 12),
        file_size: word(file, at + 16),
        mem_size: word(file, at + 20),
        flags: word(file, at + 24),
        align: word(file, at + 28),
    }
}

/// The program headers from an offset on.
pub(crate) fn read_segments(
    alloc: Global,
    file: &[u8],
    at: usize,
    count: usize,
) -> Result<SegmentList, AllocError>
    requires { 0 < count → at + 32 * count ≤ length file.now }
    ensures count { IfOk result (λ list. length list ≡ count) }
    ensures read { IfOk result (λ list. list ≡ entries (segment_at file.now) 32 at count) }
{
    let mut list = SegmentList::new(alloc);
    for i in 0..count {
        list.push(segment(file, at + 32 * i))?;
    }
    Ok(list)
}

fn is_refused_kind(kind: u32) -> bool
    ensures { result ≡ is_refused_kind kind }
{
    matches!(kind, PT_DYNAMIC | PT_INTERP | PT_PHDR | PT_TLS)
}

/// Checks that no segment asks for a dynamic linker or thread-local storage, or holds the headers.
#[tactic(auto, unfolding(crate::specs::Refusals::segment_kind))]
pub(crate) fn check_kinds(segments: &[Segment]) -> Result<(), ElfRefusal>
    requires { length segments.now < 2 ^ 32 }
    ensures { Says result (segment_kind segments.now) }
{
    for (i, s) in segments.iter().enumerate() {
        if is_refused_kind(s.kind) {
            return Err(ElfRefusal::SegmentKind {
                index: i as u32,
                kind: s.kind,
            });
        }
    }
    Ok(())
}

/// Whether a segment is a PT_LOAD that takes memory.
pub fn is_loaded(s: &Segment) -> bool
    ensures { result ≡ is_loaded s.now }
{
    s.kind == PT_LOAD && s.mem_size > 0
}

fn is_out(s: &Segment, bytes: usize) -> bool
    ensures { result ≡ is_segment_out bytes s.now }
{
    is_loaded(s)
        && (s.file_size > s.mem_size
            || s.offset as u64 + s.file_size as u64 > bytes as u64
            || s.vaddr as u64 + s.mem_size as u64 > MOST_ADDRESS)
}

fn first_out(segments: &[Segment], bytes: usize) -> Option<usize>
    ensures first { result ≡ position (is_segment_out bytes) segments.now }
    ensures inside { IfSome result (λ i. i < length segments.now) }
{
    segments.iter().position(|s| is_out(s, bytes))
}

/// Checks that the loaded segments are inside a file of so many bytes and below the greatest
/// address.
#[tactic(auto, unfolding(crate::specs::Refusals::segment_out))]
pub(crate) fn check_out(segments: &[Segment], bytes: usize) -> Result<(), ElfRefusal>
    requires { length segments.now < 2 ^ 32 }
    ensures { Says result (segment_out bytes segments.now) }
{
    match first_out(segments, bytes) {
        Some(i) => Err(ElfRefusal::SegmentOut(i as u32)),
        None => Ok(()),
    }
}

/// How many bytes of memory the PT_LOAD segments take.
pub fn memory_size(segments: &[Segment]) -> u32
    requires { memory_size segments.now < 2 ^ 32 }
    ensures { result ≡ memory_size segments.now }
{
    segments
        .iter()
        .map(|s| if s.kind == PT_LOAD { s.mem_size } else { 0 })
        .sum()
}

/// Checks how much memory the segments take.
#[tactic(auto, unfolding(crate::specs::Refusals::too_large))]
pub(crate) fn check_large(segments: &[Segment]) -> Result<(), ElfRefusal>
    requires { memory_size segments.now < 2 ^ 32 }
    ensures { Says result (too_large segments.now) }
{
    let bytes = memory_size(segments);
    if bytes > MOST_MEMORY {
        return Err(ElfRefusal::TooLarge(bytes));
    }
    Ok(())
}
