// The plain parts of an image: what its loaded segments take, without the bytes of the file header and
// without the executable sections, and the stack.
ghost use Rattle.std.specs.Prelude.{◌≡◌, ◌&&◌, ◌||◌, not, ℕ, IfOk, OnOk};
ghost use Rattle.std.specs.List.{list_any};
ghost use Rattle.elf_spec.specs.Memory.{is_loaded};
ghost use Rattle.sym_spec.specs.Plain.{is_header_byte, is_plain, is_plain_store};
ghost use Rattle.sym_memory.specs.declared.parts.Access.{Access as Reach};
ghost use Rattle.sym_memory.specs.Parts.{gives, allowed, is_outside, is_plain_in, is_storable_in};
ghost use Rattle.sym_memory.specs.Starting.{segment_part, header_end, is_in_exec, stack_part};

use crate::parts::PlainPart;
use bitflags::Flags;
use elf_read::{Segment, SegmentFlags, is_loaded};
use exec_image::{Exec, Image};
use std::alloc::{AllocError, Global};

const HEADER_SIZE: u32 = 52;

/// What a loaded segment takes.
fn segment_part(s: &Segment) -> PlainPart
    ensures { result ≡ segment_part s.now }
{
    PlainPart {
        start: s.vaddr as usize,
        end: s.vaddr as usize + s.mem_size as usize,
        writable: SegmentFlags::from_bits_retain(s.flags).contains(SegmentFlags::WRITE),
    }
}

/// Where the bytes of the file header end in a segment: at its start where it has none.
fn header_end(s: &Segment) -> usize
    ensures { result ≡ header_end s.now }
{
    if !is_loaded(s) {
        return s.vaddr as usize;
    }
    let size = s
        .mem_size
        .min(s.file_size)
        .min(HEADER_SIZE.saturating_sub(s.offset));
    s.vaddr as usize + size as usize
}

fn stack_part() -> PlainPart
    ensures { result ≡ stack_part }
{
    PlainPart {
        start: 0x7ff0_0000,
        end: 0x8000_0000,
        writable: true,
    }
}

/// Adds a part, unless it is empty.
fn add(parts: &mut Vec<PlainPart>, part: PlainPart) -> Result<(), AllocError>
    ensures { OnOk result ((access : Reach) (a : ℕ)
        → allowed access parts.new.items a ≡ (allowed access parts.old.items a || gives access a part)) }
{
    if part.start < part.end {
        parts.push(part)?;
    }
    Ok(())
}

/// The parts without the addresses from `start` to before `end`.
fn cut(
    alloc: Global,
    parts: &[PlainPart],
    start: usize,
    end: usize,
) -> Result<Vec<PlainPart>, AllocError>
    ensures { IfOk result (λ rest. (access : Reach) (a : ℕ)
        → allowed access rest.items a ≡ (allowed access parts.now a && is_outside start end a)) }
{
    let mut rest = Vec::new(alloc);
    for part in parts {
        let low = part.end.min(start);
        let high = part.start.max(end);
        add(
            &mut rest,
            PlainPart {
                start: part.start,
                end: low,
                writable: part.writable,
            },
        )?;
        add(
            &mut rest,
            PlainPart {
                start: high,
                end: part.end,
                writable: part.writable,
            },
        )?;
    }
    Ok(rest)
}

/// What the loaded segments take.
fn segment_parts(alloc: Global, segments: &[Segment]) -> Result<Vec<PlainPart>, AllocError>
    ensures { IfOk result (λ parts. (access : Reach) (a : ℕ)
        → allowed access parts.items a ≡ list_any (λ s. is_loaded s && gives access a (segment_part s)) segments.now) }
{
    let mut parts = Vec::new(alloc);
    for segment in segments {
        if is_loaded(segment) {
            add(&mut parts, segment_part(segment))?;
        }
    }
    Ok(parts)
}

/// The parts without the bytes of the file header.
fn without_header(
    alloc: Global,
    parts: Vec<PlainPart>,
    segments: &[Segment],
) -> Result<Vec<PlainPart>, AllocError>
    ensures { IfOk result (λ rest. (access : Reach) (a : ℕ)
        → allowed access rest.items a ≡ (allowed access parts.items a
        && not (list_any (is_header_byte a) segments.now))) }
{
    let mut rest = parts;
    for segment in segments {
        rest = cut(alloc, &rest, segment.vaddr as usize, header_end(segment))?;
    }
    Ok(rest)
}

/// The parts without the executable sections.
fn without_code(
    alloc: Global,
    parts: Vec<PlainPart>,
    execs: &[Exec],
) -> Result<Vec<PlainPart>, AllocError>
    ensures { IfOk result (λ rest. (access : Reach) (a : ℕ)
        → allowed access rest.items a ≡ (allowed access parts.items a && not (list_any (is_in_exec a) execs.now))) }
{
    let mut rest = parts;
    for exec in execs {
        let start = exec.addr as usize;
        rest = cut(alloc, &rest, start, start + exec.size as usize)?;
    }
    Ok(rest)
}

/// The plain parts of an image.
pub fn plain_parts(alloc: Global, image: &Image) -> Result<Vec<PlainPart>, AllocError>
    ensures plain { IfOk result (λ parts. (a : ℕ) → is_plain_in parts.items a ≡ is_plain image.now a) }
    ensures storable { IfOk result (λ parts. (a : ℕ) → is_storable_in parts.items a ≡ is_plain_store image.now a) }
{
    let segments = image.elf().segments.as_slice();
    let loaded = segment_parts(alloc, segments)?;
    let behind_header = without_header(alloc, loaded, segments)?;
    let mut parts = without_code(alloc, behind_header, image.execs().as_slice())?;
    add(&mut parts, stack_part())?;
    Ok(parts)
}
