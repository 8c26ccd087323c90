// The cells of an image's plain bytes: a span for each loaded segment and one for the stack.
ghost use Rattle.std.specs.Prelude.{◌≡◌, ◌+◌, ◌*◌, ◌<◌, ◌≤◌, ◌^◌, [], ◌∷◌, ◌++◌, map, filter, All, IfOk, OnOk};
ghost use Rattle.std.specs.Prelude.{if◌then◌else◌};
ghost use Rattle.elf_spec.specs.Memory.{is_loaded, image_end};
ghost use Rattle.machine_spec.specs.Memory.{stack_start, stack_size, byte_of};
ghost use Rattle.sym_cells.specs.declared.Mark.TheVariants.{Blank as BlankMark};
ghost use Rattle.sym_spec.specs.StartMemory.{mark_of, span_over, segment_span};
ghost use Rattle.sym_memory.specs.Parts.{span_of, spans_of, is_plain_in};
ghost use Rattle.sym_memory.specs.Starting.{mark_in_memory, cell_in_memory, EndsLow};

use crate::parts::{Access, PlainPart, is_allowed};
use crate::spans::PlainSpan;
use cell_buffer::CellBuffer;
use elf_read::{Segment, is_loaded};
use flat_mem::FlatMem;
use std::alloc::{AllocError, Global};
use sym_cells::Mark;

const STACK_START: u32 = 0x7ff0_0000;

const STACK_SIZE: u32 = 0x10_0000;

/// The byte at an address, where it is plain.
fn start_mark(parts: &[PlainPart], memory: &FlatMem, addr: u32) -> Mark
    ensures { result ≡ mark_in_memory parts.now memory.now addr }
{
    if !is_allowed(parts, Access::Load, addr as usize) {
        return Mark::Blank;
    }
    match memory.get(addr) {
        Some(number) => Mark::Known(number),
        None => Mark::Blank,
    }
}

/// Adds the cell with a number.
fn push_cell(
    cells: &mut CellBuffer,
    parts: &[PlainPart],
    memory: &FlatMem,
    cell: u32,
) -> Result<(), AllocError>
    requires { 4 * cell + 3 < 2 ^ 32 }
    ensures { OnOk result (cells.new ≡ cells.old ++ cell_in_memory parts.now memory.now cell ∷ []) }
{
    let addr = 4 * cell;
    cells.push(
        start_mark(parts, memory, addr),
        start_mark(parts, memory, addr + 1),
        start_mark(parts, memory, addr + 2),
        start_mark(parts, memory, addr + 3),
    )
}

/// The cells that have a byte of the `size` from an address on.
fn span_over(
    alloc: Global,
    parts: &[PlainPart],
    memory: &FlatMem,
    start: u32,
    size: u32,
) -> Result<PlainSpan, AllocError>
    requires { start + size ≤ 2 ^ 31 }
    ensures { IfOk result (λ span. span_of span ≡ span_over (cell_in_memory parts.now memory.now) start size) }
{
    let first = start / 4;
    let end = (start + size + 3) / 4;
    let mut cells = CellBuffer::with_room(alloc, (end - first) as usize)?;
    for cell in first..end {
        push_cell(&mut cells, parts, memory, cell)?;
    }
    Ok(PlainSpan { first, cells })
}

/// The span of each loaded segment.
fn segment_spans(
    alloc: Global,
    parts: &[PlainPart],
    memory: &FlatMem,
    segments: &[Segment],
) -> Result<Vec<PlainSpan>, AllocError>
    requires { All EndsLow segments.now }
    ensures { IfOk result (λ spans. spans_of spans.items
        ≡ map (segment_span (cell_in_memory parts.now memory.now)) (filter is_loaded segments.now)) }
{
    let mut spans = Vec::new(alloc);
    for segment in segments {
        if is_loaded(segment) {
            let span = span_over(alloc, parts, memory, segment.vaddr, segment.mem_size)?;
            spans.push(span)?;
        }
    }
    Ok(spans)
}

/// The span of each loaded segment, and behind them that of the stack.
pub fn plain_spans(
    alloc: Global,
    parts: &[PlainPart],
    memory: &FlatMem,
    segments: &[Segment],
) -> Result<Vec<PlainSpan>, AllocError>
    requires { All EndsLow segments.now }
    ensures { IfOk result (λ spans. spans_of spans.items
        ≡ map (segment_span (cell_in_memory parts.now memory.now)) (filter is_loaded segments.now)
        ++ span_over (cell_in_memory parts.now memory.now) stack_start stack_size ∷ []) }
{
    let mut spans = segment_spans(alloc, parts, memory, segments)?;
    let stack = span_over(alloc, parts, memory, STACK_START, STACK_SIZE)?;
    spans.push(stack)?;
    Ok(spans)
}

/// The greatest end of a loaded segment.
pub fn image_end(segments: &[Segment]) -> u64
    ensures { result ≡ image_end segments.now }
{
    let mut end = 0;
    for segment in segments {
        if is_loaded(segment) {
            end = end.max(segment.vaddr as u64 + segment.mem_size as u64);
        }
    }
    end
}
