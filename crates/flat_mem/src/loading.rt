// Memory as a file's segments say (gABI, "Program Loading"), with the stack.

ghost use Rattle.std.specs.Prelude.{◌≡◌, ◌+◌, ◌-◌, ◌<◌, ◌≤◌, ◌^◌, [], ◌∷◌, ◌++◌, true, length, map, filter, replicate};
ghost use Rattle.std.specs.Prelude.{All, IfOk, OnOk};
ghost use Rattle.machine_spec.specs.Memory.{memory_of, range_of, stack, stack_size, stack_start};
ghost use Rattle.elf_spec.specs.Memory.{is_loaded};
ghost use Rattle.elf_read.specs.Checks.{load_size};
ghost use Rattle.elf_read.specs.Elf.{elf_of, IsReadable};
ghost use Rattle.elf_read.specs.Refusals.{memory_size};
ghost use Rattle.elf_read.specs.Readable.{IsLoadedInside};
ghost use Rattle.flat_mem.specs.Areas.{AreApart};
ghost use Rattle.flat_mem.specs.Building.{area_for, memory_in, IsWhole};

use crate::area::Area;
use crate::decoding::empty_table;
use crate::directory::{PAGE_SIZE, directory_size, give_pages, page_size};
use crate::memory::FlatMem;
use crate::pieces::{fill_in, put_in};
use crate::storage::Storage;
use bitflags::Flags;
use elf_read::{
    Elf, Segment, SegmentFlags, is_loaded, memory_size, readable_files_keep_their_facts,
};
use std::alloc::{AllocError, Global};

const STACK_START: u32 = 0x7ff00000;

/// Memory that is being built: its areas, their pages with the flags beside each byte, and the directory.
#[derive(Drop)]
struct Building {
    areas: Vec<Area>,
    directory: Vec<u32>,
    bytes: Vec<u8>,
    rights: Vec<u8>,
}

/// So many entries of 0.
fn zeros(alloc: Global, count: usize) -> Result<Vec<u32>, AllocError>
    ensures { IfOk result (λ entries. entries.items ≡ replicate count 0) }
{
    vec![in alloc; 0; count]
}

/// Memory without areas, with room for so many bytes: every address has the first page.
fn empty(alloc: Global, room: usize) -> Result<Building, AllocError>
    ensures whole { IfOk result IsWhole }
    ensures none { IfOk result (λ memory. memory.areas.items ≡ []) }
    ensures long { IfOk result (λ memory. length memory.bytes.items ≡ 4096) }
{
    let directory = zeros(alloc, directory_size())?;
    let mut bytes = Vec::with_capacity(alloc, room)?;
    bytes.resize(page_size(), 0)?;
    let mut rights = Vec::with_capacity(alloc, room)?;
    rights.resize(page_size(), 0)?;
    Ok(Building {
        areas: Vec::new(alloc),
        directory,
        bytes,
        rights,
    })
}

/// Adds an area: its bytes are a part of the file and zero bytes behind it.
fn add(memory: &mut Building, area: Area, part: &[u8]) -> Result<(), AllocError>
    requires whole { IsWhole memory.old }
    requires apart { All (λ s. AreApart s area) memory.old.areas.items }
    requires size { 0 < area.size }
    requires end { area.start + area.size ≤ 2 ^ 32 }
    requires fits { length part.now ≤ area.size }
    requires room { length memory.old.bytes.items ≤ 2 ^ 40 }
    ensures whole { OnOk result (IsWhole memory.new) }
    ensures areas { OnOk result (memory.new.areas.items ≡ memory.old.areas.items ++ area ∷ []) }
    ensures long { OnOk result (length memory.new.bytes.items ≤ length memory.old.bytes.items + area.size + 8192) }
    ensures ranges { OnOk result (memory_in memory.new ≡ memory_in memory.old
        ++ record {
          start = area.start;
          writable = area.writable;
          executable = area.executable;
          bytes = part.now
              ++ replicate (area.size - length part.now) 0;
        } ∷ []) }
{
    let before = (memory.bytes.len() / PAGE_SIZE) as u32;
    let pages = give_pages(&mut memory.directory, area.start, area.size, before);
    memory.bytes.resize(pages as usize * PAGE_SIZE, 0)?;
    memory.rights.resize(pages as usize * PAGE_SIZE, 0)?;
    fill_in(
        &memory.directory,
        &mut memory.rights,
        area.start,
        area.size,
        area.rights(),
    );
    put_in(&memory.directory, &mut memory.bytes, area.start, part);
    memory.areas.push(area)?;
    Ok(())
}

/// Adds a segment's memory, if it is loaded.
fn add_segment(memory: &mut Building, segment: &Segment, file: &[u8]) -> Result<(), AllocError>
    requires whole { IsWhole memory.old }
    requires inside { IsLoadedInside (length file.now) segment.now }
    requires apart { is_loaded segment.now ≡ true
        → All (λ s. AreApart s (area_for segment.now)) memory.old.areas.items }
    requires room { length memory.old.bytes.items ≤ 2 ^ 40 }
    ensures whole { OnOk result (IsWhole memory.new) }
    ensures areas { OnOk result (memory.new.areas.items ≡ memory.old.areas.items
        ++ map area_for (filter is_loaded (segment.now ∷ []))) }
    ensures long { OnOk result (length memory.new.bytes.items
        ≤ length memory.old.bytes.items + load_size segment.now + 8192) }
    ensures ranges { OnOk result (memory_in memory.new ≡ memory_in memory.old
        ++ map (range_of file.now) (filter is_loaded (segment.now ∷ []))) }
{
    if !is_loaded(segment) {
        return Ok(());
    }
    let at = segment.offset as usize;
    let flags = SegmentFlags::from_bits_retain(segment.flags);
    let area = Area {
        start: segment.vaddr,
        size: segment.mem_size,
        writable: flags.contains(SegmentFlags::WRITE),
        executable: flags.contains(SegmentFlags::EXECUTE),
    };
    add(memory, area, &file[at..at + segment.file_size as usize])
}

/// How many bytes the stack has.
fn stack_size() -> u32
    ensures is { result ≡ stack_size }
    ensures small { result ≤ 1048576 }
{
    0x100000
}

/// Adds the stack, which is zero.
fn add_stack(memory: &mut Building) -> Result<(), AllocError>
    requires whole { IsWhole memory.old }
    requires below { All (λ s. s.start + s.size ≤ stack_start) memory.old.areas.items }
    requires room { length memory.old.bytes.items ≤ 2 ^ 40 }
    ensures whole { OnOk result (IsWhole memory.new) }
    ensures ranges { OnOk result (memory_in memory.new ≡ memory_in memory.old ++ stack ∷ []) }
{
    let area = Area {
        start: STACK_START,
        size: stack_size(),
        writable: true,
        executable: false,
    };
    add(memory, area, &[])
}

/// The memory with which a file starts: the loaded segments with zero bytes behind their file parts,
/// and the stack. `elf` is what was read from `file`. All memory is taken here: a directory of 4 MiB, and for
/// each page of 4096 addresses that has memory one page of bytes and one of flags.
pub fn load(alloc: Global, elf: &Elf, file: &[u8]) -> Result<FlatMem, AllocError>
    requires read { elf.now ≡ elf_of file.now }
    requires readable { IsReadable file.now }
    ensures { IfOk result (λ memory. memory ≡ memory_of file.now) }
{
    readable_files_keep_their_facts();
    let segments = elf.segments.as_slice();
    let room = memory_size(segments) as usize + stack_size() as usize;
    let mut memory = empty(alloc, room + (segments.len() + 2) * 2 * PAGE_SIZE)?;
    for segment in segments {
        add_segment(&mut memory, segment, file)?;
    }
    add_stack(&mut memory)?;
    let storage = Storage::new(memory.areas, memory.directory, memory.bytes, memory.rights);
    let table = empty_table(alloc)?;
    Ok(FlatMem::with_table(storage, table))
}
