// The heap functions of an executable and their checks (gABI, "Symbol Table").

ghost use Rattle.std.specs.Prelude.{◌≡◌, ◌==◌, ◌+◌, ◌&&◌, ◌||◌, not, bytes_eq, find, is_some, map, nat_le, IfOk};
ghost use Rattle.std.specs.List.{list_any};
ghost use Rattle.elf_spec.specs.Code.{code_word};
ghost use Rattle.elf_spec.specs.Heap.{heap_entry, heap_name, is_heap_symbol};
ghost use Rattle.elf_spec.specs.Tables.{symbol_name, symbols_of};
ghost use Rattle.first_check.specs.First.{first_item, when};
ghost use Rattle.first_check.specs.Answers.{Says};
ghost use Rattle.exec_image.specs.HeapChecks.{has_two_values, is_overlap, is_small, is_twice, lacks_words};
ghost use Rattle.exec_image.specs.HeapFunctions.{AreHeapFunctions};
ghost use Rattle.exec_image.specs.CodeParts.{IsCode, IsHeap, entry_of};
ghost use Rattle.exec_image.specs.Refusals.{heap_entry_small, heap_entry_twice, small_fault, twice_fault};
ghost use Rattle.exec_image.specs.declared.refusals.FileRefusal.TheVariants.{HeapEntrySmall, HeapEntryTwice};

use crate::code::{code_word, is_code_word};
use crate::file_bytes::bytes_at;
use crate::parts::Part;
use crate::refusals::FileRefusal;
use elf_spec::{HeapName, Segment, Symbol};
use std::alloc::{AllocError, Global};

/// The binding of a symbol, and its type.
const STB_GLOBAL: u8 = 1;

const STB_WEAK: u8 = 2;

const STT_FUNC: u8 = 2;

/// The heap functions, in the order in which they are looked at: that of the variants of `HeapName`.
pub const HEAP_NAMES: [HeapName; 8] = [
    HeapName::Malloc,
    HeapName::Calloc,
    HeapName::Realloc,
    HeapName::Free,
    HeapName::MallocR,
    HeapName::CallocR,
    HeapName::ReallocR,
    HeapName::FreeR,
];

/// A heap function with its address; `None` where the executable lacks it.
#[derive(Clone, Copy, Debug)]
pub struct HeapEntry {
    pub name: HeapName,
    pub addr: Option<u32>,
}

/// The address of one heap function.
pub fn entry_in(file: &[u8], heap: &[HeapEntry], name: HeapName) -> Option<u32>
    requires { IsHeap file.now heap.now }
    ensures { result ≡ heap_entry file.now name }
{
    for entry in heap {
        if entry.name == name {
            return entry.addr;
        }
    }
    None
}

/// Whether the symbol has the name of a heap function.
fn has_name(file: &[u8], s: &Symbol, name: HeapName) -> bool
    ensures { result ≡ bytes_eq (symbol_name file.now s.now) (heap_name name) }
{
    bytes_at(file, s.name_at, s.name_len) == name.name().as_bytes()
}

fn is_heap_symbol(file: &[u8], s: &Symbol, name: HeapName) -> bool
    ensures { result ≡ is_heap_symbol file.now name s.now }
{
    let binding = s.info / 16;
    has_name(file, s, name)
        && (binding == STB_GLOBAL || binding == STB_WEAK)
        && s.info % 16 == STT_FUNC
        && s.section != 0
}

/// The first symbol of a heap function.
fn find_symbol(file: &[u8], symbols: &[Symbol], name: HeapName) -> Option<Symbol>
    ensures { result ≡ find (is_heap_symbol file.now name) symbols.now }
{
    symbols
        .iter()
        .copied()
        .find(|s| is_heap_symbol(file, s, name))
}

/// The address of a heap function: that of its first symbol.
fn find_entry(file: &[u8], symbols: &[Symbol], name: HeapName) -> Option<u32>
    requires { symbols.now ≡ symbols_of file.now }
    ensures { result ≡ heap_entry file.now name }
{
    let s = find_symbol(file, symbols, name)?;
    Some(s.value)
}

/// The addresses of these functions.
fn find_entries(
    alloc: Global,
    file: &[u8],
    symbols: &[Symbol],
    names: &[HeapName],
) -> Result<Vec<HeapEntry>, AllocError>
    requires { symbols.now ≡ symbols_of file.now }
    ensures { IfOk result (λ list. list.items ≡ map (entry_of file.now) names.now) }
{
    let mut list = Vec::new(alloc);
    for name in names {
        let addr = find_entry(file, symbols, *name);
        list.push(HeapEntry { name: *name, addr })?;
    }
    Ok(list)
}

/// The addresses of all heap functions, in the order of their names.
pub fn read_heap(
    alloc: Global,
    file: &[u8],
    symbols: &[Symbol],
) -> Result<Vec<HeapEntry>, AllocError>
    requires { symbols.now ≡ symbols_of file.now }
    ensures { IfOk result (λ list. IsHeap file.now list.items) }
{
    find_entries(alloc, file, symbols, &HEAP_NAMES)
}

/// Whether a symbol of the heap function has another value than this.
fn has_other(file: &[u8], symbols: &[Symbol], name: HeapName, value: u32) -> bool
    ensures { result ≡ list_any (λ s. is_heap_symbol file.now name s && not (s.value == value)) symbols.now }
{
    symbols
        .iter()
        .any(|s| is_heap_symbol(file, s, name) && s.value != value)
}

/// Whether symbols of the heap function have different values; `entry` is that of the first.
#[tactic(auto, using(crate::proofs::HeapSymbols::two_values, crate::proofs::HeapSymbols::no_values))]
fn has_two_values(file: &[u8], symbols: &[Symbol], name: HeapName, entry: Option<u32>) -> bool
    requires symbols { symbols.now ≡ symbols_of file.now }
    requires entry { entry ≡ heap_entry file.now name }
    ensures { result ≡ has_two_values file.now name }
{
    match entry {
        Some(value) => has_other(file, symbols, name, value),
        None => false,
    }
}

/// The heap functions of an executable, with the bytes and symbols that they were read from.
#[derive(Clone, Copy)]
pub struct HeapFunctions<'a> {
    pub file: &'a [u8],
    pub symbols: &'a [Symbol],
    pub entries: &'a [HeapEntry],
}

/// Whether two heap functions have one of their eight bytes in common.
fn is_overlap(first: Option<u32>, second: Option<u32>) -> bool
    ensures { result ≡ is_overlap first second }
{
    match (first, second) {
        (Some(a), Some(b)) => (a as u64) < b as u64 + 8 && (b as u64) < a as u64 + 8,
        _ => false,
    }
}

/// Whether a heap function has one of the eight bytes of those before.
fn meets_one(file: &[u8], heap: &[HeapEntry], before: &[HeapName], entry: Option<u32>) -> bool
    requires { IsHeap file.now heap.now }
    ensures { result ≡ list_any (λ earlier. is_overlap (heap_entry file.now earlier) entry) before.now }
{
    before.iter().any(|earlier| is_overlap(entry_in(file, heap, *earlier), entry))
}

/// Checks that a heap function has one place, which none of those before has.
#[tactic(auto, unfolding(crate::specs::HeapChecks::is_twice))]
fn check_place(heap: &HeapFunctions, before: &[HeapName], name: HeapName) -> Result<(), FileRefusal>
    requires { AreHeapFunctions heap.now }
    ensures { Says result (when (is_twice heap.now.file.now before.now name) (HeapEntryTwice name)) }
{
    let entry = entry_in(heap.file, heap.entries, name);
    if has_two_values(heap.file, heap.symbols, name, entry)
        || meets_one(heap.file, heap.entries, before, entry)
    {
        return Err(FileRefusal::HeapEntryTwice(name));
    }
    Ok(())
}

/// Checks that each of these functions has one place of its own.
fn check_places_of(heap: &HeapFunctions, names: &[HeapName]) -> Result<(), FileRefusal>
    requires { AreHeapFunctions heap.now }
    ensures { Says result (first_item (twice_fault heap.now.file.now names.now) names.now) }
{
    for i in 0..names.len() {
        check_place(heap, &names[..i], names[i])?;
    }
    Ok(())
}

/// Checks that each heap function has one place of its own.
#[tactic(auto, unfolding(crate::specs::Refusals::heap_entry_twice))]
pub fn check_places(heap: &HeapFunctions) -> Result<(), FileRefusal>
    requires { AreHeapFunctions heap.now }
    ensures { Says result (heap_entry_twice heap.now.file.now) }
{
    check_places_of(heap, &HEAP_NAMES)
}

/// Whether one of the two words at an address is no code word.
fn lacks_one(file: &[u8], segments: &[Segment], code: &[Part], a: u32) -> bool
    requires { IsCode file.now segments.now code.now }
    ensures { result ≡ (not (is_some (code_word file.now a)) || not (is_some (code_word file.now (a + 4)))) }
{
    match code_word(file, segments, code, a) {
        Some(_) => !is_code_word(file, segments, code, a + 4),
        None => true,
    }
}

/// Whether one of the two words of a heap function is no code word.
fn lacks_words(file: &[u8], segments: &[Segment], code: &[Part], entry: Option<u32>) -> bool
    requires { IsCode file.now segments.now code.now }
    ensures { result ≡ lacks_words file.now entry }
{
    match entry {
        Some(a) => lacks_one(file, segments, code, a),
        None => false,
    }
}

/// Whether a size is not 0, which says nothing, and less than two words.
fn is_small_size(size: u32) -> bool
    ensures { result ≡ (nat_le 1 size && nat_le size 7) }
{
    1 <= size && size <= 7
}

/// Whether a symbol of the heap function has a size of less than two words.
fn has_small_size(file: &[u8], symbols: &[Symbol], name: HeapName) -> bool
    ensures { result ≡ list_any (λ s. is_heap_symbol file.now name s && (nat_le 1 s.size && nat_le s.size 7))
        symbols.now }
{
    symbols
        .iter()
        .any(|s| is_heap_symbol(file, s, name) && is_small_size(s.size))
}

/// Checks that a heap function has two words.
#[tactic(auto, using(crate::proofs::HeapSymbols::small_symbols), unfolding(crate::specs::HeapChecks::is_small))]
fn check_size(
    heap: &HeapFunctions,
    segments: &[Segment],
    code: &[Part],
    name: HeapName,
) -> Result<(), FileRefusal>
    requires code { IsCode heap.now.file.now segments.now code.now }
    requires heap { AreHeapFunctions heap.now }
    ensures { Says result (when (is_small heap.now.file.now name) (HeapEntrySmall name)) }
{
    let entry = entry_in(heap.file, heap.entries, name);
    if lacks_words(heap.file, segments, code, entry)
        || has_small_size(heap.file, heap.symbols, name)
    {
        return Err(FileRefusal::HeapEntrySmall(name));
    }
    Ok(())
}

/// Checks that each of these functions has two words.
fn check_sizes_of(
    heap: &HeapFunctions,
    segments: &[Segment],
    code: &[Part],
    names: &[HeapName],
) -> Result<(), FileRefusal>
    requires code { IsCode heap.now.file.now segments.now code.now }
    requires heap { AreHeapFunctions heap.now }
    ensures { Says result (first_item (small_fault heap.now.file.now) names.now) }
{
    for name in names {
        check_size(heap, segments, code, *name)?;
    }
    Ok(())
}

/// Checks that each heap function has two words.
#[tactic(auto, unfolding(crate::specs::Refusals::heap_entry_small))]
pub fn check_sizes(
    heap: &HeapFunctions,
    segments: &[Segment],
    code: &[Part],
) -> Result<(), FileRefusal>
    requires code { IsCode heap.now.file.now segments.now code.now }
    requires heap { AreHeapFunctions heap.now }
    ensures { Says result (heap_entry_small heap.now.file.now) }
{
    check_sizes_of(heap, segments, code, &HEAP_NAMES)
}
