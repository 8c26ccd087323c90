// The heap's words and tables for a plan.
ghost use Rattle.std.specs.Prelude.{◌≡◌, ◌+◌, ◌*◌, ◌≤◌, ◌<◌, ◌^◌, ◌==◌, All, IfOk, length, if◌then◌else◌};
ghost use Rattle.heap_spec.specs.Places.{base_of};
ghost use Rattle.heap_spec.specs.Service.{Suits, ServesHeap};
ghost use Rattle.heap_spec.specs.Tables as tables;
ghost use Rattle.heap_code.specs.Words as specs;
ghost use Rattle.heap_code.specs.Images.{entries_in, Holds};

use crate::emitting::{put_calloc, put_free, put_malloc, put_realloc};
use crate::laws::{heap_functions_have_few_words, heap_functions_serve};
use crate::tables::first_tables;
use elf_spec::ByteList;
use heap_spec::first_words_spell_the_first_layout;
use plan_core::{Area, Plan, Row};
use std::alloc::{AllocError, Global};
use vec_list::VecList;

/// Words of code, in their order.
pub type WordList = VecList<u32>;

/// The heap functions of a plan: their words, the addresses of their eight entries, and the first contents
/// of their tables.
#[derive(Debug, Drop)]
pub struct HeapImage {
    /// The words, which begin 0x600 bytes behind the new text's front.
    pub words: WordList,
    /// `malloc(size)`.
    pub malloc: u32,
    /// `calloc(number, size)`.
    pub calloc: u32,
    /// `realloc(pointer, size)`.
    pub realloc: u32,
    /// `free(pointer)`.
    pub free: u32,
    /// `_malloc_r(reent, size)`.
    pub malloc_r: u32,
    /// `_calloc_r(reent, number, size)`.
    pub calloc_r: u32,
    /// `_realloc_r(reent, pointer, size)`.
    pub realloc_r: u32,
    /// `_free_r(reent, pointer)`.
    pub free_r: u32,
    /// The file part of the tables; behind it they hold anything.
    pub tables: ByteList,
}

/// The heap functions for a plan whose new text is at address `text_at` and whose tables are at `data_at`.
/// It fails for want of memory alone.
pub fn build(
    alloc: Global,
    plan: &Plan,
    text_at: u32,
    data_at: u32,
) -> Result<HeapImage, AllocError>
    requires { Suits plan.now.rows plan.now.area text_at data_at }
    ensures words { IfOk result (λ image. image.words ≡ specs.all_words plan.now.rows plan.now.area data_at) }
    ensures few { IfOk result (λ image. length image.words ≤ 4096) }
    ensures entries { IfOk result (λ image. entries_in image
        ≡ specs.entries plan.now.rows plan.now.area data_at text_at) }
    ensures inside { IfOk result (λ image. Holds text_at image.words (entries_in image)) }
    ensures tables { IfOk result (λ image. image.tables ≡ tables.first_tables plan.now.area) }
    ensures size { IfOk result (λ image. length image.tables
        ≡ 128 + 16 * plan.now.area.chunks + (if plan.now.area.fallback == 0 then 0 else 8)) }
    ensures serves { IfOk result (λ image.
        ServesHeap plan.now.rows plan.now.area text_at data_at image.words (entries_in image)) }
{
    heap_functions_have_few_words();
    heap_functions_serve();
    first_words_spell_the_first_layout();
    let area = plan.area;
    let rows = plan.rows.as_slice();
    let base = area_base(area, data_at);
    let emitted = emit_all(alloc, rows, area, data_at, base)?;
    let tables = first_tables(alloc, area)?;
    let at = text_at + 0x600;
    Ok(HeapImage {
        words: WordList::from(emitted.words),
        malloc: at + 4,
        calloc: at + 4 * emitted.calloc + 8,
        realloc: at + 4 * emitted.realloc + 8,
        free: at + 4 * emitted.free + 4,
        malloc_r: at,
        calloc_r: at + 4 * emitted.calloc,
        realloc_r: at + 4 * emitted.realloc,
        free_r: at + 4 * emitted.free,
        tables: ByteList::from(tables),
    })
}

/// All words, and how many of them stand before those of calloc, realloc and free.
#[derive(Drop)]
struct Emitted {
    words: Vec<u32>,
    calloc: u32,
    realloc: u32,
    free: u32,
}

/// The words of all functions.
fn emit_all(
    alloc: Global,
    rows: &[Row],
    area: Area,
    data_at: u32,
    base: u32,
) -> Result<Emitted, AllocError>
    requires groups { All (λ row. row.group < 16) rows.now }
    requires few { length rows.now ≤ 64 }
    requires chunks { area.chunks ≤ 256 }
    requires chunk { area.log_chunk < 32 }
    requires base { base ≡ base_of area data_at }
    ensures words { IfOk result (λ e. e.words.items ≡ specs.all_words rows.now area data_at) }
    ensures calloc { IfOk result (λ e. e.calloc ≡ length (specs.malloc_words rows.now area data_at)) }
    ensures realloc { IfOk result (λ e. e.realloc ≡ length (specs.malloc_words rows.now area data_at)
        + length (specs.calloc_words rows.now area data_at)) }
    ensures free { IfOk result (λ e. e.free ≡ length (specs.malloc_words rows.now area data_at)
        + length (specs.calloc_words rows.now area data_at) + length (specs.realloc_words rows.now area data_at)) }
{
    heap_functions_have_few_words();
    let mut words = Vec::new(alloc);
    put_malloc(alloc, &mut words, rows, area, data_at, base)?;
    let calloc = words.len() as u32;
    put_calloc(alloc, &mut words, rows, area, data_at, base)?;
    let realloc = words.len() as u32;
    put_realloc(alloc, &mut words, rows, area, data_at, base)?;
    let free = words.len() as u32;
    put_free(alloc, &mut words, area, data_at, base)?;
    Ok(Emitted {
        words,
        calloc,
        realloc,
        free,
    })
}

/// Where the area begins.
fn area_base(area: Area, data_at: u32) -> u32
    requires chunk { area.log_chunk < 32 }
    requires below { base_of area data_at < 2 ^ 32 }
    ensures { result ≡ base_of area data_at }
{
    let granules = area.fallback + (area.chunks << area.log_chunk);
    data_at + (128 + 16 * area.chunks + 8 * granules + 15) / 16 * 16
}
