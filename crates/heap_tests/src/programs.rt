// Programs that call the heap functions of a plan: their words, their tables and a list of requests.
ghost use Rattle.std.specs.Prelude.{◌≡◌, ◌≤◌, ◌<◌, ◌^◌, [], None, IfOk, length};
ghost use Rattle.heap_spec.specs.Service.{Suits};

use elf_read::read_elf;
use flat_machine::{Flat, start};
use flat_mem::load;
use heap_code::{HeapImage, build};
use plan_core::{Area, Plan, PlanLines, Row, RowList};
use rv_build::Builder;
use rv_isa::{Instr, Op, Width, encode, is_formed, split};
use std::alloc::{AllocError, Global};

/// Where the text stands; the heap's words begin 0x600 bytes behind its front.
const TEXT_AT: u32 = 0x11000;

/// Where the requests stand in the text.
pub const REQUESTS_AT: u32 = 0x14000;

/// Where the tables stand, and how many bytes they have with the area, or more.
const DATA_AT: u32 = 0x16000;

const DATA_SIZE: u32 = 0x10000;

/// A call of a heap function.
#[derive(Clone, Copy, Debug)]
pub enum Request {
    Malloc { size: u32 },
    Calloc { number: u32, size: u32 },
    Realloc { at: u32, size: u32 },
    Free { at: u32 },
}

/// The entry of a request's function, and its arguments.
fn call_of(request: Request, heap: &HeapImage) -> (u32, u32, u32) {
    match request {
        Request::Malloc { size } => (heap.malloc, size, 0),
        Request::Calloc { number, size } => (heap.calloc, number, size),
        Request::Realloc { at, size } => (heap.realloc, at, size),
        Request::Free { at } => (heap.free, at, 0),
    }
}

/// The plan without sites that has these rows and this area.
fn plan(alloc: Global, rows: &[Row], area: Area) -> Result<Plan, AllocError>
    ensures rows { IfOk result (λ plan. plan.rows ≡ rows.now) }
    ensures area { IfOk result (λ plan. plan.area ≡ area) }
{
    let rows = Vec::from_slice(alloc, rows)?;
    Ok(Plan {
        sites: PlanLines::new(alloc),
        rows: RowList::from(rows),
        area,
    })
}

/// An instruction's word, if it has one.
fn put(words: &mut Vec<u32>, i: Instr) -> Result<(), AllocError> {
    if !is_formed(&i) {
        return Err(AllocError);
    }
    words.push(encode(i))?;
    Ok(())
}

/// Two words that put a number into a register.
fn put_number(words: &mut Vec<u32>, rd: u8, number: u32) -> Result<(), AllocError> {
    let (upper, lower) = split(number);
    put(words, Instr::Lui { rd, imm: upper })?;
    put(
        words,
        Instr::OpImm {
            op: Op::Add,
            rd,
            rs1: rd,
            imm: lower,
        },
    )
}

/// Five words that call a function with two arguments.
fn put_call(words: &mut Vec<u32>, call: (u32, u32, u32)) -> Result<(), AllocError> {
    let (entry, first, second) = call;
    put_number(words, 10, first)?;
    put_number(words, 11, second)?;
    let before = u32::try_from(words.len()).unwrap_or(0);
    let here = before.wrapping_mul(4).wrapping_add(REQUESTS_AT);
    put(
        words,
        Instr::Jal {
            rd: 1,
            imm: entry.wrapping_sub(here),
        },
    )
}

/// Words that put the bits into x4, make the requests one after the other, and load the first word of the
/// tables into x18.
fn request_words(
    alloc: Global,
    heap: &HeapImage,
    bits: u32,
    requests: &[Request],
) -> Result<Vec<u32>, AllocError> {
    let mut words = Vec::new(alloc);
    put_number(&mut words, 4, bits)?;
    for request in requests {
        put_call(&mut words, call_of(*request, heap))?;
    }
    put_number(&mut words, 18, DATA_AT)?;
    put(
        &mut words,
        Instr::Load {
            width: Width::Word,
            rd: 18,
            rs1: 18,
            imm: 0,
        },
    )?;
    Ok(words)
}

/// The words of the text: the heap's and the requests, with zeros before and between.
fn text(alloc: Global, heap: &[u32], requests: &[u32]) -> Result<Vec<u32>, AllocError> {
    let mut words = Vec::new(alloc);
    words.resize(0x180, 0)?;
    words.extend_from_slice(heap)?;
    words.resize(0xc00, 0)?;
    words.extend_from_slice(requests)?;
    Ok(words)
}

// A builder that has these words.
fn begin(alloc: Global, code: &[u32]) -> Result<Builder, AllocError>
    ensures { IfOk result (λ builder. builder ≡ record { words = code.now; symbols = []; relocs = [] }) }
{
    let mut builder = Builder::new(alloc);
    for word in code {
        builder.word(*word)?;
    }
    Ok(builder)
}

/// The two program headers: of the text, which is at offset 256, and of the tables.
fn headers(alloc: Global, text: u32, tables_at: u32, tables: u32) -> Result<Vec<u8>, AllocError> {
    let mut bytes = Vec::new(alloc);
    for field in [1, 256, TEXT_AT, TEXT_AT, text, text, 5, 4] {
        bytes.extend_from_slice(&u32::to_le_bytes(field))?;
    }
    for field in [1, tables_at, DATA_AT, DATA_AT, tables, DATA_SIZE, 6, 4] {
        bytes.extend_from_slice(&u32::to_le_bytes(field))?;
    }
    Ok(bytes)
}

/// Puts bytes at an offset, as far as the file reaches.
fn change(file: &mut [u8], at: usize, bytes: &[u8]) {
    for (place, byte) in file.iter_mut().skip(at).zip(bytes) {
        *place = *byte;
    }
}

/// A file with the text and the tables in segments of their own.
fn file(alloc: Global, text: &[u32], tables: &[u8]) -> Result<Vec<u8>, AllocError>
    requires { length text.now ≤ 8192 }
{
    let mut file = begin(alloc, text)?.finish(alloc)?;
    let tables_at = u32::try_from(file.len()).unwrap_or(0);
    let tables_size = u32::try_from(tables.len()).unwrap_or(0);
    let headers = headers(alloc, 4 * text.len() as u32, tables_at, tables_size)?;
    change(&mut file, 44, &[2]);
    change(&mut file, 52, &headers);
    file.extend_from_slice(tables)?;
    Ok(file)
}

/// The machine that is about to make the requests; the only failures here are those of memory.
pub fn machine(
    alloc: Global,
    rows: &[Row],
    area: Area,
    bits: u32,
    requests: &[Request],
) -> Result<Flat, AllocError>
    requires { Suits rows.now area 0x11000 0x16000 }
    ensures { IfOk result (λ machine. machine.waits ≡ None) }
{
    let heap = build(alloc, &plan(alloc, rows, area)?, TEXT_AT, DATA_AT)?;
    let words = request_words(alloc, &heap, bits, requests)?;
    let text = text(alloc, heap.words.as_slice(), &words)?;
    if text.len() > 8192 {
        return Err(AllocError);
    }
    let file = file(alloc, &text, heap.tables.as_slice())?;
    if file.len() > 0x20000 {
        return Err(AllocError);
    }
    match read_elf(alloc, &file) {
        Ok(elf) => Ok(start(load(alloc, &elf, &file)?, REQUESTS_AT)),
        Err(_) => Err(AllocError),
    }
}
