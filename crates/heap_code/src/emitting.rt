// The words of the four functions, each behind its reentrant entry.
ghost use Rattle.std.specs.Prelude.{◌≡◌, ◌<◌, ◌≤◌, [], ◌∷◌, ◌++◌, All, OnOk, length};
ghost use Rattle.rv_isa.specs.Encoded.{encoded};
ghost use Rattle.frag_code.specs.Fragments.{plain};
ghost use Rattle.frag_code.specs.Forms.{IsFormed};
ghost use Rattle.heap_spec.specs.Places.{base_of};
ghost use Rattle.heap_code.specs.Words as specs;

use crate::calls::{calloc_code, free_code, grant};
use crate::laws::heap_functions_have_few_words;
use crate::moving::realloc_code;
use frag_code::{Frag, compile};
use plan_core::{Area, Row};
use rv_isa::{Instr, Op, encode};
use std::alloc::{AllocError, Global};

/// malloc: its reentrant entry has the size in a1.
pub fn put_malloc(
    alloc: Global,
    words: &mut Vec<u32>,
    rows: &[Row],
    area: Area,
    data_at: u32,
    base: u32,
) -> Result<(), AllocError>
    requires groups { All (λ row. row.group < 16) rows.now }
    requires few { length rows.now ≤ 64 }
    requires chunks { area.chunks ≤ 256 }
    requires chunk { area.log_chunk < 32 }
    requires base { base ≡ base_of area data_at }
    ensures { OnOk result (words.new.items ≡ words.old.items ++ specs.malloc_words rows.now area data_at) }
{
    heap_functions_have_few_words();
    let code = grant(alloc, rows, area, data_at, base)?;
    put_move(words, 10, 11)?;
    put_entry(alloc, words, &code)
}

/// calloc: its reentrant entry has the number in a1 and the size in a2.
pub fn put_calloc(
    alloc: Global,
    words: &mut Vec<u32>,
    rows: &[Row],
    area: Area,
    data_at: u32,
    base: u32,
) -> Result<(), AllocError>
    requires groups { All (λ row. row.group < 16) rows.now }
    requires few { length rows.now ≤ 64 }
    requires chunks { area.chunks ≤ 256 }
    requires chunk { area.log_chunk < 32 }
    requires base { base ≡ base_of area data_at }
    ensures { OnOk result (words.new.items ≡ words.old.items ++ specs.calloc_words rows.now area data_at) }
{
    heap_functions_have_few_words();
    let code = calloc_code(alloc, rows, area, data_at, base)?;
    put_move(words, 10, 11)?;
    put_move(words, 11, 12)?;
    put_entry(alloc, words, &code)
}

/// realloc: its reentrant entry has the pointer in a1 and the size in a2.
pub fn put_realloc(
    alloc: Global,
    words: &mut Vec<u32>,
    rows: &[Row],
    area: Area,
    data_at: u32,
    base: u32,
) -> Result<(), AllocError>
    requires groups { All (λ row. row.group < 16) rows.now }
    requires few { length rows.now ≤ 64 }
    requires chunks { area.chunks ≤ 256 }
    requires chunk { area.log_chunk < 32 }
    requires base { base ≡ base_of area data_at }
    ensures { OnOk result (words.new.items ≡ words.old.items ++ specs.realloc_words rows.now area data_at) }
{
    heap_functions_have_few_words();
    let code = realloc_code(alloc, rows, area, data_at, base)?;
    put_move(words, 10, 11)?;
    put_move(words, 11, 12)?;
    put_entry(alloc, words, &code)
}

/// free: its reentrant entry has the pointer in a1.
pub fn put_free(
    alloc: Global,
    words: &mut Vec<u32>,
    area: Area,
    data_at: u32,
    base: u32,
) -> Result<(), AllocError>
    requires chunks { area.chunks ≤ 256 }
    requires chunk { area.log_chunk < 32 }
    requires base { base ≡ base_of area data_at }
    ensures { OnOk result (words.new.items ≡ words.old.items ++ specs.free_words area data_at) }
{
    heap_functions_have_few_words();
    let code = free_code(alloc, area, data_at, base)?;
    put_move(words, 10, 11)?;
    put_function(alloc, words, &code)
}

/// A function that takes the bits to t0, runs and returns.
fn put_entry(alloc: Global, words: &mut Vec<u32>, f: &Frag) -> Result<(), AllocError>
    requires { IsFormed (plain f.now) }
    ensures { OnOk result (words.new.items ≡ words.old.items ++ specs.entry_words (plain f.now)) }
{
    put_move(words, 5, 4)?;
    put_function(alloc, words, f)
}

/// A function that runs and returns.
fn put_function(alloc: Global, words: &mut Vec<u32>, f: &Frag) -> Result<(), AllocError>
    requires { IsFormed (plain f.now) }
    ensures { OnOk result (words.new.items ≡ words.old.items ++ specs.returning_words (plain f.now)) }
{
    let code = compile(alloc, f)?;
    words.extend_from_slice(code.as_slice())?;
    words.push(encode(Instr::Jalr {
        rd: 0,
        rs1: 1,
        imm: 0,
    }))?;
    Ok(())
}

/// A register becomes another.
fn put_move(words: &mut Vec<u32>, rd: u8, rs1: u8) -> Result<(), AllocError>
    requires { (rd < 32) × (rs1 < 32) }
    ensures { OnOk result (words.new.items ≡ words.old.items ++ encoded (Instr.OpImm Op.Add rd rs1 0) ∷ []) }
{
    words.push(encode(Instr::OpImm {
        op: Op::Add,
        rd,
        rs1,
        imm: 0,
    }))?;
    Ok(())
}
