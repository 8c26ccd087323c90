// The first contents of the tables.
ghost use Rattle.std.specs.Prelude.{◌≡◌, ◌≤◌, ◌++◌, replicate, IfOk, OnOk};
ghost use Rattle.machine_spec.specs.Widths.{low_bytes};
ghost use Rattle.heap_spec.specs.Tables as tables;
ghost use Rattle.heap_spec.specs.Tables.{idle_rows};
ghost use Rattle.heap_code.specs.Words as specs;

use plan_core::Area;
use std::alloc::{AllocError, Global};

/// The word for none.
const NONE: u32 = 0xFFFF_FFFF;

/// The bytes of the first words of the tables.
#[tactic(auto, unfolding(heap_spec::specs::Tables::first_words))]
pub fn first_tables(alloc: Global, area: Area) -> Result<Vec<u8>, AllocError>
    ensures { IfOk result (λ bytes. bytes.items ≡ tables.first_tables area) }
{
    let mut bytes = Vec::new(alloc);
    let first = if area.fallback == 0 { NONE } else { 0 };
    put_word(&mut bytes, first)?;
    put_words(&mut bytes, 15, 0)?;
    put_words(&mut bytes, 16, NONE)?;
    put_idle(&mut bytes, area.chunks)?;
    if area.fallback != 0 {
        put_word(&mut bytes, area.fallback)?;
        put_word(&mut bytes, NONE)?;
    }
    Ok(bytes)
}

/// One word, so many times.
fn put_words(bytes: &mut Vec<u8>, count: u32, word: u32) -> Result<(), AllocError>
    ensures { OnOk result (bytes.new.items ≡ bytes.old.items ++ specs.bytes_of (replicate count word)) }
{
    let mut left = count;
    while left > 0 {
        put_word(bytes, word)?;
        left -= 1;
    }
    Ok(())
}

/// The rows of chunks without owner.
fn put_idle(bytes: &mut Vec<u8>, chunks: u32) -> Result<(), AllocError>
    ensures { OnOk result (bytes.new.items ≡ bytes.old.items ++ specs.bytes_of (idle_rows chunks)) }
{
    let mut left = chunks;
    while left > 0 {
        put_word(bytes, NONE)?;
        put_word(bytes, 0)?;
        put_word(bytes, 0)?;
        put_word(bytes, 0)?;
        left -= 1;
    }
    Ok(())
}

/// The four bytes of a word, the lowest first.
fn put_word(bytes: &mut Vec<u8>, word: u32) -> Result<(), AllocError>
    ensures { OnOk result (bytes.new.items ≡ bytes.old.items ++ low_bytes 4 word) }
{
    let second = word / 256;
    let third = second / 256;
    let fourth = third / 256;
    bytes.push((word % 256) as u8)?;
    bytes.push((second % 256) as u8)?;
    bytes.push((third % 256) as u8)?;
    bytes.push((fourth % 256) as u8)?;
    Ok(())
}
