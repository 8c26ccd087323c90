// The symbol machine's memory: that of a small program, with a block of 16 bytes and one of 32 bytes.
ghost use Rattle.std.specs.Prelude.{◌≡◌, true, slice_get};
ghost use Rattle.sym_memory.specs.Kept.{is_alive};

use crate::samples::{code, file};
use crate::words::{next_number, next_value, next_width, next_word};
use anyhow::bail;
use exec_image::{Image, accept};
use std::alloc::{AllocError, Global};
use std::str::SplitWhitespace;
use sym_memory::SymMemory;
use sym_value::Value;

/// The image of a program that ends with status 0.
fn image(alloc: Global) -> anyhow::Result<Image> {
    let file = file(alloc, &code(alloc, "exits")?)?;
    if file.len() > 4096 {
        bail!("a long file");
    }
    Ok(accept(alloc, &file)?)
}

/// The memory of an image, and in it block 0 of 16 bytes and block 1 of 32 bytes.
#[tactic(auto, unfolding(sym_spec::specs::StartMemory::start_memory, sym_cells::specs::Memory::granted))]
fn with_blocks(alloc: Global, image: &Image) -> Result<SymMemory, AllocError> {
    let mut memory = SymMemory::new(alloc, image)?;
    memory.grant(alloc, 1)?;
    memory.grant(alloc, 2)?;
    Ok(memory)
}

/// Whether a block lives and has a byte.
#[tactic(auto, unfolding(sym_cells::specs::Buffers::is_within))]
fn lives(memory: &SymMemory, block: u32) -> bool
    ensures { result ≡ true → is_alive (slice_get memory.now.memory.blocks block) ≡ true }
{
    memory.can_reach(Value::Ptr { block, offset: 0 }, 1)
}

/// Copies one living block in front of another; false where they aren't two living ones.
fn copy(memory: &mut SymMemory, from: u32, to: u32) -> bool {
    if from == to || !lives(memory, from) || !lives(memory, to) {
        return false;
    }
    memory.copy_block(from, to);
    true
}

/// Ends a block; false where it doesn't live.
fn kill(memory: &mut SymMemory, block: u32) -> bool {
    if !lives(memory, block) {
        return false;
    }
    memory.drop_block(block);
    true
}

/// The value that `load WIDTH PLACE` gives.
fn load(memory: &SymMemory, words: &mut SplitWhitespace) -> anyhow::Result<Option<Value>> {
    let width = next_width(words)?;
    let at = next_value(words)?;
    Ok(memory.load(at, width))
}

/// The number of the byte of `known PLACE INDEX`.
fn known(memory: &SymMemory, words: &mut SplitWhitespace) -> anyhow::Result<Option<u8>> {
    let at = next_value(words)?;
    let index = next_number(words)?;
    Ok(memory.known(at, index))
}

/// Whether `reach PLACE LENGTH` or, where it is about stores, `fill PLACE LENGTH` can be done.
fn has(memory: &SymMemory, stores: bool, words: &mut SplitWhitespace) -> anyhow::Result<bool> {
    let at = next_value(words)?;
    let len = next_number(words)?;
    if stores {
        return Ok(memory.can_fill(at, len));
    }
    Ok(memory.can_reach(at, len))
}

/// Whether `store WIDTH PLACE VALUE` was done.
fn store(memory: &mut SymMemory, words: &mut SplitWhitespace) -> anyhow::Result<bool> {
    let width = next_width(words)?;
    let at = next_value(words)?;
    let value = next_value(words)?;
    Ok(memory.store(at, width, value))
}

/// Whether `copy BLOCK BLOCK` was done.
fn copied(memory: &mut SymMemory, words: &mut SplitWhitespace) -> anyhow::Result<bool> {
    let from = next_number(words)?;
    let to = next_number(words)?;
    Ok(copy(memory, from, to))
}

/// Whether an access was done that answers no value.
fn is_done(memory: &mut SymMemory, op: &str, words: &mut SplitWhitespace) -> anyhow::Result<bool> {
    match op {
        "store" => store(memory, words),
        "copy" => copied(memory, words),
        "drop" => Ok(kill(memory, next_number(words)?)),
        "reach" => has(memory, false, words),
        "fill" => has(memory, true, words),
        _ => bail!("no such access"),
    }
}

/// The answer of an access.
fn access_answer(alloc: Global, memory: &mut SymMemory, access: &str) -> anyhow::Result<String> {
    let mut words = access.split_whitespace();
    let op = next_word(&mut words)?;
    match op {
        "load" => Ok(format!(in alloc; "{:?}", load(memory, &mut words)?)?),
        "known" => Ok(format!(in alloc; "{:?}", known(memory, &mut words)?)?),
        _ => Ok(format!(in alloc; "{}", is_done(memory, op, &mut words)?)?),
    }
}

/// The memory at the start of the table.
pub fn start(alloc: Global) -> anyhow::Result<SymMemory> {
    let image = image(alloc)?;
    Ok(with_blocks(alloc, &image)?)
}

/// The answers of accesses to the memory, one after the other.
pub fn symbols_answer(
    alloc: Global,
    memory: &mut SymMemory,
    accesses: &str,
) -> anyhow::Result<String> {
    let mut text = String::new(alloc);
    for access in accesses.split(" | ") {
        let answer = access_answer(alloc, memory, access)?;
        text.push_str(format!(in alloc; "\n{access}: {answer}")?.as_str())?;
    }
    Ok(text)
}
