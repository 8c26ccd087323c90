// The lines of the table. `run CODE STEPS WORD..` and `steps CODE COUNT WORD..` have words `KEY=VALUE` that say
// what is outside; `memory SEGMENT..` has the fields of segments in hexadecimal, with commas between them, and
// behind each ` | ` an access; `symbols` has accesses to the symbol machine's memory, which stays from line to line.
use crate::machines::{Outside, run, steps};
use crate::memories::{Place, byte_at, copy, file_of, memory_of, number, put};
use crate::samples::code;
use crate::symbols::symbols_answer;
use crate::words::{next_number, next_width, next_word};
use anyhow::bail;
use flat_mem::FlatMem;
use std::alloc::Global;
use std::str::SplitWhitespace;
use sym_memory::SymMemory;

/// Sets what a word `KEY=VALUE` names.
fn set(alloc: Global, outside: &mut Outside, key: &str, value: &str) -> anyhow::Result<()> {
    match key {
        "in" => outside.input = Vec::from_slice(alloc, value.as_bytes())?,
        "most_in" => outside.most_in = value.parse::<usize>()?,
        "fails_in" => outside.fails_in.push(value.parse::<u64>()?)?,
        "most_out" => outside.most_out = value.parse::<usize>()?,
        "fails_out" => outside.fails_out.push(value.parse::<u64>()?)?,
        _ => bail!("no such key"),
    }
    Ok(())
}

/// The answer of `run` or `steps`.
fn machine_answer(
    alloc: Global,
    command: &str,
    mut words: SplitWhitespace,
) -> anyhow::Result<String> {
    let code = code(alloc, next_word(&mut words)?)?;
    let mut outside = Outside {
        steps: next_word(&mut words)?.parse::<u32>()?,
        input: Vec::new(alloc),
        most_in: 1,
        fails_in: Vec::new(alloc),
        most_out: 1,
        fails_out: Vec::new(alloc),
    };
    for word in words {
        match word.split_once('=') {
            Some((key, value)) => set(alloc, &mut outside, key, value)?,
            None => bail!("no key"),
        }
    }
    if command == "run" {
        return run(alloc, &code, outside);
    }
    steps(alloc, &code, outside.steps, &outside.input)
}

/// A segment, whose fields have commas between them.
fn segment_of(word: &str) -> anyhow::Result<Place> {
    let mut place = [0; 5];
    for (field, text) in place.iter_mut().zip(word.split(',')) {
        *field = u32::from_str_radix(text, 16)?;
    }
    Ok(place)
}

/// Makes an access that may change the memory; `None` where it is no such access.
fn write_answer(
    alloc: Global,
    memory: &mut FlatMem,
    op: &str,
    words: &mut SplitWhitespace,
) -> anyhow::Result<Option<String>> {
    let text = match op {
        "set" => {
            let addr = next_number(words)?;
            let byte = u8::from_str_radix(next_word(words)?, 16)?;
            format!(in alloc; "{}", memory.set(addr, byte))?
        }
        "store" => {
            let width = next_width(words)?;
            let addr = next_number(words)?;
            format!(in alloc; "{}", memory.store_number(width, addr, next_number(words)?))?
        }
        "put" => {
            let addr = next_number(words)?;
            let from = next_number(words)?;
            put(memory, addr, from, next_word(words)?)?;
            String::from_str(alloc, "done")?
        }
        _ => return Ok(None),
    };
    Ok(Some(text))
}

/// The answer of an access that changes nothing.
fn read_answer(
    alloc: Global,
    memory: &FlatMem,
    op: &str,
    words: &mut SplitWhitespace,
) -> anyhow::Result<String> {
    if op == "load" {
        let width = next_width(words)?;
        return Ok(number(alloc, memory.load_number(width, next_number(words)?))?);
    }
    let addr = next_number(words)?;
    match op {
        "get" => Ok(byte_at(alloc, memory, addr)?),
        "fetch" => Ok(number(alloc, memory.fetch(addr))?),
        "holds" => Ok(format!(in alloc; "{}", memory.holds(addr, next_number(words)?))?),
        "stores" => Ok(format!(in alloc; "{}", memory.can_store(addr, next_number(words)?))?),
        "copy" => {
            let from = next_number(words)?;
            copy(alloc, memory, addr, from, next_number(words)?)
        }
        _ => bail!("no such access"),
    }
}

/// The answer of an access.
fn access_answer(alloc: Global, memory: &mut FlatMem, access: &str) -> anyhow::Result<String> {
    let mut words = access.split_whitespace();
    let op = next_word(&mut words)?;
    match write_answer(alloc, memory, op, &mut words)? {
        Some(text) => Ok(text),
        None => read_answer(alloc, memory, op, &mut words),
    }
}

/// The answers of accesses to the memory of a file with these segments, one after the other.
fn memory_answer(
    alloc: Global,
    segments: SplitWhitespace,
    accesses: &str,
) -> anyhow::Result<String> {
    let mut places = Vec::new(alloc);
    for word in segments {
        places.push(segment_of(word)?)?;
    }
    let file = file_of(alloc, &places)?;
    let mut memory = memory_of(alloc, &file)?;
    let mut text = format!(in alloc; "{} bytes", file.len())?;
    for access in accesses.split(" | ") {
        let answer = access_answer(alloc, &mut memory, access)?;
        text.push_str(format!(in alloc; "\n{access}: {answer}")?.as_str())?;
    }
    Ok(text)
}

/// The answer of a case; a case `symbols` goes on with the symbol machine's memory as the last one left it.
pub fn answer(alloc: Global, symbols: &mut SymMemory, line: &str) -> anyhow::Result<String> {
    let (front, accesses) = line.split_once(" | ").unwrap_or((line, ""));
    let mut words = front.split_whitespace();
    match next_word(&mut words)? {
        "memory" => memory_answer(alloc, words, accesses),
        "symbols" => symbols_answer(alloc, symbols, accesses),
        command => machine_answer(alloc, command, words),
    }
}
