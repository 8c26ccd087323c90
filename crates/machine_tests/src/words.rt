// The words of a line: numbers in hexadecimal, widths, and values of the symbol machine.
use crate::memories::width_of;
use anyhow::bail;
use rv_isa::Width;
use std::str::SplitWhitespace;
use sym_value::{Value, Whole};

/// The next word of a line.
pub fn next_word<'a>(words: &mut SplitWhitespace<'a>) -> anyhow::Result<&'a str> {
    match words.next() {
        Some(word) => Ok(word),
        None => bail!("a word is missing"),
    }
}

/// The number that a word is in hexadecimal.
fn number(word: &str) -> anyhow::Result<u32> {
    Ok(u32::from_str_radix(word, 16)?)
}

/// The next word of a line, a number in hexadecimal.
pub fn next_number(words: &mut SplitWhitespace) -> anyhow::Result<u32> {
    number(next_word(words)?)
}

/// The next word of a line, a width by its name in the loads' mnemonics.
pub fn next_width(words: &mut SplitWhitespace) -> anyhow::Result<Width> {
    match width_of(next_word(words)?) {
        Some(width) => Ok(width),
        None => bail!("no such width"),
    }
}

/// The pointer `BLOCK+OFFSET`, or the return address `rADDRESS`.
fn whole(word: &str) -> anyhow::Result<Whole> {
    if let Some((block, offset)) = word.split_once('+') {
        return Ok(Whole::Ptr {
            block: number(block)?,
            offset: number(offset)?,
        });
    }
    match word.strip_prefix('r') {
        Some(addr) => Ok(Whole::Ret(number(addr)?)),
        None => bail!("no such value"),
    }
}

/// The byte `INDEX/WHOLE` of a pointer or a return address.
fn part(index: &str, of: &str) -> anyhow::Result<Value> {
    Ok(Value::Part {
        of: whole(of)?,
        index: index.parse::<u8>()?,
    })
}

/// The value that a word is: `unset`, a mixed one `mLOW`, a part, a number, a pointer or a return address.
fn value(word: &str) -> anyhow::Result<Value> {
    if let Some((index, of)) = word.split_once('/') {
        return part(index, of);
    }
    if let Some(low) = word.strip_prefix('m') {
        return Ok(Value::Mix(u8::from_str_radix(low, 16)?));
    }
    if word == "unset" {
        return Ok(Value::Unset);
    }
    if let Ok(number) = u32::from_str_radix(word, 16) {
        return Ok(Value::Num(number));
    }
    match whole(word)? {
        Whole::Ptr { block, offset } => Ok(Value::Ptr { block, offset }),
        Whole::Ret(addr) => Ok(Value::Ret(addr)),
    }
}

/// The next word of a line, a value.
pub fn next_value(words: &mut SplitWhitespace) -> anyhow::Result<Value> {
    value(next_word(words)?)
}
