// The lines of the table.
//
// - `file NAME` takes a sample, `text NAME TEXT` a text with `/` in the place of each newline, and
//   `zeros NAME COUNT` so many zero bytes. `copy NAME OF CHANGE..` takes a changed file: `AT=BYTE` sets the byte at
//   an offset to a hexadecimal number, and `len=COUNT` cuts the file there.
// - `halo WORD.. | KEY=VALUE..` calls the program with these words, of which `''` is the empty one. The keys are
//   `in`, the input; `most` and `note_most`, the most bytes that out and note take in one write; `read_fails`, `fails`
//   and `note_fails`, the number of the read, or of the write, that fails; and `to`, under which name the output
//   is taken. The answer is the status, the note and the output, or its length where it is taken.
// - `bytes NAME AT COUNT` shows bytes of a file.
use crate::calls::{Outside, call};
use crate::samples::sample;
use crate::store::{add, bytes_of, named_by};
use anyhow::bail;
use halo_outside::Named;
use std::alloc::{AllocError, Global};
use std::str;

/// The word before the first space of a text, and the rest behind it.
fn first(text: &str) -> (&str, &str) {
    text.split_once(' ').unwrap_or((text, ""))
}

/// Makes the change that stands in a word before and behind its `=`.
fn change(file: &mut Vec<u8>, at: &str, value: &str) -> anyhow::Result<()> {
    if at == "len" {
        file.truncate(value.parse::<usize>()?);
        return Ok(());
    }
    let at = at.parse::<usize>()?;
    let byte = u8::from_str_radix(value, 16)?;
    match file.get_mut(at) {
        Some(place) => *place = byte,
        None => bail!("no such byte"),
    }
    Ok(())
}

/// A changed copy of a file.
fn changed(alloc: Global, file: &[u8], changes: &str) -> anyhow::Result<Vec<u8>> {
    let mut bytes = Vec::from_slice(alloc, file)?;
    for word in changes.split_whitespace() {
        match word.split_once('=') {
            Some((at, value)) => change(&mut bytes, at, value)?,
            None => bail!("no change"),
        }
    }
    Ok(bytes)
}

/// The bytes of a text with `/` in the place of each newline.
fn lines(alloc: Global, text: &str) -> Result<Vec<u8>, AllocError> {
    let mut bytes = Vec::from_slice(alloc, text.as_bytes())?;
    for byte in &mut bytes {
        if *byte == b'/' {
            *byte = b'\n';
        }
    }
    Ok(bytes)
}

/// The bytes that a line takes as a file.
fn taken(
    rt: &HostRuntime,
    command: &str,
    name: &str,
    rest: &str,
    files: &[Named],
) -> anyhow::Result<Vec<u8>> {
    match command {
        "file" => sample(rt, name),
        "text" => Ok(lines(rt.alloc(), rest)?),
        "zeros" => Ok(vec![in rt.alloc(); 0u8; rest.parse::<usize>()?]?),
        "copy" => {
            let (of, changes) = first(rest);
            changed(rt.alloc(), bytes_of(files, of), changes)
        }
        _ => bail!("no such line"),
    }
}

/// Shows bytes of a file.
fn print_bytes(rt: &HostRuntime, file: &[u8], rest: &str) -> anyhow::Result<()> {
    let (at, count) = first(rest);
    let at = at.parse::<usize>()?;
    for byte in file.iter().skip(at).take(count.parse::<usize>()?) {
        print!(rt; " {byte:02x}")?;
    }
    Ok(())
}

/// The words of a line.
fn words_of(alloc: Global, line: &str) -> Result<Vec<String>, AllocError> {
    let mut words = Vec::new(alloc);
    for word in line.split_whitespace() {
        let word = if word == "''" { "" } else { word };
        words.push(String::from_str(alloc, word)?)?;
    }
    Ok(words)
}

/// Sets what a word `KEY=VALUE` names.
fn set(alloc: Global, outside: &mut Outside, key: &str, value: &str) -> anyhow::Result<()> {
    match key {
        "in" => outside.input = Vec::from_slice(alloc, value.as_bytes())?,
        "most" => outside.most = value.parse::<usize>()?,
        "note_most" => outside.note_most = value.parse::<usize>()?,
        "read_fails" => outside.read_fails.push(value.parse::<u64>()?)?,
        "fails" => outside.fails.push(value.parse::<u64>()?)?,
        "note_fails" => outside.note_fails.push(value.parse::<u64>()?)?,
        "to" => {}
        _ => bail!("no such key"),
    }
    Ok(())
}

/// What is outside of a call with these options.
fn outside_of(alloc: Global, options: &str) -> anyhow::Result<Outside> {
    let mut outside = Outside {
        input: Vec::new(alloc),
        most: 8192,
        note_most: 8192,
        read_fails: Vec::new(alloc),
        fails: Vec::new(alloc),
        note_fails: Vec::new(alloc),
    };
    for word in options.split_whitespace() {
        let (key, value) = word.split_once('=').unwrap_or((word, ""));
        set(alloc, &mut outside, key, value)?;
    }
    Ok(outside)
}

/// The value of the option `to`, where it is the first of the options.
fn target(options: &str) -> Option<&str> {
    first(options).0.strip_prefix("to=")
}

/// Calls the program, and prints what it answers.
fn print_call(rt: &HostRuntime, rest: &str, files: &mut Vec<Named>) -> anyhow::Result<()> {
    let (line, options) = rest.split_once(" | ").unwrap_or((rest, ""));
    let words = words_of(rt.alloc(), line)?;
    let named = named_by(rt.alloc(), files, &words)?;
    let outside = outside_of(rt.alloc(), options)?;
    let answer = call(rt.alloc(), &words, named, outside)?;
    print!(rt;
        ": {} {:?}",
        answer.status,
        str::from_utf8(answer.note.bytes())?
    )?;
    match target(options) {
        Some(name) => {
            print!(rt; " {} bytes", answer.out.bytes().len())?;
            let bytes = Vec::from_slice(rt.alloc(), answer.out.bytes())?;
            add(rt.alloc(), files, name, bytes)?;
        }
        None => print!(rt; " {:?}", str::from_utf8(answer.out.bytes())?)?,
    }
    Ok(())
}

/// Does what a line says, and prints its answer.
pub fn answer(rt: &HostRuntime, line: &str, files: &mut Vec<Named>) -> anyhow::Result<()> {
    let (command, rest) = first(line);
    if command == "halo" {
        return print_call(rt, rest, files);
    }
    let (name, rest) = first(rest);
    if command == "bytes" {
        return print_bytes(rt, bytes_of(files, name), rest);
    }
    let bytes = taken(rt, command, name, rest, files)?;
    add(rt.alloc(), files, name, bytes)?;
    Ok(())
}
