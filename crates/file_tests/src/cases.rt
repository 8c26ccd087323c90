// The lines of the table: `COMMAND SAMPLE WORD..`, with the lines of a plan behind ` | `. A word `AT=BYTE`
// sets the byte at an offset of the sample's file to a hexadecimal number, `len=COUNT` cuts the file there or
// fills it up with zero bytes, and any other word is an argument of the command.
ghost use Rattle.std.specs.Prelude.{◌<◌, ◌^◌, length};

use crate::images::print_image;
use crate::lists::print_list;
use crate::new_files::print_new;
use crate::readers::{print_fields, print_read, print_relocs};
use crate::samples::sample;
use anyhow::bail;
use std::io;

/// Files of the table are shorter.
const MOST: usize = 0x200_0000;

/// Makes the change that stands in a word before and behind its `=`.
fn change(file: &mut Vec<u8>, at: &str, value: &str) -> anyhow::Result<()> {
    if at == "len" {
        file.resize(value.parse::<usize>()?, 0)?;
        return Ok(());
    }
    let at = at.parse::<usize>()?;
    let byte = u8::from_str_radix(value, 16)?;
    match file.get_mut(at) {
        Some(place) => *place = byte,
        None => bail!("no such byte"),
    }
    Ok(())
}

/// Makes the changes that a case asks for.
fn change_all(file: &mut Vec<u8>, case: &str) -> anyhow::Result<()> {
    for word in case.split_whitespace() {
        if let Some((at, value)) = word.split_once('=') {
            change(file, at, value)?;
        }
    }
    Ok(())
}

/// Prints what a command answers for a file.
fn print_answer(
    rt: &HostRuntime,
    command: &str,
    file: &[u8],
    case: &str,
    plan: &str,
) -> io::Result<()>
    requires { length file.now < 2 ^ 32 }
{
    match command {
        "read" => print_read(rt, file),
        "fields" => print_fields(rt, file),
        "relocs" => print_relocs(rt, file),
        "new" => print_new(rt, file, plan),
        _ => print_image(rt, command, file, case, plan),
    }
}

/// Prints the answer of a case.
pub fn answer(rt: &HostRuntime, line: &str) -> anyhow::Result<()> {
    let (case, plan) = line.split_once(" | ").unwrap_or((line, ""));
    let (command, rest) = case.split_once(' ').unwrap_or((case, ""));
    if command == "list" {
        return Ok(print_list(rt, rest.split_whitespace())?);
    }
    let (name, words) = rest.split_once(' ').unwrap_or((rest, ""));
    let mut file = sample(rt, name)?;
    change_all(&mut file, words)?;
    if file.len() > MOST {
        bail!("a long file");
    }
    Ok(print_answer(rt, command, &file, words, plan)?)
}
