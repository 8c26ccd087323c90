// What is read of a file: its records, its relocation entries, or why it isn't read.
ghost use Rattle.std.specs.Prelude.{◌<◌, ◌^◌, length};
ghost use Rattle.elf_read.specs.Elf.{IsReadFrom};

use elf_read::{Elf, read_elf};
use reloc_table::{Relocs, read_relocs};
use std::fmt::Debug;
use std::io;

/// Prints `read`, or why a file isn't read.
pub fn print_read(rt: &HostRuntime, file: &[u8]) -> io::Result<()>
    requires { length file.now < 2 ^ 32 }
{
    match read_elf(rt.alloc(), file) {
        Ok(_) => println!(rt; "read"),
        Err(why) => println!(rt; "{why}"),
    }
}

/// Prints a line for each of some records, each behind a newline byte.
fn print_records<T: Debug>(rt: &HostRuntime, records: &[T]) -> io::Result<()> {
    for record in records {
        print!(rt; "\n{record:?}")?;
    }
    Ok(())
}

/// Prints the fields of a file's header and of its records.
fn print_elf(rt: &HostRuntime, elf: &Elf) -> io::Result<()> {
    print!(rt;
        "entry {:08x}, headers at {} and {}, flags {}",
        elf.entry, elf.phoff, elf.shoff, elf.flags
    )?;
    print_records(rt, elf.segments.as_slice())?;
    print_records(rt, elf.sections.as_slice())?;
    print_records(rt, elf.symbols.as_slice())?;
    println!(rt; "")
}

/// Prints the fields that are read of a file, or why it isn't read.
pub fn print_fields(rt: &HostRuntime, file: &[u8]) -> io::Result<()>
    requires { length file.now < 2 ^ 32 }
{
    match read_elf(rt.alloc(), file) {
        Ok(elf) => print_elf(rt, &elf),
        Err(why) => println!(rt; "{why}"),
    }
}

/// Prints relocation entries in order, and the number of those that are held once.
fn print_entries(rt: &HostRuntime, relocs: &Relocs) -> io::Result<()> {
    let entries = relocs.to_vec(rt.alloc())?;
    print_records(rt, &entries)?;
    println!(rt; "\n{} once", relocs.entries_once().len())
}

/// Prints the relocation entries of a file that was read, or why they are refused.
fn print_relocs_of(rt: &HostRuntime, elf: &Elf, file: &[u8]) -> io::Result<()>
    requires { IsReadFrom elf.now file.now }
{
    match read_relocs(rt.alloc(), elf, file) {
        Ok(relocs) => print_entries(rt, &relocs),
        Err(why) => println!(rt; "{why}"),
    }
}

/// Prints the relocation entries of a file, or why it isn't read or they are refused.
pub fn print_relocs(rt: &HostRuntime, file: &[u8]) -> io::Result<()>
    requires { length file.now < 2 ^ 32 }
{
    match read_elf(rt.alloc(), file) {
        Ok(elf) => print_relocs_of(rt, &elf, file),
        Err(why) => println!(rt; "{why}"),
    }
}
