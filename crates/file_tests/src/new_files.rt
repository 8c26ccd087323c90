// New files of a small program: what moves, what stays, and where the added segments stand.
ghost use Rattle.std.specs.Prelude.{◌<◌, ◌≤◌, ◌^◌, length, All, IfOk};
ghost use Rattle.elf_read.specs.Elf.{IsReadFrom};
ghost use Rattle.elf_write.specs.Inputs.{IsInside, IsSmall};

use elf_read::{Elf, half, read_elf, word};
use elf_spec::{ByteList, NewSegment, Patch};
use elf_write::{with_new_segments, with_segments};
use std::alloc::{AllocError, Global};
use std::io;

/// A patch of the first word of the code.
const PATCH: Patch = Patch {
    offset: 256,
    word: 0x0011_2233,
};

/// A segment of three bytes that is executed.
fn code_segment(alloc: Global) -> Result<NewSegment, AllocError>
    ensures { IfOk result (λ s. IsSmall s) }
{
    Ok(NewSegment {
        vaddr: 0x11000,
        flags: 5, // read and execute
        mem_size: 3,
        bytes: ByteList::from(vec![in alloc; 1, 2, 3]?),
    })
}

/// A segment of five bytes, in 4096 of memory, that is written.
fn data_segment(alloc: Global) -> Result<NewSegment, AllocError>
    ensures { IfOk result (λ s. IsSmall s) }
{
    Ok(NewSegment {
        vaddr: 0x16000,
        flags: 6, // read and write
        mem_size: 4096,
        bytes: ByteList::from(vec![in alloc; 7, 8, 9, 10, 11]?),
    })
}

/// The new file of a file of 520 bytes with one program header at 52; the only failures here are
/// those of memory.
fn new_of(
    alloc: Global,
    file: &[u8],
    patches: &[Patch],
    segments: &[NewSegment],
) -> Result<Vec<u8>, AllocError>
    requires patches_inside { All (IsInside 520) patches.now }
    requires few_segments { length segments.now ≤ 2 }
    requires small_segments { All IsSmall segments.now }
{
    if file.len() != 520 || word(file, 28) != 52 || half(file, 44) != 1 {
        return Err(AllocError);
    }
    with_new_segments(alloc, file, patches, segments)
}

/// Prints the length of a new file, and each row of 16 bytes in which it differs from the old file with zero
/// bytes behind it.
fn print_changes(rt: &HostRuntime, file: &[u8], new: &[u8]) -> io::Result<()> {
    let mut old = Vec::from_slice(rt.alloc(), file)?;
    old.resize(new.len(), 0)?;
    print!(rt; "{} bytes", new.len())?;
    for (i, (before, after)) in old.chunks(16).zip(new.chunks(16)).enumerate() {
        if before != after {
            print!(rt; "\n{i:x}0: {after:?}")?;
        }
    }
    println!(rt; "")
}

/// Prints the new file with the patch and both segments.
fn print_grown(rt: &HostRuntime, file: &[u8]) -> io::Result<()> {
    let segments = [code_segment(rt.alloc())?, data_segment(rt.alloc())?];
    print_changes(rt, file, &new_of(rt.alloc(), file, &[PATCH], &segments)?)
}

/// Prints the new file, with the patch and one segment, of a file that was read, and how many segments are
/// read of it.
fn print_again(rt: &HostRuntime, elf: &Elf, file: &[u8]) -> io::Result<()>
    requires { IsReadFrom elf.now file.now }
{
    if file.len() != 520 || half(file, 44) != 1 {
        return println!(rt; "another file");
    }
    let segments = [code_segment(rt.alloc())?];
    let new = with_segments(rt.alloc(), elf, file, &[PATCH], &segments)?;
    match read_elf(rt.alloc(), &new) {
        Ok(again) => print!(rt; "{} segments, ", again.segments.as_slice().len())?,
        Err(why) => print!(rt; "{why}, ")?,
    }
    print_changes(rt, file, &new)
}

/// Prints what is added to a file: by `nothing` its program headers alone move, `all` are the patch and both
/// segments, and `code` are the patch and the first segment, added to what was read.
pub fn print_new(rt: &HostRuntime, file: &[u8], added: &str) -> io::Result<()>
    requires { length file.now < 2 ^ 32 }
{
    match added {
        "nothing" => print_changes(rt, file, &new_of(rt.alloc(), file, &[], &[])?),
        "all" => print_grown(rt, file),
        "code" => match read_elf(rt.alloc(), file) {
            Ok(elf) => print_again(rt, &elf, file),
            Err(why) => println!(rt; "{why}"),
        },
        _ => println!(rt; "no such addition"),
    }
}
