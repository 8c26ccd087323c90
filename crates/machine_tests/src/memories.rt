// The memory of small files: bytes, code, numbers and pieces.
ghost use Rattle.std.specs.Prelude.{◌<◌, ◌^◌, length};

use crate::samples::ramp;
use anyhow::bail;
use elf_read::read_elf;
use flat_mem::{FlatMem, load};
use rv_isa::Width;
use std::alloc::{AllocError, Global};
use std::str;

/// A segment: its file offset, its address, its sizes in the file and in memory, and its flags.
pub type Place = [u32; 5];

/// Puts bytes at an offset, as far as the file reaches.
fn change(file: &mut [u8], at: usize, bytes: &[u8]) {
    for (place, byte) in file.iter_mut().skip(at).zip(bytes) {
        *place = *byte;
    }
}

/// The file of the program whose bytes are their offsets, with these segments, of which there are at most 5,
/// in the place of its own.
pub fn file_of(alloc: Global, segments: &[Place]) -> Result<Vec<u8>, AllocError> {
    let mut headers = Vec::new(alloc);
    for [offset, addr, in_file, in_memory, flags] in segments {
        for field in [1, *offset, *addr, *addr, *in_file, *in_memory, *flags, 4] {
            headers.extend_from_slice(&field.to_le_bytes())?;
        }
    }
    let mut file = ramp(alloc)?;
    change(&mut file, 44, &[segments.len().min(5) as u8]);
    change(&mut file, 52, &headers);
    Ok(file)
}

/// The memory of a file.
pub fn memory_of(alloc: Global, file: &[u8]) -> anyhow::Result<FlatMem> {
    if file.len() > 4096 {
        bail!("a long file");
    }
    let elf = read_elf(alloc, file)?;
    Ok(load(alloc, &elf, file)?)
}

/// A width by its name in the loads' mnemonics.
pub fn width_of(name: &str) -> Option<Width> {
    match name {
        "b" => Some(Width::Byte),
        "h" => Some(Width::Half),
        "w" => Some(Width::Word),
        "bu" => Some(Width::ByteU),
        "hu" => Some(Width::HalfU),
        _ => None,
    }
}

/// The byte at an address, or `none`.
pub fn byte_at(alloc: Global, memory: &FlatMem, addr: u32) -> Result<String, AllocError> {
    match memory.get(addr) {
        Some(byte) => format!(in alloc; "{byte:02x}"),
        None => String::from_str(alloc, "none"),
    }
}

/// A number in hexadecimal, or `none`.
pub fn number(alloc: Global, number: Option<u32>) -> Result<String, AllocError> {
    match number {
        Some(number) => format!(in alloc; "{number:08x}"),
        None => String::from_str(alloc, "none"),
    }
}

/// Puts a text into memory at `addr + from`, where it may be stored.
pub fn put(memory: &mut FlatMem, addr: u32, from: u32, text: &str) -> anyhow::Result<()> {
    let bytes = text.as_bytes();
    let Some(at) = addr.checked_add(from) else {
        bail!("a high address");
    };
    if bytes.len() > 64 || !memory.can_store(at, bytes.len() as u32) {
        bail!("no place to store");
    }
    memory.put(addr, from, bytes);
    Ok(())
}

/// The bytes of memory from `addr + from` on.
pub fn copy(
    alloc: Global,
    memory: &FlatMem,
    addr: u32,
    from: u32,
    len: u32,
) -> anyhow::Result<String> {
    let Some(at) = addr.checked_add(from) else {
        bail!("a high address");
    };
    if len > 64 || !memory.holds(at, len) {
        bail!("no such bytes");
    }
    let mut piece = vec![in alloc; 0u8; len as usize]?;
    memory.copy_to(addr, from, &mut piece);
    Ok(format!(in alloc; "{piece:?}")?)
}
