// Pieces of memory, read and written whole: one copy for each page that they reach into.

ghost use Rattle.std.specs.Prelude.{◌≡◌, ◌+◌, ◌/◌, ◌^◌, ◌<◌, ◌≤◌, ℕ, length, map, replicate, take, drop};
ghost use Rattle.std.specs.List.{range_with_len};
ghost use Rattle.flat_mem.specs.Areas.{byte_in, over, page_at, written, IsDirectory};

use crate::directory::{PAGE_SIZE, count_in_page, place_in};

/// Some bytes of a buffer.
fn part(bytes: &[u8], place: usize, count: usize) -> &[u8]
    requires { place + count ≤ length bytes.now }
    ensures { result.now ≡ take count (drop place bytes.now) }
{
    &bytes[place..place + count]
}

/// Writes bytes to a place of a buffer.
fn write(bytes: &mut [u8], place: usize, part: &[u8])
    requires { place + length part.now ≤ length bytes.old }
    ensures { bytes.new ≡ written bytes.old place part.now }
{
    bytes[place..place + part.len()].copy_from_slice(part);
}

/// Copies what stands for the addresses from one on.
pub fn copy_in(directory: &[u32], bytes: &[u8], addr: u32, into: &mut [u8])
    requires directs { IsDirectory directory.now (length bytes.now / 4096) }
    requires end { addr + length into.old ≤ 2 ^ 32 }
    ensures { into.new ≡ map (byte_in directory.now bytes.now) (range_with_len addr (length into.old)) }
{
    let mut done = 0;
    while done < into.len() {
        let at = addr + done as u32;
        let count = count_in_page(at, into.len() - done);
        write(into, done, part(bytes, place_in(directory, at), count));
        done += count;
    }
}

/// Puts a piece in the place of what stands for the addresses from one on, which must have pages.
pub fn put_in(directory: &[u32], bytes: &mut [u8], addr: u32, piece: &[u8])
    requires directs { IsDirectory directory.now (length bytes.old / 4096) }
    requires end { addr + length piece.now ≤ 2 ^ 32 }
    requires there { (a : ℕ) → addr ≤ a → a < addr + length piece.now → 0 < page_at directory.now a }
    ensures long { length bytes.new ≡ length bytes.old }
    ensures bytes { (a : ℕ) → byte_in directory.now bytes.new a
        ≡ over (byte_in directory.now bytes.old) addr piece.now a }
{
    let mut done = 0;
    while done < piece.len() {
        let at = addr + done as u32;
        let count = count_in_page(at, piece.len() - done);
        write(bytes, place_in(directory, at), part(piece, done, count));
        done += count;
    }
}

/// Puts the same byte there so many times.
pub fn fill_in(directory: &[u32], bytes: &mut [u8], addr: u32, size: u32, byte: u8)
    requires directs { IsDirectory directory.now (length bytes.old / 4096) }
    requires end { addr + size ≤ 2 ^ 32 }
    requires there { (a : ℕ) → addr ≤ a → a < addr + size → 0 < page_at directory.now a }
    ensures long { length bytes.new ≡ length bytes.old }
    ensures bytes { (a : ℕ) → byte_in directory.now bytes.new a
        ≡ over (byte_in directory.now bytes.old) addr (replicate size byte) a }
{
    let page = [byte; PAGE_SIZE];
    let mut done = 0;
    while done < size {
        let left = size - done;
        let count = if left < 4096 { left } else { 4096 };
        put_in(directory, bytes, addr + done, &page[..count as usize]);
        done += count;
    }
}
