// Numbers in a buffer, lowest byte first.

ghost use Rattle.std.specs.Prelude.{◌≡◌, ◌+◌, ◌*◌, ◌%◌, ◌≤◌, ◌<◌, ◌^◌, length, take, drop};
ghost use Rattle.machine_spec.specs.Widths.{loaded_as, low_bytes, number_of, size_of};
ghost use Rattle.flat_mem.specs.Areas.{written};

use byteorder::{ByteOrder, LittleEndian};
use rv_isa::Width;

/// How many bytes a load or a store of this width moves.
#[inline(always)]
pub fn size_of(width: Width) -> u32
    ensures { result ≡ size_of width }
{
    match width {
        Width::Byte | Width::ByteU => 1,
        Width::Half | Width::HalfU => 2,
        Width::Word => 4,
    }
}

/// How the next of some bytes from an address on are looked at: a word, or one byte.
pub fn width_at(addr: u32, most: u32) -> Width
    requires { 0 < most }
    ensures aligned { addr % size_of result ≡ 0 }
    ensures fits { size_of result ≤ most }
    ensures some { 0 < size_of result }
{
    if addr % 4 == 0 && 4 <= most {
        Width::Word
    } else {
        Width::Byte
    }
}

/// The word that a load makes of the number that it reads.
#[inline(always)]
pub fn loaded_as(width: Width, number: u32) -> u32
    requires { number < 2 ^ (8 * size_of width) }
    ensures { result ≡ loaded_as width number }
{
    match width {
        Width::Byte if number >= 0x80 => number + 0xffff_ff00,
        Width::Half if number >= 0x8000 => number + 0xffff_0000,
        _ => number,
    }
}

/// The number that stands at a place.
#[inline(always)]
pub fn number_at(bytes: &[u8], place: usize, width: Width) -> u32
    requires { place + size_of width ≤ length bytes.now }
    ensures is { result ≡ number_of (take (size_of width) (drop place bytes.now)) }
    ensures small { result < 2 ^ (8 * size_of width) }
{
    match width {
        Width::Byte | Width::ByteU => bytes[place] as u32,
        Width::Half | Width::HalfU => LittleEndian::read_u16(&bytes[place..place + 2]) as u32,
        Width::Word => LittleEndian::read_u32(&bytes[place..place + 4]),
    }
}

/// Writes the lowest bytes of a value to a place.
#[inline(always)]
pub fn write_number(bytes: &mut [u8], place: usize, width: Width, value: u32)
    requires { place + size_of width ≤ length bytes.old }
    ensures { bytes.new ≡ written bytes.old place (low_bytes (size_of width) value) }
{
    match width {
        Width::Byte | Width::ByteU => bytes[place] = (value % 0x100) as u8,
        Width::Half | Width::HalfU => {
            LittleEndian::write_u16(&mut bytes[place..place + 2], (value % 0x1_0000) as u16);
        }
        Width::Word => LittleEndian::write_u32(&mut bytes[place..place + 4], value),
    }
}
