// Little-endian fields in a list of bytes (gABI, "Data Encoding").
ghost use Rattle.std.specs.Prelude.{◌≡◌, ◌+◌, ◌≤◌, ◌++◌, length, OnOk};
ghost use Rattle.elf_spec.specs.Fields.{half_at, word_at, word_bytes};
ghost use Rattle.elf_spec.specs.NewFile.{put_half, put_word};

use byteorder::{ByteOrder, LittleEndian};
use std::alloc::AllocError;

/// The two bytes at `at` as a number.
#[tactic(auto, unfolding(elf_spec::specs::Fields::half_at))]
pub fn read_half(bytes: &[u8], at: usize) -> u16
    requires { at + 2 ≤ length bytes.now }
    ensures { result ≡ half_at bytes.now at }
{
    LittleEndian::read_u16(&bytes[at..])
}

/// The four bytes at `at` as a number.
#[tactic(auto, unfolding(elf_spec::specs::Fields::word_at))]
pub fn read_word(bytes: &[u8], at: usize) -> u32
    requires { at + 4 ≤ length bytes.now }
    ensures { result ≡ word_at bytes.now at }
{
    LittleEndian::read_u32(&bytes[at..])
}

/// Writes a number to the two bytes at `at`.
pub fn set_half(bytes: &mut [u8], at: usize, number: u16)
    requires { at + 2 ≤ length bytes.old }
    ensures { bytes.new ≡ put_half at number bytes.old }
{
    LittleEndian::write_u16(&mut bytes[at..at + 2], number);
}

/// Writes a number to the four bytes at `at`.
pub fn set_word(bytes: &mut [u8], at: usize, number: u32)
    requires { at + 4 ≤ length bytes.old }
    ensures { bytes.new ≡ put_word at number bytes.old }
{
    LittleEndian::write_u32(&mut bytes[at..at + 4], number);
}

/// Adds the four bytes of a number at the end.
#[tactic(auto, unfolding(elf_spec::specs::Fields::word_bytes))]
pub fn push_word(out: &mut Vec<u8>, number: u32) -> Result<(), AllocError>
    ensures is { OnOk result (out.new.items ≡ out.old.items ++ word_bytes number) }
    ensures long { OnOk result (length out.new.items ≡ length out.old.items + 4) }
{
    out.extend_from_slice(&number.to_le_bytes())?;
    Ok(())
}
