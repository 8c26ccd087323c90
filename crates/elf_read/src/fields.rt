// The fields of a file: little-endian numbers at offsets (gABI, "Data Encoding").

ghost use Rattle.std.specs.Prelude.{◌≡◌, ◌+◌, ◌≤◌, length};
ghost use Rattle.elf_spec.specs.Fields.{half_at, word_at};

use byteorder::{ByteOrder, LittleEndian};

/// The two-byte number at an offset.
#[tactic(auto, unfolding(elf_spec::specs::Fields::half_at))]
pub fn half(file: &[u8], at: usize) -> u16
    requires { at + 2 ≤ length file.now }
    ensures { result ≡ half_at file.now at }
{
    LittleEndian::read_u16(&file[at..at + 2])
}

/// The four-byte number at an offset.
#[tactic(auto, unfolding(elf_spec::specs::Fields::word_at))]
pub fn word(file: &[u8], at: usize) -> u32
    requires { at + 4 ≤ length file.now }
    ensures { result ≡ word_at file.now at }
{
    LittleEndian::read_u32(&file[at..at + 4])
}
