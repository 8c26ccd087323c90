// The checks of the file header (gABI, "ELF Identification", "ELF Header").

ghost use Rattle.std.specs.Prelude.{◌≡◌, ◌+◌, ◌*◌, ◌<◌, ◌≤◌, ◌^◌, length, OnOk};
ghost use Rattle.elf_spec.specs.Records.{e_phnum, e_phoff, e_shnum, e_shoff};
ghost use Rattle.elf_read.specs.Checks.{has_bad_flags, is_program_table_out, is_section_table_out, is_table_out};
ghost use Rattle.first_check.specs.Answers.{Says};
ghost use Rattle.elf_read.specs.Refusals.{header_refusal};

use crate::fields::{half, word};
use crate::flag_bits::FileFlags;
use crate::refusals::{ElfRefusal, Table};
use bitflags::Flags;

/// The offsets of the header's fields.
pub(crate) const EI_CLASS: usize = 4;

pub(crate) const EI_DATA: usize = 5;

pub(crate) const EI_VERSION: usize = 6;

pub(crate) const E_TYPE: usize = 16;

pub(crate) const E_MACHINE: usize = 18;

pub(crate) const E_VERSION: usize = 20;

pub(crate) const E_ENTRY: usize = 24;

pub(crate) const E_PHOFF: usize = 28;

pub(crate) const E_SHOFF: usize = 32;

pub(crate) const E_FLAGS: usize = 36;

pub(crate) const E_PHENTSIZE: usize = 42;

pub(crate) const E_PHNUM: usize = 44;

pub(crate) const E_SHENTSIZE: usize = 46;

pub(crate) const E_SHNUM: usize = 48;

const ELFCLASS32: u8 = 1;

const ELFDATA2LSB: u8 = 1;

const EV_CURRENT: u8 = 1;

const ET_EXEC: u16 = 2;

const EM_RISCV: u16 = 243;

/// The size of the file header.
const HEADER_SIZE: usize = 52;

/// The most program headers that a file may have.
const MOST_SEGMENTS: u16 = 100;

/// Whether a table of entries of `size` bytes, in a file of so many, has entries of another size or
/// leaves the file.
fn is_table_out(bytes: usize, size: u16, offset: u32, entry_size: u16, count: u16) -> bool
    ensures { result ≡ is_table_out bytes size offset entry_size count }
{
    count != 0 && (entry_size != size || offset as u64 + size as u64 * count as u64 > bytes as u64)
}

fn is_program_table_out(file: &[u8]) -> bool
    requires { 52 ≤ length file.now }
    ensures { result ≡ is_program_table_out file.now }
{
    is_table_out(
        file.len(),
        32,
        word(file, E_PHOFF),
        half(file, E_PHENTSIZE),
        half(file, E_PHNUM),
    )
}

fn is_section_table_out(file: &[u8]) -> bool
    requires { 52 ≤ length file.now }
    ensures { result ≡ is_section_table_out file.now }
{
    is_table_out(
        file.len(),
        40,
        word(file, E_SHOFF),
        half(file, E_SHENTSIZE),
        half(file, E_SHNUM),
    )
}

fn has_bad_flags(file: &[u8]) -> bool
    requires { 52 ≤ length file.now }
    ensures { result ≡ has_bad_flags file.now }
{
    FileFlags::from_bits_retain(word(file, E_FLAGS)).intersects(FileFlags::REFUSED)
}

/// Checks the header of a file, and that the two header tables are inside the file.
#[tactic(auto, unfolding(crate::specs::Refusals::header_refusal))]
pub(crate) fn check_header(file: &[u8]) -> Result<(), ElfRefusal>
    ensures exact { Says result (header_refusal file.now) }
    ensures long { OnOk result (52 ≤ length file.now) }
    ensures few { OnOk result (e_phnum file.now ≤ 100) }
    ensures segments { OnOk result (0 < e_phnum file.now → e_phoff file.now + 32 * e_phnum file.now ≤ length file.now) }
    ensures sections { OnOk result (0 < e_shnum file.now → e_shoff file.now + 40 * e_shnum file.now ≤ length file.now) }
{
    if file.len() < HEADER_SIZE || &file[..4] != b"\x7fELF".as_slice() {
        return Err(ElfRefusal::NotElf);
    }
    if file[EI_CLASS] != ELFCLASS32 {
        return Err(ElfRefusal::WrongClass(file[EI_CLASS]));
    }
    if file[EI_DATA] != ELFDATA2LSB {
        return Err(ElfRefusal::WrongOrder(file[EI_DATA]));
    }
    if file[EI_VERSION] != EV_CURRENT || word(file, E_VERSION) != EV_CURRENT as u32 {
        return Err(ElfRefusal::WrongVersion);
    }
    if half(file, E_TYPE) != ET_EXEC {
        return Err(ElfRefusal::NotExec(half(file, E_TYPE)));
    }
    if half(file, E_MACHINE) != EM_RISCV {
        return Err(ElfRefusal::NotRiscv(half(file, E_MACHINE)));
    }
    if has_bad_flags(file) {
        return Err(ElfRefusal::Flags(word(file, E_FLAGS)));
    }
    if is_program_table_out(file) {
        return Err(ElfRefusal::TableOut(Table::Program));
    }
    if is_section_table_out(file) {
        return Err(ElfRefusal::TableOut(Table::Section));
    }
    if half(file, E_PHNUM) > MOST_SEGMENTS {
        return Err(ElfRefusal::TooMany(half(file, E_PHNUM)));
    }
    Ok(())
}
