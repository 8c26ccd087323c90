// Reads a whole file, or finds the first check that it fails.

ghost use Rattle.std.specs.Prelude.{◌<◌, ◌^◌, length, IfOk, OnOk};
ghost use Rattle.elf_read.specs.Elf.{Gives, IsReadFrom};
ghost use Rattle.elf_read.specs.Readable.{ReadableFacts};

use crate::elf_file::Elf;
use crate::fields::{half, word};
use crate::header::{E_ENTRY, E_FLAGS, E_PHNUM, E_PHOFF, E_SHNUM, E_SHOFF, check_header};
use crate::overlaps::check_overlap;
use crate::refusals::ElfRefusal;
use crate::sections::{check_sections, read_sections};
use crate::segments::{check_kinds, check_large, check_out, read_segments};
use crate::symbols::read_symbols;
use std::alloc::Global;

/// The headers and symbols of a file of fewer than 2^32 bytes, in the file's order; or the first
/// check that it fails, in the order of the variants of `ElfRefusal`, with the lowest index; or
/// `Memory`. The time is linear in the file.
#[tactic(auto, using(crate::proofs::ReadableFacts::readable_facts, crate::proofs::ReadableFacts::few_sections))]
pub fn read_elf(alloc: Global, file: &[u8]) -> Result<Elf, ElfRefusal>
    requires { length file.now < 2 ^ 32 }
    ensures gives { Gives result file.now }
    ensures facts { OnOk result (ReadableFacts file.now) }
    ensures read { IfOk result (λ elf. IsReadFrom elf file.now) }
{
    check_header(file)?;
    let Ok(segments) = read_segments(
        alloc,
        file,
        word(file, E_PHOFF) as usize,
        half(file, E_PHNUM) as usize,
    ) else {
        return Err(ElfRefusal::Memory);
    };
    let program_headers = segments.as_slice();
    check_kinds(program_headers)?;
    check_out(program_headers, file.len())?;
    check_overlap(program_headers)?;
    check_large(program_headers)?;
    let Ok(sections) = read_sections(
        alloc,
        file,
        word(file, E_SHOFF) as usize,
        half(file, E_SHNUM) as usize,
    ) else {
        return Err(ElfRefusal::Memory);
    };
    let section_headers = sections.as_slice();
    check_sections(section_headers, file.len())?;
    let symbols = read_symbols(alloc, file, section_headers)?;
    Ok(Elf {
        entry: word(file, E_ENTRY),
        phoff: word(file, E_PHOFF),
        shoff: word(file, E_SHOFF),
        flags: word(file, E_FLAGS),
        segments,
        sections,
        symbols,
    })
}
