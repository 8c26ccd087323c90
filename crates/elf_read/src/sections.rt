// The section headers of a file and their checks (gABI, "Section Header").

ghost use Rattle.std.specs.Prelude.{◌≡◌, ◌+◌, ◌*◌, ◌<◌, ◌≤◌, ◌^◌, length, true, IfOk, IfSome, slice_get};
ghost use Rattle.elf_spec.specs.Records.{entries, section_at};
ghost use Rattle.elf_spec.specs.Relocations.{is_at};
ghost use Rattle.elf_spec.specs.Tables.{symtab_index};
ghost use Rattle.first_check.specs.Answers.{Says};
ghost use Rattle.elf_read.specs.Checks.{is_bad_table, is_strtab, leaves_file};
ghost use Rattle.elf_read.specs.Refusals.{section_out};

use crate::elf_file::SectionList;
use crate::fields::word;
use crate::refusals::ElfRefusal;
use elf_spec::Section;
use std::alloc::{AllocError, Global};

const SHT_NULL: u32 = 0;

const SHT_SYMTAB: u32 = 2;

const SHT_STRTAB: u32 = 3;

const SHT_NOBITS: u32 = 8;

/// The section header at an offset.
#[tactic(auto, unfolding(elf_spec::specs::Records::section_at))]
pub(crate) fn section(file: &[u8], at: usize) -> Section
    requires { at + 40 ≤ length file.now }
    ensures { result ≡ section_at file.now at }
{
    Section {
        name: word(file, at),
        kind: word(file, at + 4),
        flags: word(file, at + 8),
        addr: word(file, at + 12),
        offset: word(file, at + 16),
        size: word(file, at + 20),
        link: word(file, at + 24),
        info: word(file, at + 28),
        align: word(file, at + 32),
        entry_size: word(file, at + 36),
    }
}

/// Whether the section header at an offset is this one.
pub(crate) fn is_section(file: &[u8], at: usize, section_header: Section) -> bool
    requires { at + 40 ≤ length file.now }
    ensures yes { result ≡ true → section_at file.now at ≡ section_header }
    ensures no { section_at file.now at ≡ section_header → result ≡ true }
{
    section(file, at) == section_header
}

/// The section headers from an offset on.
pub(crate) fn read_sections(
    alloc: Global,
    file: &[u8],
    at: usize,
    count: usize,
) -> Result<SectionList, AllocError>
    requires { 0 < count → at + 40 * count ≤ length file.now }
    ensures count { IfOk result (λ list. length list ≡ count) }
    ensures read { IfOk result (λ list. list ≡ entries (section_at file.now) 40 at count) }
{
    let mut list = SectionList::new(alloc);
    for i in 0..count {
        list.push(section(file, at + 40 * i))?;
    }
    Ok(list)
}

/// Which section is the symbol table: the first of its kind.
pub fn symbol_table(sections: &[Section]) -> Option<usize>
    ensures first { result ≡ symtab_index sections.now }
    ensures inside { IfSome result (λ i. i < length sections.now) }
{
    sections.iter().position(|s| s.kind == SHT_SYMTAB)
}

fn is_at(place: Option<usize>, i: usize) -> bool
    ensures { result ≡ is_at place i }
{
    match place {
        Some(k) => k == i,
        None => false,
    }
}

fn leaves_file(s: &Section, bytes: usize) -> bool
    ensures { result ≡ leaves_file bytes s.now }
{
    s.kind != SHT_NULL && s.kind != SHT_NOBITS && s.offset as u64 + s.size as u64 > bytes as u64
}

/// Whether a section number names a string table.
fn is_strtab(sections: &[Section], link: u32) -> bool
    ensures { result ≡ is_strtab (slice_get sections.now link) }
{
    let i = link as usize;
    i < sections.len() && sections[i].kind == SHT_STRTAB
}

fn is_bad_table(sections: &[Section], s: &Section) -> bool
    ensures { result ≡ is_bad_table sections.now s.now }
{
    s.entry_size != 16 || s.size % 16 != 0 || !is_strtab(sections, s.link)
}

/// Checks that the sections are inside a file of so many bytes, and the symbol table's form.
#[tactic(auto, unfolding(crate::specs::Refusals::section_out))]
pub(crate) fn check_sections(sections: &[Section], bytes: usize) -> Result<(), ElfRefusal>
    requires { length sections.now < 2 ^ 32 }
    ensures { Says result (section_out bytes sections.now) }
{
    let table = symbol_table(sections);
    for (i, s) in sections.iter().enumerate() {
        if leaves_file(s, bytes) || (is_at(table, i) && is_bad_table(sections, s)) {
            return Err(ElfRefusal::SectionOut(i as u32));
        }
    }
    Ok(())
}
