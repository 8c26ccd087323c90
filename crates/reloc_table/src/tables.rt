// Which sections have kept relocation entries, and the checks of them as a whole (gABI, "Section
// Header", "Relocation").

ghost use Rattle.std.specs.Prelude.{◌≡◌, ◌<◌, ◌^◌, length, IfSome, slice_get, position};
ghost use Rattle.std.specs.List.{list_any};
ghost use Rattle.elf_spec.specs.Code.{is_executable};
ghost use Rattle.elf_spec.specs.Relocations.{is_alloc, is_at, is_kept_rela};
ghost use Rattle.elf_spec.specs.Tables.{symtab_index};
ghost use Rattle.reloc_table.specs.Checks.{has_bad_entries, is_code, is_for_code};
ghost use Rattle.first_check.specs.Answers.{Says};
ghost use Rattle.reloc_table.specs.Refusals.{entry_size, no_relocs};

use crate::refusals::RelocRefusal;
use bitflags::Flags;
use elf_read::SectionFlags;
use elf_spec::Section;

const SHT_PROGBITS: u32 = 1;

const SHT_RELA: u32 = 4;

/// The size of an entry.
pub const ENTRY_SIZE: u32 = 12;

fn is_at(place: Option<usize>, i: usize) -> bool
    ensures { result ≡ is_at place i }
{
    match place {
        Some(k) => k == i,
        None => false,
    }
}

/// Whether a section number names a section that takes memory.
fn is_alloc(sections: &[Section], info: u32) -> bool
    ensures { result ≡ is_alloc (slice_get sections.now info) }
{
    let i = info as usize;
    i < sections.len()
        && SectionFlags::from_bits_retain(sections[i].flags).contains(SectionFlags::ALLOC)
}

/// Whether a section has kept entries: it is not loaded, names the symbol table, which is section
/// `table`, and applies to a section in memory.
pub fn is_kept(sections: &[Section], table: Option<usize>, s: &Section) -> bool
    requires { table ≡ symtab_index sections.now }
    ensures { result ≡ is_kept_rela sections.now s.now }
{
    s.kind == SHT_RELA
        && !SectionFlags::from_bits_retain(s.flags).contains(SectionFlags::ALLOC)
        && is_at(table, s.link as usize)
        && is_alloc(sections, s.info)
}

/// Whether a section has code: it is in the file and in memory, is executable and not empty.
pub fn is_executable(s: &Section) -> bool
    ensures { result ≡ is_executable s.now }
{
    let flags = SectionFlags::from_bits_retain(s.flags);
    s.kind == SHT_PROGBITS
        && s.size != 0
        && flags.contains(SectionFlags::ALLOC)
        && flags.contains(SectionFlags::EXECINSTR)
}

/// Whether a section number names an executable section.
fn is_code(sections: &[Section], info: u32) -> bool
    ensures { result ≡ is_code (slice_get sections.now info) }
{
    let i = info as usize;
    i < sections.len() && is_executable(&sections[i])
}

fn has_relocs(sections: &[Section], table: Option<usize>) -> bool
    requires { table ≡ symtab_index sections.now }
    ensures { result ≡ list_any (is_for_code sections.now) sections.now }
{
    sections.iter().any(|s| is_kept(sections, table, s) && is_code(sections, s.info))
}

/// Checks that some kept entries are for an executable section.
#[tactic(auto, unfolding(crate::specs::Refusals::no_relocs))]
pub fn check_any(sections: &[Section], table: Option<usize>) -> Result<(), RelocRefusal>
    requires { table ≡ symtab_index sections.now }
    ensures { Says result (no_relocs sections.now) }
{
    if !has_relocs(sections, table) {
        return Err(RelocRefusal::NoRelocs);
    }
    Ok(())
}

fn has_bad_entries(sections: &[Section], table: Option<usize>, s: &Section) -> bool
    requires { table ≡ symtab_index sections.now }
    ensures { result ≡ has_bad_entries sections.now s.now }
{
    is_kept(sections, table, s) && (s.entry_size != ENTRY_SIZE || s.size % ENTRY_SIZE != 0)
}

fn first_bad(sections: &[Section], table: Option<usize>) -> Option<usize>
    requires { table ≡ symtab_index sections.now }
    ensures first { result ≡ position (has_bad_entries sections.now) sections.now }
    ensures inside { IfSome result (λ i. i < length sections.now) }
{
    sections
        .iter()
        .position(|s| has_bad_entries(sections, table, s))
}

/// Checks that kept entries are whole ones.
#[tactic(auto, unfolding(crate::specs::Refusals::entry_size))]
pub fn check_sizes(sections: &[Section], table: Option<usize>) -> Result<(), RelocRefusal>
    requires table { table ≡ symtab_index sections.now }
    requires few { length sections.now < 2 ^ 32 }
    ensures { Says result (entry_size sections.now) }
{
    match first_bad(sections, table) {
        Some(i) => Err(RelocRefusal::EntrySize(i as u32)),
        None => Ok(()),
    }
}
