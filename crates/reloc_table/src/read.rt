// Reads all kept relocation entries of a file.

ghost use Rattle.std.specs.Prelude.{◌≡◌, ◌+◌, ◌/◌, ◌<◌, ◌≤◌, ◌^◌, length, All, IfOk, filter, flat_map, slice_get, true};
ghost use Rattle.elf_spec.specs.Records.{entries, reloc_at};
ghost use Rattle.elf_spec.specs.Relocations.{is_kept_rela};
ghost use Rattle.elf_spec.specs.Tables.{symtab_index};
ghost use Rattle.elf_read.specs.Elf.{IsReadFrom};
ghost use Rattle.elf_read.specs.Readable.{IsSectionInside};
ghost use Rattle.first_check.specs.Answers.{Says};
ghost use Rattle.reloc_table.specs.Refusals.{bad_entry};
ghost use Rattle.reloc_table.specs.Slots.{AreBad, tables_of};
ghost use Rattle.reloc_table.specs.Reads.{GivesRelocs};

use crate::entries::{bad_slots, check_section};
use crate::refusals::RelocRefusal;
use crate::relocs::{Relocs, relocs_at};
use crate::slots::{EntryTable, slots_of};
use crate::tables::{ENTRY_SIZE, check_any, check_sizes, is_kept};
use elf_read::{Elf, symbol_table};
use elf_spec::Section;
use std::alloc::{AllocError, Global};

/// The tables of the kept entries of these sections, in order.
fn read_tables(
    alloc: Global,
    sections: &[Section],
    table: Option<usize>,
) -> Result<Vec<EntryTable>, AllocError>
    requires { table ≡ symtab_index sections.now }
    ensures { IfOk result (λ list. list.items ≡ tables_of sections.now) }
{
    let mut list = Vec::new(alloc);
    for s in sections {
        if is_kept(sections, table, s) {
            list.push(EntryTable {
                offset: s.offset,
                count: s.size / ENTRY_SIZE,
            })?;
        }
    }
    Ok(list)
}

/// Checks the kept entries of a file with so many symbols; `bad` are the slots of the refused ones.
#[tactic(auto, unfolding(crate::specs::Refusals::bad_entry))]
fn check_entries(
    file: &[u8],
    symbols: usize,
    bad: &[u64],
    sections: &[Section],
    table: Option<usize>,
) -> Result<(), RelocRefusal>
    requires table { table ≡ symtab_index sections.now }
    requires few { length sections.now < 2 ^ 32 }
    requires short { length file.now < 2 ^ 32 }
    requires inside { All (IsSectionInside (length file.now)) sections.now }
    requires bad { AreBad file.now symbols (tables_of sections.now) bad.now }
    ensures { Says result (bad_entry file.now symbols sections.now) }
{
    for (i, s) in sections.iter().enumerate() {
        if is_kept(sections, table, s) {
            check_section(file, symbols, bad, i as u32, s)?;
        }
    }
    Ok(())
}

/// The entries of all relocation sections of a file that are not loaded, name the symbol table and
/// apply to a section in memory, in order of section and entry; or the first check that fails, in
/// the order of the variants of `RelocRefusal`; or `Memory`. `elf` is what was read from `file`. Time
/// and memory are linear in the file, but for sorting the sections, however the sections overlap.
#[tactic(auto, using(crate::proofs::Sections::few_sections, crate::proofs::KeptTables::tables_inside, crate::proofs::KeptTables::all_entries))]
pub fn read_relocs<'a>(alloc: Global, elf: &Elf, file: &'a [u8]) -> Result<Relocs<'a>, RelocRefusal>
    requires { IsReadFrom elf.now file.now }
    ensures { GivesRelocs result file.now }
{
    let sections = elf.sections.as_slice();
    let symbols = elf.symbols.as_slice().len();
    let table = symbol_table(sections);
    check_any(sections, table)?;
    check_sizes(sections, table)?;
    let Ok(tables) = read_tables(alloc, sections, table) else {
        return Err(RelocRefusal::Memory);
    };
    let Ok(slots) = slots_of(alloc, tables.as_slice()) else {
        return Err(RelocRefusal::Memory);
    };
    let Ok(bad) = bad_slots(alloc, file, symbols, tables.as_slice(), slots.as_slice()) else {
        return Err(RelocRefusal::Memory);
    };
    check_entries(file, symbols, bad.as_slice(), sections, table)?;
    match relocs_at(alloc, file, tables, slots.as_slice()) {
        Ok(relocs) => Ok(relocs),
        Err(_) => Err(RelocRefusal::Memory),
    }
}
