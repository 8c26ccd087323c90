// The parts of a file that describe it: its header, the header tables, the symbol table with its
// strings and the relocation entries.

ghost use Rattle.std.specs.Prelude.{◌≡◌, ◌<◌, ◌^◌, ◌++◌, [], ◌∷◌, filter, find, map, IfOk, OnOk};
ghost use Rattle.elf_spec.specs.Relocations.{is_kept_rela};
ghost use Rattle.elf_spec.specs.Tables.{is_symtab, strings_of, symtab_index};
ghost use Rattle.elf_read.specs.Elf.{IsReadFrom};
ghost use Rattle.exec_image.specs.Checks.{descriptions, sections_in};
ghost use Rattle.exec_image.specs.Parts.{StandsFor, parts_of};

use crate::parts::{Part, in_order};
use elf_read::{Elf, symbol_table};
use elf_spec::Section;
use reloc_table::is_kept;
use std::alloc::{AllocError, Global};

const SHT_SYMTAB: u32 = 2;

/// The size of the file header, of a program header and of a section header.
const HEADER_SIZE: u64 = 52;

const PROGRAM_HEADER_SIZE: u64 = 32;

const SECTION_HEADER_SIZE: u64 = 40;

/// Adds the part with this offset and size, where it is not empty.
#[tactic(auto, unfolding(crate::specs::Parts::parts_of))]
fn push_part(list: &mut Vec<Part>, offset: u32, size: u64) -> Result<(), AllocError>
    requires { size < 2 ^ 63 }
    ensures { OnOk result (list.new.items ≡ list.old.items ++ parts_of ((offset, size) ∷ [])) }
{
    if size > 0 {
        list.push(Part {
            start: offset as u64,
            end: offset as u64 + size,
        })?;
    }
    Ok(())
}

/// Adds the part of a section, where there is one.
#[tactic(auto, unfolding(crate::specs::Parts::parts_of))]
fn push_section(list: &mut Vec<Part>, section: Option<Section>) -> Result<(), AllocError>
    ensures { OnOk result (list.new.items ≡ list.old.items ++ parts_of
        (map (λ s. (s.offset, s.size)) (sections_in section))) }
{
    match section {
        Some(s) => push_part(list, s.offset, s.size as u64),
        None => Ok(()),
    }
}

/// The symbol table.
fn symbols(sections: &[Section]) -> Option<Section>
    ensures { result ≡ find is_symtab sections.now }
{
    sections.iter().copied().find(|s| s.kind == SHT_SYMTAB)
}

/// The strings of a symbol table.
fn strings(sections: &[Section], table: Option<Section>) -> Option<Section>
    ensures { result ≡ strings_of sections.now table }
{
    let link = table?.link as usize;
    if link < sections.len() {
        Some(sections[link])
    } else {
        None
    }
}

/// Adds the parts of the sections with kept entries.
#[tactic(auto, unfolding(crate::specs::Parts::parts_of))]
fn push_kept(
    list: &mut Vec<Part>,
    sections: &[Section],
    table: Option<usize>,
) -> Result<(), AllocError>
    requires table { table ≡ symtab_index sections.now }
    ensures { OnOk result (list.new.items ≡ list.old.items ++ parts_of
        (map (λ s. (s.offset, s.size)) (filter (is_kept_rela sections.now) sections.now))) }
{
    for s in sections {
        if is_kept(sections, table, s) {
            push_part(list, s.offset, s.size as u64)?;
        }
    }
    Ok(())
}

/// The parts of the file that describe it.
fn description_list(alloc: Global, elf: &Elf, file: &[u8]) -> Result<Vec<Part>, AllocError>
    requires { IsReadFrom elf.now file.now }
    ensures { IfOk result (λ list. list.items ≡ parts_of (descriptions file.now)) }
{
    let segments = elf.segments.as_slice();
    let sections = elf.sections.as_slice();
    let mut list = Vec::new(alloc);
    push_part(&mut list, 0, HEADER_SIZE)?;
    push_part(
        &mut list,
        elf.phoff,
        PROGRAM_HEADER_SIZE * segments.len() as u64,
    )?;
    push_part(
        &mut list,
        elf.shoff,
        SECTION_HEADER_SIZE * sections.len() as u64,
    )?;
    let table = symbols(sections);
    push_section(&mut list, table)?;
    push_section(&mut list, strings(sections, table))?;
    push_kept(&mut list, sections, symbol_table(sections))?;
    Ok(list)
}

/// The parts of the file that describe it, in order.
pub fn read_descriptions(alloc: Global, elf: &Elf, file: &[u8]) -> Result<Vec<Part>, AllocError>
    requires { IsReadFrom elf.now file.now }
    ensures { IfOk result (λ parts. StandsFor (parts_of (descriptions file.now)) parts.items) }
{
    let list = description_list(alloc, elf, file)?;
    in_order(alloc, list)
}
