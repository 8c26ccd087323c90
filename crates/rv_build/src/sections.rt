// The section headers (gABI, "Section Header").
ghost use Rattle.std.specs.Prelude.{◌≡◌, ◌++◌, OnOk, flat_map};
ghost use Rattle.rv_build.specs.RecordBytes.{section_bytes};

use crate::fields::push_word;
use elf_spec::Section;
use std::alloc::AllocError;

/// Section kinds.
pub const PROGBITS: u32 = 1;

pub const SYMTAB: u32 = 2;

pub const STRTAB: u32 = 3;

pub const RELA: u32 = 4;

/// The flags of a section that is loaded and executed: ALLOC and EXECINSTR.
pub const CODE_FLAGS: u32 = 6;

/// The header of no section, the first of each table.
pub const NULL_SECTION: Section = Section {
    name: 0,
    kind: 0,
    flags: 0,
    addr: 0,
    offset: 0,
    size: 0,
    link: 0,
    info: 0,
    align: 0,
    entry_size: 0,
};

#[tactic(auto, using(crate::proofs::Assoc::assoc), unfolding(crate::specs::RecordBytes::section_bytes))]
fn push_section(out: &mut Vec<u8>, section: Section) -> Result<(), AllocError>
    ensures { OnOk result (out.new.items ≡ out.old.items ++ section_bytes section) }
{
    push_word(out, section.name)?;
    push_word(out, section.kind)?;
    push_word(out, section.flags)?;
    push_word(out, section.addr)?;
    push_word(out, section.offset)?;
    push_word(out, section.size)?;
    push_word(out, section.link)?;
    push_word(out, section.info)?;
    push_word(out, section.align)?;
    push_word(out, section.entry_size)
}

/// Adds section headers.
#[tactic(auto, using(crate::proofs::Assoc::assoc))]
pub fn push_sections(out: &mut Vec<u8>, sections: &[Section]) -> Result<(), AllocError>
    ensures { OnOk result (out.new.items ≡ out.old.items ++ flat_map section_bytes sections.now) }
{
    for section in sections {
        push_section(out, *section)?;
    }
    Ok(())
}
