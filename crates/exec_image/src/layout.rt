// The checks of the executable sections and of the entry (gABI, "Section Header", "Program Loading").

ghost use Rattle.std.specs.Prelude.{◌≡◌, ◌+◌, ◌*◌, ◌<◌, ◌≤◌, ◌^◌, ◌||◌, ◌&&◌, not, All, None, map, length, position};
ghost use Rattle.std.specs.Prelude.{IfOk, IfSome};
ghost use Rattle.std.specs.List.{list_any};
ghost use Rattle.elf_spec.specs.Code.{is_executable};
ghost use Rattle.elf_spec.specs.Records.{e_entry, sections_of, segments_of};
ghost use Rattle.elf_read.specs.Readable.{IsSectionInside};
ghost use Rattle.first_check.specs.Answers.{MaySay, Says};
ghost use Rattle.elf_read.specs.Elf.{IsReadFrom};
ghost use Rattle.exec_image.specs.Checks.{descriptions, is_not_words, is_place_of};
ghost use Rattle.exec_image.specs.CodeParts.{IsCode};
ghost use Rattle.exec_image.specs.Parts.{StandsFor, parts_of};
ghost use Rattle.exec_image.specs.Refusals.{entry_out, exec_not_words, exec_outside, is_outside};

use crate::code::is_code_word;
use crate::descriptions::read_descriptions;
use crate::parts::{Part, meets};
use crate::refusals::FileRefusal;
use bitflags::Flags;
use elf_read::{Elf, SegmentFlags, is_loaded};
use elf_spec::{Section, Segment};
use reloc_table::is_executable;
use std::alloc::Global;

fn is_not_words(s: &Section) -> bool
    ensures { result ≡ is_not_words s.now }
{
    s.addr % 4 != 0 || s.size % 4 != 0
}

fn first_not_words(sections: &[Section]) -> Option<usize>
    ensures first { result ≡ position (λ s. is_executable s && is_not_words s) sections.now }
    ensures inside { IfSome result (λ i. i < length sections.now) }
{
    sections
        .iter()
        .position(|s| is_executable(s) && is_not_words(s))
}

/// Checks that the executable sections have whole words.
#[tactic(auto, unfolding(crate::specs::Refusals::exec_not_words))]
pub fn check_words(sections: &[Section]) -> Result<(), FileRefusal>
    requires { length sections.now < 2 ^ 32 }
    ensures { Says result (exec_not_words sections.now) }
{
    match first_not_words(sections) {
        Some(i) => Err(FileRefusal::ExecNotWords(i as u32)),
        None => Ok(()),
    }
}

/// Whether a segment of code has all of a section in its file part, where the section's address says.
fn is_place_of(s: &Section, g: &Segment) -> bool
    ensures { result ≡ is_place_of s.now g.now }
{
    is_loaded(g)
        && SegmentFlags::from_bits_retain(g.flags).contains(SegmentFlags::EXECUTE)
        && g.vaddr <= s.addr
        && s.addr as u64 + s.size as u64 <= g.vaddr as u64 + g.file_size as u64
        && s.offset as u64 + g.vaddr as u64 == g.offset as u64 + s.addr as u64
}

fn is_placed(segments: &[Segment], s: &Section) -> bool
    ensures { result ≡ list_any (is_place_of s.now) segments.now }
{
    segments.iter().any(|g| is_place_of(s, g))
}

/// Whether an executable section is outside of its segment, or has bytes that describe the file.
#[tactic(auto, using(crate::proofs::Shares::described, crate::proofs::Shares::not_empty))]
fn is_outside(file: &[u8], segments: &[Segment], described: &[Part], s: &Section) -> bool
    requires segments { segments.now ≡ segments_of file.now }
    requires described { StandsFor (parts_of (descriptions file.now)) described.now }
    ensures { result ≡ is_outside file.now s.now }
{
    is_executable(s)
        && (!is_placed(segments, s)
            || meets(described, s.offset as u64, s.offset as u64 + s.size as u64))
}

fn first_outside(
    file: &[u8],
    sections: &[Section],
    segments: &[Segment],
    described: &[Part],
) -> Option<usize>
    requires segments { segments.now ≡ segments_of file.now }
    requires described { StandsFor (parts_of (descriptions file.now)) described.now }
    ensures first { result ≡ position (is_outside file.now) sections.now }
    ensures inside { IfSome result (λ i. i < length sections.now) }
{
    sections
        .iter()
        .position(|s| is_outside(file, segments, described, s))
}

/// Checks that the executable sections are in segments of code, and that none describes the file.
#[tactic(auto, using(crate::proofs::Headers::few_sections), unfolding(crate::specs::Refusals::exec_outside))]
pub fn check_outside(alloc: Global, elf: &Elf, file: &[u8]) -> Result<(), FileRefusal>
    requires { IsReadFrom elf.now file.now }
    ensures { MaySay FileRefusal.Memory result (exec_outside file.now) }
{
    let Ok(described) = read_descriptions(alloc, elf, file) else {
        return Err(FileRefusal::Memory);
    };
    let sections = elf.sections.as_slice();
    match first_outside(
        file,
        sections,
        elf.segments.as_slice(),
        described.as_slice(),
    ) {
        Some(i) => Err(FileRefusal::ExecOutside(i as u32)),
        None => Ok(()),
    }
}

/// Checks that the program begins at a code word.
#[tactic(auto, unfolding(crate::specs::Refusals::entry_out))]
pub fn check_entry(
    file: &[u8],
    segments: &[Segment],
    code: &[Part],
    entry: u32,
) -> Result<(), FileRefusal>
    requires code { IsCode file.now segments.now code.now }
    requires entry { entry ≡ e_entry file.now }
    ensures { Says result (entry_out file.now) }
{
    if !is_code_word(file, segments, code, entry) {
        return Err(FileRefusal::EntryOut(entry));
    }
    Ok(())
}
