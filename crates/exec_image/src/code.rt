// The code words of an executable: where they stand in the file, by the parts of memory that have code.

ghost use Rattle.std.specs.Prelude.{◌≡◌, ℕ, ◌+◌, ◌<◌, ◌≤◌, ◌^◌, is_some, length, None, IfNone, IfOk, IfSome, IsSome};
ghost use Rattle.elf_spec.specs.Code.{code_place, code_word};
ghost use Rattle.elf_spec.specs.Memory.{image_end};
ghost use Rattle.elf_spec.specs.Records.{segments_of};
ghost use Rattle.exec_image.specs.CodeParts.{IsCode, code_parts, holds_in_file, place_in};
ghost use Rattle.exec_image.specs.Parts.{StandsFor};

use crate::parts::{Part, first_above, in_order, meets};
use elf_read::{is_loaded, word};
use elf_spec::{Section, Segment};
use reloc_table::is_executable;
use std::alloc::{AllocError, Global};

/// The memory of the executable sections.
fn code_list(alloc: Global, sections: &[Section]) -> Result<Vec<Part>, AllocError>
    ensures { IfOk result (λ list. list.items ≡ code_parts sections.now) }
{
    let mut list = Vec::new(alloc);
    for s in sections {
        if is_executable(s) {
            list.push(Part {
                start: s.addr as u64,
                end: s.addr as u64 + s.size as u64,
            })?;
        }
    }
    Ok(list)
}

/// The parts of memory with code, in order.
pub fn read_code(alloc: Global, sections: &[Section]) -> Result<Vec<Part>, AllocError>
    ensures { IfOk result (λ code. StandsFor (code_parts sections.now) code.items) }
{
    let list = code_list(alloc, sections)?;
    in_order(alloc, list)
}

fn holds_in_file(g: &Segment, addr: u32) -> bool
    ensures { result ≡ holds_in_file addr g.now }
{
    is_loaded(g) && g.vaddr <= addr && (addr as u64) < g.vaddr as u64 + g.file_size as u64
}

/// The file offset of the byte that is loaded at an address.
fn place_in(segments: &[Segment], addr: u32) -> Option<usize>
    ensures { result ≡ place_in segments.now addr }
{
    let g = segments.iter().find(|g| holds_in_file(g, addr))?;
    Some(g.offset as usize + (addr - g.vaddr) as usize)
}

/// Whether an address is that of a code word.
#[tactic(auto, using(crate::proofs::CodePlaces::code_test))]
pub fn is_code_word(file: &[u8], segments: &[Segment], code: &[Part], addr: u32) -> bool
    requires { IsCode file.now segments.now code.now }
    ensures { result ≡ is_some (code_place file.now addr) }
{
    addr % 4 == 0 && meets(code, addr as u64, addr as u64 + 1)
}

/// The file offset of the code word at an address; `None` where the address is no code word.
#[tactic(auto, using(crate::proofs::CodePlaces::not_code))]
pub fn code_place(file: &[u8], segments: &[Segment], code: &[Part], addr: u32) -> Option<usize>
    requires { IsCode file.now segments.now code.now }
    ensures exact { result ≡ code_place file.now addr }
    ensures inside { IfSome result (λ at. at + 4 ≤ length file.now) }
    ensures low { IfSome result (λ at. addr + 4 ≤ 0x7ff00000) }
{
    if is_code_word(file, segments, code, addr) {
        place_in(segments, addr)
    } else {
        None
    }
}

/// The code word at an address; `None` where the address is no code word.
pub fn code_word(file: &[u8], segments: &[Segment], code: &[Part], addr: u32) -> Option<u32>
    requires { IsCode file.now segments.now code.now }
    ensures exact { result ≡ code_word file.now addr }
    ensures low { IfSome result (λ word. addr + 4 ≤ 0x7ff00000) }
{
    let at = code_place(file, segments, code, addr)?;
    Some(word(file, at))
}

/// The address of the first code word from an address on; `None` where there is none.
pub fn next_code_word(file: &[u8], segments: &[Segment], code: &[Part], from: u32) -> Option<u32>
    requires { IsCode file.now segments.now code.now }
    ensures found { IfSome result (λ a. (from ≤ a) × (a + 4 ≤ image_end (segments_of file.now))
        × IsSome (code_word file.now a)) }
    ensures low { IfSome result (λ a. a + 4 ≤ 0x7ff00000) }
    ensures first { IfSome result (λ a. (b : ℕ) → from ≤ b → b < a → code_word file.now b ≡ None) }
    ensures none { IfNone result ((b : ℕ) → from ≤ b → code_word file.now b ≡ None) }
{
    let at = (from as u64).div_ceil(4) * 4;
    let first = first_above(code, at);
    if first < code.len() {
        Some(at.max(code[first].start) as u32)
    } else {
        None
    }
}
