// Accepts a file as an executable, or finds the first check that it fails.

ghost use Rattle.std.specs.Prelude.{◌≡◌, ◌≢◌, ◌<◌, ◌^◌, Err, length};
ghost use Rattle.first_check.specs.Answers.{Says};
ghost use Rattle.exec_image.specs.Found.{AreFound};
ghost use Rattle.exec_image.specs.Images.{GivesImage};
ghost use Rattle.exec_image.specs.Refusals.{rest_refusal};

use crate::code::read_code;
use crate::heap::{HeapFunctions, check_places, check_sizes, read_heap};
use crate::image::{FoundParts, Image, image_of};
use crate::layout::{check_entry, check_outside, check_words};
use crate::refusals::FileRefusal;
use crate::segments::{check_mark, check_room};
use crate::tp::check_tp;
use elf_read::{ElfRefusal, read_elf};
use reloc_table::{RelocRefusal, read_relocs};
use std::alloc::Global;

/// What the refusal of the headers comes to.
fn of_elf(why: ElfRefusal) -> FileRefusal
    ensures memory { why ≡ ElfRefusal.Memory → result ≡ FileRefusal.Memory }
    ensures other { why ≢ ElfRefusal.Memory → result ≡ FileRefusal.Elf why }
{
    match why {
        ElfRefusal::Memory => FileRefusal::Memory,
        _ => FileRefusal::Elf(why),
    }
}

/// What the refusal of the relocations comes to.
fn of_relocs(why: RelocRefusal) -> FileRefusal
    ensures memory { why ≡ RelocRefusal.Memory → result ≡ FileRefusal.Memory }
    ensures other { why ≢ RelocRefusal.Memory → result ≡ FileRefusal.Relocs why }
{
    match why {
        RelocRefusal::Memory => FileRefusal::Memory,
        _ => FileRefusal::Relocs(why),
    }
}

/// The checks of the entry, the heap functions, the segments and the code's registers.
#[tactic(auto, using(crate::proofs::Headers::count_segments))]
fn check_image(file: &[u8], found: &FoundParts) -> Result<(), FileRefusal>
    requires { AreFound file.now found.now }
    ensures { Says result (rest_refusal file.now) }
{
    let segments = found.elf.segments.as_slice();
    let code = found.code.as_slice();
    let heap = HeapFunctions {
        file,
        symbols: found.elf.symbols.as_slice(),
        entries: found.heap.as_slice(),
    };
    check_entry(file, segments, code, found.elf.entry)?;
    check_places(&heap)?;
    check_sizes(&heap, segments, code)?;
    check_mark(file, segments)?;
    check_room(file, segments)?;
    check_tp(file, segments, code)
}

/// Accepts a file of fewer than 2^32 bytes as an executable; or names the first check that it fails,
/// in the order of the variants of `FileRefusal`, with the lowest index or address; or answers
/// `Memory`. Time and memory are linear in the file, but for sorting, however its sections overlap.
#[tactic(auto, using(crate::proofs::Headers::few_sections))]
pub fn accept(alloc: Global, file: &[u8]) -> Result<Image, FileRefusal>
    requires { length file.now < 2 ^ 32 }
    ensures { GivesImage result file.now }
{
    let elf = match read_elf(alloc, file) {
        Ok(elf) => elf,
        Err(why) => return Err(of_elf(why)),
    };
    let relocs = match read_relocs(alloc, &elf, file) {
        Ok(relocs) => relocs,
        Err(why) => return Err(of_relocs(why)),
    };
    check_words(elf.sections.as_slice())?;
    check_outside(alloc, &elf, file)?;
    let Ok(code) = read_code(alloc, elf.sections.as_slice()) else {
        return Err(FileRefusal::Memory);
    };
    let Ok(heap) = read_heap(alloc, file, elf.symbols.as_slice()) else {
        return Err(FileRefusal::Memory);
    };
    let found = FoundParts { elf, code, heap };
    check_image(file, &found)?;
    match image_of(alloc, file, found, relocs.entries_once()) {
        Ok(image) => Ok(image),
        Err(_) => Err(FileRefusal::Memory),
    }
}
