// An accepted executable.

ghost use Rattle.std.specs.Prelude.{◌≡◌, ℕ, Bool, ◌+◌, ◌%◌, ◌<◌, ◌≤◌, ◌↔◌, ◌&&◌, true, false, None, Some, length};
ghost use Rattle.std.specs.Prelude.{slice_get, All, IfNone, IfOk, IfSome, IsSome};
ghost use Rattle.std.specs.List.{list_any};
ghost use Rattle.elf_spec.specs.declared.Reloc.{Reloc};
ghost use Rattle.elf_spec.specs.Code.{code_place, code_word, holds_word, is_executable};
ghost use Rattle.elf_spec.specs.Heap.{heap_entry, is_heap_symbol};
ghost use Rattle.elf_spec.specs.Memory.{image_end};
ghost use Rattle.elf_spec.specs.Records.{sections_of, segments_of};
ghost use Rattle.elf_spec.specs.Relocations.{relocs_of};
ghost use Rattle.elf_spec.specs.Tables.{symbols_of};
ghost use Rattle.elf_read.specs.Elf.{IsReadFrom};
ghost use Rattle.site_spec.specs.declared.Site.{Site as Call};
ghost use Rattle.site_spec.specs.Places.{text_at};
ghost use Rattle.site_spec.specs.Sites.{call_at, code_at, is_call_of_code, is_heap_word, site_at};
ghost use Rattle.exec_image.specs.Accepted.{AcceptedFacts};
ghost use Rattle.exec_image.specs.Found.{AreFound};
ghost use Rattle.exec_image.specs.Images.{AreSites, IsAccepted, execs_of, file_part, is_loaded_one};

use crate::calls::read_calls;
use crate::code::{code_place, code_word, next_code_word};
use crate::execs::{Execs, read_execs};
use crate::file_bytes::bytes_at;
use crate::heap::{HeapEntry, entry_in};
use crate::laws::accepted_files_keep_their_facts;
use crate::parts::Part;
use crate::segments::text_place;
use crate::sites::{SiteSources, Sites, find_site, is_heap_word, read_sites};
use elf_read::Elf;
use elf_spec::{HeapName, Reloc};
use site_spec::Site;
use std::alloc::{AllocError, Global};
use std::marker::Model;

/// An accepted executable with what was read of it; contracts see it as the file's bytes, which say
/// all else.
#[derive(Drop)]
pub struct Image {
    file: Vec<u8>,
    elf: Elf,
    execs: Execs,
    code: Vec<Part>,
    heap: Vec<HeapEntry>,
    sites: Sites,
}

impl Model for Image {
    ghost use Rattle.std.specs.Prelude.{List, ℕ};

    ghost Value = { List ℕ };

    ghost use Rattle.exec_image.specs.IsImage.{IsImage};

    ghost view = { λ a. a.file.items };

    ghost invariant = { λ a. IsImage a };
}

/// What is read of a file before it is accepted: its headers and symbols, the parts of its memory with code, in
/// order, and its heap functions.
#[derive(Drop)]
pub struct FoundParts {
    pub elf: Elf,
    pub code: Vec<Part>,
    pub heap: Vec<HeapEntry>,
}

/// The sites of an accepted file; `relocs` are its entries in any order.
#[tactic(auto, using(crate::proofs::Passed::accepted_end, crate::proofs::CallKinds::calls_same))]
fn sites_of(
    alloc: Global,
    file: &[u8],
    found: &FoundParts,
    relocs: &[Reloc],
) -> Result<Sites, AllocError>
    requires accepted { IsAccepted file.now }
    requires found { AreFound file.now found.now }
    requires relocs { (p : Reloc → Bool) → list_any p relocs.now ≡ list_any p (relocs_of file.now) }
    ensures { IfOk result (AreSites file.now) }
{
    let calls = read_calls(alloc, relocs)?;
    let segments = found.elf.segments.as_slice();
    let text = text_place(file, segments);
    let sources = SiteSources {
        file,
        segments,
        code: found.code.as_slice(),
        calls: &calls,
        heap: found.heap.as_slice(),
        text,
    };
    read_sites(alloc, &sources)
}

/// The image of an accepted file, from what was read of it; `relocs` are its entries in any order.
#[tactic(auto, using(crate::proofs::Headers::few_sections), unfolding(crate::specs::Images::execs_of))]
pub fn image_of(
    alloc: Global,
    file: &[u8],
    found: FoundParts,
    relocs: &[Reloc],
) -> Result<Image, AllocError>
    requires accepted { IsAccepted file.now }
    requires found { AreFound file.now found }
    requires relocs { (p : Reloc → Bool) → list_any p relocs.now ≡ list_any p (relocs_of file.now) }
    ensures { IfOk result (λ image. image ≡ file.now) }
{
    let sites = sites_of(alloc, file, &found, relocs)?;
    let execs = read_execs(alloc, found.elf.sections.as_slice())?;
    let mut bytes = Vec::with_capacity(alloc, file.len())?;
    bytes.extend_from_slice(file)?;
    Ok(Image {
        file: bytes,
        elf: found.elf,
        execs,
        code: found.code,
        heap: found.heap,
        sites,
    })
}

impl Image {
    /// The sites of its calls, by address.
    pub fn sites(&self) -> &Sites
        ensures { AreSites self.now result.now }
    {
        &self.sites
    }

    /// The site at an address; `None` where there is none.
    pub fn site(&self, addr: u32) -> Option<Site>
        ensures exact { result ≡ site_at self.now addr }
        ensures none { (result ≡ None) ↔ ((s : Call)
            → call_at self.now addr (code_at self.now addr) (code_at self.now (addr + 4)) ≡ Some s
            → is_call_of_code self.now s ≡ false) }
    {
        find_site(&self.file, self.sites.as_slice(), addr)
    }

    /// The address of a heap function; `None` where the executable lacks it.
    pub fn heap_entry(&self, name: HeapName) -> Option<u32>
        ensures exact { result ≡ heap_entry self.now name }
        ensures none { (result ≡ None)
            ↔ All (λ s. is_heap_symbol self.now name s ≡ false) (symbols_of self.now) }
    {
        entry_in(&self.file, &self.heap, name)
    }

    /// Whether an address is that of one of the two words of a heap function.
    pub fn is_heap_word(&self, addr: u32) -> bool
        ensures { result ≡ is_heap_word self.now addr }
    {
        is_heap_word(&self.file, &self.heap, addr)
    }

    /// Where a new text would stand: the first multiple of 4096 that is past all segments and at least
    /// 65536.
    #[tactic(auto, using(crate::proofs::Passed::accepted_end))]
    pub fn text_at(&self) -> u32
        ensures exact { result ≡ text_at self.now }
        ensures room { result ≤ 0x70001000 }
    {
        text_place(&self.file, self.elf.segments.as_slice())
    }

    /// The file's bytes.
    pub fn file(&self) -> &[u8]
        ensures { result.now ≡ self.now }
    {
        self.file.as_slice()
    }

    /// The headers and symbols.
    pub fn elf(&self) -> &Elf
        ensures read { IsReadFrom result.now self.now }
        ensures accepted { IsAccepted self.now }
        ensures facts { AcceptedFacts self.now }
    {
        accepted_files_keep_their_facts();
        &self.elf
    }

    /// The executable sections, in the file's order.
    pub fn execs(&self) -> &Execs
        ensures { result.now ≡ execs_of self.now }
    {
        &self.execs
    }

    /// The bytes that segment `i`, a PT_LOAD with memory, is loaded with.
    pub fn bytes(&self, i: u32) -> &[u8]
        requires { is_loaded_one (slice_get (segments_of self.now) i) ≡ true }
        ensures { result.now ≡ file_part self.now (slice_get (segments_of self.now) i) }
    {
        let g = &self.elf.segments.as_slice()[i as usize];
        bytes_at(&self.file, g.offset, g.file_size)
    }

    /// The code word at an address; `None` where the address is no code word.
    pub fn code_word(&self, addr: u32) -> Option<u32>
        ensures exact { result ≡ code_word self.now addr }
        ensures none { (result ≡ None) ↔ (addr % 4 ≡ 0
            → All (λ s. (is_executable s && holds_word addr s) ≡ false) (sections_of self.now)) }
    {
        code_word(&self.file, self.elf.segments.as_slice(), &self.code, addr)
    }

    /// Where in the file the code word at an address stands; `None` where the address is no code word.
    pub fn code_place(&self, addr: u32) -> Option<u32>
        ensures exact { result ≡ code_place self.now addr }
        ensures inside { IfSome result (λ at. at + 4 ≤ length self.now) }
    {
        let at = code_place(&self.file, self.elf.segments.as_slice(), &self.code, addr)?;
        Some(at as u32)
    }

    /// The address of the first code word from an address on; `None` where there is none. The time is
    /// logarithmic in the number of executable sections.
    pub fn next_code_word(&self, from: u32) -> Option<u32>
        ensures found { IfSome result (λ a. (from ≤ a) × (a + 4 ≤ image_end (segments_of self.now))
            × IsSome (code_word self.now a)) }
        ensures first { IfSome result (λ a. (b : ℕ) → from ≤ b → b < a → code_word self.now b ≡ None) }
        ensures none { IfNone result ((b : ℕ) → from ≤ b → code_word self.now b ≡ None) }
    {
        next_code_word(&self.file, self.elf.segments.as_slice(), &self.code, from)
    }
}
