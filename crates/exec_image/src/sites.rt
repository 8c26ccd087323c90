// The sites of an executable's calls (psABI, "Relocations"; RISC-V unprivileged manual, "Unconditional
// Jumps").

ghost use Rattle.std.specs.Prelude.{◌≡◌, ℕ, ◌+◌, ◌<◌, ◌≤◌, ◌^◌, ◌==◌, ◌&&◌, None, Some, IfOk, IfSome, true};
ghost use Rattle.std.specs.List.{list_any};
ghost use Rattle.std.specs.List.Sorted.{IsNonDecreasing};
ghost use Rattle.site_spec.specs.declared.Site.{Site};
ghost use Rattle.rv_isa.specs.declared.Instr.TheVariants.{Auipc, Jal, Jalr};
ghost use Rattle.exec_image.specs.Calls.{AreCalls, is_word_of};
ghost use Rattle.elf_spec.specs.Relocations.{relocs_of};
ghost use Rattle.rv_isa.specs.Addresses.{plus};
ghost use Rattle.site_spec.specs.Places.{reaches, stub_at, text_at};
ghost use Rattle.site_spec.specs.Sites.{call_at, code_at, is_call_of_code, is_heap_word, reaches_all_stubs, site_at};
ghost use Rattle.exec_image.specs.CodeParts.{IsCode, IsHeap};
ghost use Rattle.exec_image.specs.Sources.{AreSources};
ghost use Rattle.exec_image.specs.Images.{AreSites};

use crate::calls::{Calls, is_among};
use crate::code::{code_word, is_code_word};
use crate::heap::HeapEntry;
use crate::parts::Part;
use elf_spec::Segment;
use rv_isa::{Instr, decode};
use site_spec::Site;
use std::alloc::{AllocError, Global};
use vec_list::VecList;

/// Sites by address.
pub type Sites = VecList<Site>;

/// What the sites of an executable are found by: its bytes, its segments, the parts of its memory with code,
/// the places of its entries for calls, its heap functions, and where a new text would stand.
#[derive(Clone, Copy)]
pub struct SiteSources<'a> {
    pub file: &'a [u8],
    pub segments: &'a [Segment],
    pub code: &'a [Part],
    pub calls: &'a Calls,
    pub heap: &'a [HeapEntry],
    pub text: u32,
}

/// The register that a call leaves its return address in.
const RA: u8 = 1;

/// The instruction at an address of the code.
fn code_at(file: &[u8], segments: &[Segment], code: &[Part], addr: u32) -> Option<Instr>
    requires { IsCode file.now segments.now code.now }
    ensures exact { result ≡ code_at file.now addr }
    ensures low { IfSome result (λ i. addr + 4 ≤ 0x7ff00000) }
{
    decode(code_word(file, segments, code, addr)?)
}

/// Whether a JAL reaches a target.
pub fn reaches(from: u32, target: u32) -> bool
    ensures { result ≡ reaches from target }
{
    from as u64 <= target as u64 + 1048576 && target as u64 <= from as u64 + 1048574
}

/// The address of stub `k` in a new text.
pub fn stub_place(text: u32, k: u32) -> u32
    requires text { text ≤ 0x70001000 }
    requires few { k < 2 ^ 20 }
    ensures { result ≡ stub_at text k }
{
    text + 16 + 44 * k
}

fn reaches_both(from: u32, first: u32, last: u32) -> bool
    ensures { result ≡ (reaches from first && reaches from last) }
{
    reaches(from, first) && reaches(from, last)
}

/// Whether a JAL reaches the stubs of all 32 bits in a file's new text: the first and the last.
fn reaches_all_stubs(file: &[u8], text: u32, addr: u32) -> bool
    requires room { text ≤ 0x70001000 }
    requires text { text ≡ text_at file.now }
    ensures { result ≡ reaches_all_stubs file.now addr }
{
    reaches_both(addr, stub_place(text, 0), stub_place(text, 31))
}

/// The site of a JAL with rd = ra at an address, where an entry for it applies there.
#[tactic(auto, unfolding(site_spec::specs::Sites::call_at))]
fn jal_site(from: &SiteSources, addr: u32, imm: u32) -> Option<Site>
    requires sources { AreSources from.now }
    requires low { addr + 4 ≤ 0x7ff00000 }
    ensures exact { result ≡ call_at from.now.file.now addr (Some (Jal 1 imm)) None }
    ensures addr { IfSome result (λ s. s.addr ≡ addr) }
{
    if is_among(from.calls.jals.as_slice(), addr) {
        Some(Site {
            addr,
            target: addr.wrapping_add(imm),
            back: addr + 4,
            pair: false,
            near: reaches_all_stubs(from.file, from.text, addr),
        })
    } else {
        None
    }
}

/// The site of an AUIPC with this distance at an address and a JALR behind it, where an entry for both
/// applies there.
#[tactic(auto, using(crate::proofs::Stubs::pair_target), unfolding(site_spec::specs::Sites::call_at))]
fn pair_site(file: &[u8], calls: &Calls, addr: u32, distance: u32) -> Option<Site>
    requires calls { AreCalls (relocs_of file.now) calls.now }
    requires low { addr + 8 ≤ 0x7ff00000 }
    ensures exact { (imm low : ℕ) → distance ≡ plus imm low → result
        ≡ call_at file.now addr (Some (Auipc 1 imm)) (Some (Jalr 1 1 low)) }
    ensures addr { IfSome result (λ s. s.addr ≡ addr) }
{
    if is_among(calls.pairs.as_slice(), addr) {
        Some(Site {
            addr,
            target: addr.wrapping_add(distance) / 2 * 2,
            back: addr + 8,
            pair: true,
            near: true,
        })
    } else {
        None
    }
}

/// The call at an address, where there is one with its entry.
#[tactic(auto, unfolding(site_spec::specs::Sites::call_at))]
fn call_at(from: &SiteSources, addr: u32) -> Option<Site>
    requires { AreSources from.now }
    ensures exact { result ≡ call_at from.now.file.now addr (code_at from.now.file.now addr)
        (code_at from.now.file.now (addr + 4)) }
    ensures low { IfSome result (λ s. s.addr + 4 ≤ 0x7ff00000) }
{
    match code_at(from.file, from.segments, from.code, addr)? {
        Instr::Jal { rd, imm } => if rd == RA {
            jal_site(from, addr, imm)
        } else {
            None
        },
        Instr::Auipc { rd, imm } => match code_at(from.file, from.segments, from.code, addr + 4)? {
            Instr::Jalr {
                rd: link,
                rs1,
                imm: low,
            } => if rd == RA && link == RA && rs1 == RA {
                pair_site(from.file, from.calls, addr, imm.wrapping_add(low))
            } else {
                None
            },
            _ => None,
        },
        _ => None,
    }
}

/// Whether an address is that of a word of this heap function.
fn is_word_of(entry: Option<u32>, addr: u32) -> bool
    ensures { result ≡ is_word_of addr entry }
{
    match entry {
        Some(e) => e == addr || e as u64 + 4 == addr as u64,
        None => false,
    }
}

fn is_word_of_one(heap: &[HeapEntry], addr: u32) -> bool
    ensures { result ≡ list_any (λ e. is_word_of addr e.addr) heap.now }
{
    heap.iter().any(|entry| is_word_of(entry.addr, addr))
}

/// Whether an address is that of a word of a heap function.
pub fn is_heap_word(file: &[u8], heap: &[HeapEntry], addr: u32) -> bool
    requires { IsHeap file.now heap.now }
    ensures { result ≡ is_heap_word file.now addr }
{
    is_word_of_one(heap, addr)
}

/// Whether a call goes to a code word, and from words that are no heap function's.
fn is_call_of_code(from: &SiteSources, s: &Site) -> bool
    requires sources { AreSources from.now }
    requires low { s.now.addr + 4 ≤ 0x7ff00000 }
    ensures { result ≡ is_call_of_code from.now.file.now s.now }
{
    is_code_word(from.file, from.segments, from.code, s.target)
        && !is_heap_word(from.file, from.heap, s.addr)
        && (!s.pair || !is_heap_word(from.file, from.heap, s.addr + 4))
}

/// The site at an address.
#[tactic(auto, unfolding(site_spec::specs::Sites::site_at))]
fn site_at(from: &SiteSources, addr: u32) -> Option<Site>
    requires { AreSources from.now }
    ensures { result ≡ site_at from.now.file.now addr }
{
    let s = call_at(from, addr)?;
    if is_call_of_code(from, &s) {
        Some(s)
    } else {
        None
    }
}

/// The sites at these addresses, which have all sites of the file and ascend.
#[tactic(auto, using(crate::proofs::SiteSteps::start, crate::proofs::SiteSteps::skip, crate::proofs::SiteSteps::none, crate::proofs::SiteSteps::some, crate::proofs::SiteSteps::finish))]
fn sites_at(alloc: Global, from: &SiteSources, places: &[u32]) -> Result<Sites, AllocError>
    requires sources { AreSources from.now }
    requires rise { IsNonDecreasing places.now }
    requires all { (a : ℕ) (s : Site) → site_at from.now.file.now a ≡ Some s → list_any (λ p. p == a) places.now ≡ true }
    ensures { IfOk result (AreSites from.now.file.now) }
{
    let mut list = Sites::new(alloc);
    let mut next: u64 = 0;
    for p in places {
        if *p as u64 >= next {
            if let Some(s) = site_at(from, *p) {
                list.push(s)?;
            }
            next = *p as u64 + 1;
        }
    }
    Ok(list)
}

/// All sites, by address.
pub fn read_sites(alloc: Global, from: &SiteSources) -> Result<Sites, AllocError>
    requires { AreSources from.now }
    ensures { IfOk result (AreSites from.now.file.now) }
{
    sites_at(alloc, from, from.calls.all.as_slice())
}

/// The site at an address, among all sites by address.
pub fn find_site(file: &[u8], sites: &[Site], addr: u32) -> Option<Site>
    requires { AreSites file.now sites.now }
    ensures { result ≡ site_at file.now addr }
{
    let i = sites.partition_point(|s| s.addr < addr);
    if i < sites.len() && sites[i].addr == addr {
        Some(sites[i])
    } else {
        None
    }
}
