// What stands at the addresses of a program: words are decoded once and kept by their addresses.
ghost use Rattle.std.specs.Prelude.{◌≡◌, ◌+◌, ◌<◌, ◌==◌, All, find, false, true, Some, None, if◌then◌else◌};
ghost use Rattle.std.specs.List.{list_any};
ghost use Rattle.rv_isa.specs.Table.{decoded};
ghost use Rattle.elf_spec.specs.Code.{code_word};
ghost use Rattle.elf_spec.specs.Heap.{heap_entries, heap_entry};
ghost use Rattle.sym_spec.specs.HeapActions.{function_at, is_entry};
ghost use Rattle.sym_spec.specs.SymTurns.{is_pair, is_second};
ghost use Rattle.sym_machine.specs.Found.{found_at, mask_of, IsKept, NamesThere};
ghost use Rattle.sym_machine.specs.Heap.{is_behind};

use exec_image::{HEAP_NAMES, HeapName, Image};
use plan_core::{Plan, PlanLine};
use rv_isa::{Instr, decode};
use site_spec::Site;

/// What stands at an address.
#[derive(Clone, Copy, Debug)]
pub enum Found {
    /// Nothing that can be fetched.
    Nothing,
    /// The entry of a heap function.
    Heap(HeapName),
    /// The call of a pair site, with the mask of its bit where the plan has it.
    Pair {
        target: u32,
        back: u32,
        mask: Option<u32>,
    },
    /// A code word: its instruction, whether it is a site, and the mask of its bit where the plan has it.
    Word {
        instr: Option<Instr>,
        is_site: bool,
        mask: Option<u32>,
    },
}

/// What was found at an address, and whether a code word stands there.
#[derive(Clone, Copy, Debug)]
pub struct Kept {
    pub addr: u32,
    pub is_code: bool,
    pub found: Found,
}

/// Looks an address up in the program.
#[inline(never)]
pub fn look_up(image: &Image, plan: &Plan, addr: u32) -> Kept
    requires { All (λ line. line.bit < 32) plan.now.sites }
    ensures kept { IsKept image.now plan.now result }
    ensures addr { result.addr ≡ addr }
{
    let word = image.code_word(addr);
    let found = find(image, plan, addr, word);
    Kept {
        addr,
        is_code: word.is_some(),
        found,
    }
}

/// What stands at the address of this code word, or of none.
#[tactic(auto, using(crate::proofs::Finding::found_second, crate::proofs::Finding::found_none, crate::proofs::Finding::found_heap))]
fn find(image: &Image, plan: &Plan, addr: u32, word: Option<u32>) -> Found
    requires bits { All (λ line. line.bit < 32) plan.now.sites }
    requires word { word ≡ code_word image.now addr }
    ensures found { result ≡ found_at image.now plan.now addr }
    ensures names { NamesThere result }
{
    if is_second(image, addr) {
        return Found::Nothing;
    }
    let Some(word) = word else {
        return Found::Nothing;
    };
    match function_at(image, addr) {
        Some(name) => Found::Heap(name),
        None => find_word(image, plan, addr, word),
    }
}

/// What stands at the address of a word that is no entry of a heap function.
fn find_word(image: &Image, plan: &Plan, addr: u32, word: u32) -> Found
    requires bits { All (λ line. line.bit < 32) plan.now.sites }
    requires second { is_second image.now addr ≡ false }
    requires word { code_word image.now addr ≡ Some word }
    requires name { function_at image.now addr ≡ None }
    ensures found { result ≡ found_at image.now plan.now addr }
    ensures names { NamesThere result }
{
    let mask = mask_at(plan.sites.as_slice(), addr);
    match image.site(addr) {
        Some(site) => call_found(site, word, mask),
        None => Found::Word {
            instr: decode(word),
            is_site: false,
            mask,
        },
    }
}

/// What stands at the address of a site.
fn call_found(site: Site, word: u32, mask: Option<u32>) -> Found
    ensures found { result ≡ (if site.pair then Found.Pair site.target site.back mask
        else Found.Word (decoded word) true mask) }
    ensures names { NamesThere result }
{
    if site.pair {
        Found::Pair {
            target: site.target,
            back: site.back,
            mask,
        }
    } else {
        Found::Word {
            instr: decode(word),
            is_site: true,
            mask,
        }
    }
}

/// The mask of the bit of the line at an address.
fn mask_at(lines: &[PlanLine], addr: u32) -> Option<u32>
    requires { All (λ line. line.bit < 32) lines.now }
    ensures { result ≡ mask_of (find (λ line. line.addr == addr) lines.now) }
{
    for line in lines {
        if line.addr == addr {
            return Some(1 << line.bit);
        }
    }
    None
}

/// The heap function whose entry is at an address.
fn function_at(image: &Image, addr: u32) -> Option<HeapName>
    ensures { result ≡ function_at image.now addr }
{
    function_in(image, &HEAP_NAMES, addr)
}

/// The first of some heap functions whose entry is at an address.
fn function_in(image: &Image, names: &[HeapName], addr: u32) -> Option<HeapName>
    ensures { result ≡ find (λ name. is_entry addr (heap_entry image.now name)) names.now }
{
    for name in names {
        if is_entry(image, *name, addr) {
            return Some(*name);
        }
    }
    None
}

fn is_entry(image: &Image, name: HeapName, addr: u32) -> bool
    ensures { result ≡ is_entry addr (heap_entry image.now name) }
{
    match image.heap_entry(name) {
        Some(entry) => entry == addr,
        None => false,
    }
}

/// Whether an address is that of the second word of a pair site or of a heap function.
fn is_second(image: &Image, addr: u32) -> bool
    ensures { result ≡ is_second image.now addr }
{
    addr >= 4 && is_pair(image.site(addr - 4)) || is_heap_second(image, addr)
}

fn is_pair(site: Option<Site>) -> bool
    ensures { result ≡ is_pair site }
{
    match site {
        Some(s) => s.pair,
        None => false,
    }
}

/// Whether an address is that of the second word of a heap function.
fn is_heap_second(image: &Image, addr: u32) -> bool
    ensures { result ≡ list_any (λ e. e + 4 == addr) (heap_entries image.now) }
{
    is_behind_one(image, &HEAP_NAMES, addr)
}

/// Whether an address is that of the second word of one of these heap functions.
fn is_behind_one(image: &Image, names: &[HeapName], addr: u32) -> bool
    ensures { result ≡ list_any (λ name. is_behind addr (heap_entry image.now name)) names.now }
{
    names
        .iter()
        .any(|name| is_behind(image.heap_entry(*name), addr))
}

/// Whether an address is that of the word behind an entry.
fn is_behind(entry: Option<u32>, addr: u32) -> bool
    ensures { result ≡ is_behind addr entry }
{
    match entry {
        Some(e) => e as u64 + 4 == addr as u64,
        None => false,
    }
}
