// The new text: the mark, a stub for each chosen site, and the heap's words.
ghost use Rattle.std.specs.Prelude.{◌≡◌, ◌+◌, ◌*◌, ◌<◌, ◌≤◌, ◌++◌, length, flat_map, All, IfOk, OnOk};
ghost use Rattle.elf_spec.specs.Fields.{word_bytes};
ghost use Rattle.site_spec.specs.Places.{text_at, stub_at};
ghost use Rattle.site_spec.specs.Plans.{Fits};
ghost use Rattle.new_file_spec.specs.Rewritten.{heap_text, mark, site_stub, stubs_from, text_for, text_segment};
ghost use Rattle.site_spec.specs.Sites.{site_at};
ghost use Rattle.exec_image.specs.Accepted.{AcceptedFacts};

use crate::places::stub_place;
use bitflags::Flags;
use elf_read::SegmentFlags;
use elf_spec::{ByteList, NewSegment};
use exec_image::Image;
use new_file_laws::fitting_plans_have_few_sites;
use plan_core::{Plan, PlanLine};
use site_stubs::stub;
use std::alloc::{AllocError, Global};

/// What a new text begins with.
const MARK: &[u8] = b"HALO-LAYOUT-RV1\n";

/// Where the heap's words stand in it.
const WORDS_AT: usize = 0x600;

/// Adds the four bytes of a word.
#[tactic(auto, unfolding(elf_spec::specs::Fields::word_bytes))]
fn push_word(text: &mut Vec<u8>, word: u32) -> Result<(), AllocError>
    ensures is { OnOk result (text.new.items ≡ text.old.items ++ word_bytes word) }
    ensures long { OnOk result (length text.new.items ≡ length text.old.items + 4) }
{
    text.extend_from_slice(&word.to_le_bytes())?;
    Ok(())
}

/// Adds the bytes of some words.
fn push_words(text: &mut Vec<u8>, words: &[u32]) -> Result<(), AllocError>
    ensures is { OnOk result (text.new.items ≡ text.old.items ++ flat_map word_bytes words.now) }
    ensures long { OnOk result (length text.new.items ≡ length text.old.items + 4 * length words.now) }
{
    for word in words {
        push_word(text, *word)?;
    }
    Ok(())
}

/// Adds the stub of the line with this number, where the line names a site.
#[tactic(auto, using(crate::proofs::ChosenSites::sites))]
fn push_stub(
    text: &mut Vec<u8>,
    image: &Image,
    line: PlanLine,
    number: usize,
) -> Result<(), AllocError>
    requires facts { AcceptedFacts image.now }
    requires few { number < 32 }
    requires bit { line.bit < 32 }
    ensures is { OnOk result (text.new.items ≡ text.old.items
        ++ site_stub (stub_at (text_at image.now) number) line.bit (site_at image.now line.addr)) }
    ensures long { OnOk result (length text.new.items ≤ length text.old.items + 44) }
{
    if let Some(site) = image.site(line.addr) {
        let at = stub_place(image, number);
        push_words(text, &stub(line.bit, site.target, site.back, at))?;
    }
    Ok(())
}

/// The mark and the stubs of some lines.
fn line_bytes(alloc: Global, image: &Image, lines: &[PlanLine]) -> Result<Vec<u8>, AllocError>
    requires facts { AcceptedFacts image.now }
    requires few { length lines.now ≤ 32 }
    requires bits { All (λ line. line.bit < 32) lines.now }
    ensures is { IfOk result (λ text. text.items ≡ mark ++ stubs_from image.now 0 lines.now) }
    ensures short { IfOk result (λ text. length text.items ≤ 1424) }
{
    let mut text = Vec::with_capacity(alloc, MARK.len() + 44 * lines.len())?;
    text.extend_from_slice(MARK)?;
    for (number, line) in lines.iter().enumerate() {
        push_stub(&mut text, image, *line, number)?;
    }
    Ok(text)
}

/// The mark and the stubs of a plan.
fn text_bytes(alloc: Global, image: &Image, plan: &Plan) -> Result<Vec<u8>, AllocError>
    requires facts { AcceptedFacts image.now }
    requires fits { Fits image.now plan.now }
    ensures is { IfOk result (λ text. text.items ≡ text_for image.now plan.now) }
    ensures short { IfOk result (λ text. length text.items ≤ 1424) }
{
    fitting_plans_have_few_sites();
    line_bytes(alloc, image, plan.sites.as_slice())
}

/// The flags of a segment of code.
fn code_flags() -> u32
    ensures { result ≡ 5 }
{
    SegmentFlags::READ.union(SegmentFlags::EXECUTE).bits()
}

/// The segment of a new text.
fn segment_of(image: &Image, text: Vec<u8>) -> NewSegment
    requires { length text.items ≤ 65536 }
    ensures { result ≡ text_segment (text_at image.now) text.items }
{
    NewSegment {
        vaddr: image.text_at(),
        flags: code_flags(),
        mem_size: text.len() as u32,
        bytes: ByteList::from(text),
    }
}

/// The segment of the new text without heap functions.
pub fn site_segment(alloc: Global, image: &Image, plan: &Plan) -> Result<NewSegment, AllocError>
    requires facts { AcceptedFacts image.now }
    requires fits { Fits image.now plan.now }
    ensures { IfOk result (λ segment. segment ≡ text_segment (text_at image.now) (text_for image.now plan.now)) }
{
    let text = text_bytes(alloc, image, plan)?;
    Ok(segment_of(image, text))
}

/// The segment of the new text with the heap's words.
pub fn heap_segment(
    alloc: Global,
    image: &Image,
    plan: &Plan,
    words: &[u32],
) -> Result<NewSegment, AllocError>
    requires facts { AcceptedFacts image.now }
    requires fits { Fits image.now plan.now }
    requires few { length words.now ≤ 4096 }
    ensures { IfOk result (λ segment. segment
        ≡ text_segment (text_at image.now) (heap_text image.now plan.now words.now)) }
{
    let mut text = text_bytes(alloc, image, plan)?;
    text.resize(WORDS_AT, 0)?;
    push_words(&mut text, words)?;
    Ok(segment_of(image, text))
}
