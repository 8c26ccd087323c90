// Whether loaded segments have an address or a file byte in common (gABI, "Program Header").

ghost use Rattle.std.specs.Prelude.{◌≡◌, ◌<◌, ◌^◌, length};
ghost use Rattle.std.specs.List.{list_any};
ghost use Rattle.first_check.specs.Answers.{Says};
ghost use Rattle.elf_read.specs.Checks.{is_shared, meets};
ghost use Rattle.elf_read.specs.Refusals.{segment_overlap};

use crate::refusals::ElfRefusal;
use crate::segments::is_loaded;
use elf_spec::Segment;

/// Whether two ranges, each given by its start and size, have a number in common.
fn is_shared(a: u32, m: u32, b: u32, n: u32) -> bool
    ensures { result ≡ is_shared a m b n }
{
    m > 0 && n > 0 && (a as u64) < b as u64 + n as u64 && (b as u64) < a as u64 + m as u64
}

/// Whether two loaded segments have an address or a file byte in common.
fn meet(s: &Segment, t: &Segment) -> bool
    ensures { result ≡ meets s.now t.now }
{
    is_loaded(s)
        && is_loaded(t)
        && (is_shared(s.vaddr, s.mem_size, t.vaddr, t.mem_size)
            || is_shared(s.offset, s.file_size, t.offset, t.file_size))
}

/// Whether a segment meets one of those before it.
fn meets_one(front: &[Segment], s: &Segment) -> bool
    ensures { result ≡ list_any (λ t. meets t s.now) front.now }
{
    front.iter().any(|t| meet(t, s))
}

/// Checks that no two loaded segments have an address or a file byte in common, by a look at all pairs.
#[tactic(auto, unfolding(crate::specs::Refusals::segment_overlap))]
pub(crate) fn check_overlap(segments: &[Segment]) -> Result<(), ElfRefusal>
    requires { length segments.now < 2 ^ 32 }
    ensures { Says result (segment_overlap segments.now) }
{
    for i in 0..segments.len() {
        if meets_one(&segments[..i], &segments[i]) {
            return Err(ElfRefusal::SegmentOverlap(i as u32));
        }
    }
    Ok(())
}
