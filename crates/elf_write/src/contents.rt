// The file parts of the added segments, each at the next multiple of 4096.
ghost use Rattle.std.specs.Prelude.{◌≡◌, ◌+◌, ◌-◌, ◌*◌, ◌≤◌, ◌++◌, length, replicate, All, OnOk};
ghost use Rattle.elf_spec.specs.NewFile.{contents, up4096};
ghost use Rattle.elf_write.specs.Inputs.{IsSmall};
ghost use Rattle.elf_write.specs.Ends.{contents_end};

use elf_spec::NewSegment;
use std::alloc::AllocError;

/// The alignment of an added segment.
pub const PAGE: usize = 4096;

/// The next multiple of a page.
pub fn next_page(at: usize) -> usize
    requires { at ≤ 40000000 }
    ensures is { result ≡ up4096 at }
    ensures after { at ≤ result }
    ensures near { result ≤ at + 4095 }
{
    at.next_multiple_of(PAGE)
}

/// Where the last of these segments ends if they are laid out from `end` on.
pub fn contents_end(end: usize, segments: &[NewSegment]) -> usize
    requires low { end ≤ 33600000 }
    requires few_segments { length segments.now ≤ 2 }
    requires small_segments { All IsSmall segments.now }
    ensures is { result ≡ contents_end end segments.now }
    ensures near { result ≤ end + 2 * 69631 }
{
    let mut at = end;
    for segment in segments {
        at = next_page(at) + segment.bytes.as_slice().len();
    }
    at
}

/// Adds the file parts of segments that are laid out from `end`, the length of `out`, on.
#[tactic(auto, using(crate::proofs::Assoc::assoc))]
pub fn push_contents(
    out: &mut Vec<u8>,
    end: usize,
    segments: &[NewSegment],
) -> Result<(), AllocError>
    requires place { length out.old.items ≡ end }
    requires low { end ≤ 33600000 }
    requires few_segments { length segments.now ≤ 2 }
    requires small_segments { All IsSmall segments.now }
    ensures { OnOk result (out.new.items ≡ out.old.items ++ contents end segments.now) }
{
    for segment in segments {
        pad_to_page(out)?;
        out.extend_from_slice(segment.bytes.as_slice())?;
    }
    Ok(())
}

/// Adds zero bytes up to the next multiple of a page.
fn pad_to_page(out: &mut Vec<u8>) -> Result<(), AllocError>
    requires { length out.old.items ≤ 40000000 }
    ensures is { OnOk result (out.new.items ≡ out.old.items ++ replicate
        (up4096 (length out.old.items) - length out.old.items) 0) }
    ensures long { OnOk result (length out.new.items ≡ up4096 (length out.old.items)) }
{
    out.resize(next_page(out.len()), 0)?;
    Ok(())
}
