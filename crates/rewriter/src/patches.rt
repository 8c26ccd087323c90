// The words that stand at the chosen sites in place of their own.
ghost use Rattle.std.specs.Prelude.{◌≡◌, ℕ, ◌<◌, ◌≤◌, ◌^◌, ◌++◌, Some, false, length, slice_get, IfOk, OnOk};
ghost use Rattle.rv_isa.specs.Addresses.{minus};
ghost use Rattle.rv_isa.specs.Encoded.{IsFormed};
ghost use Rattle.elf_spec.specs.Code.{code_place};
ghost use Rattle.site_spec.specs.Places.{text_at, stub_at};
ghost use Rattle.site_spec.specs.Plans.{Fits, IsInReach};
ghost use Rattle.new_file_spec.specs.Rewritten.{patch_to, site_patches, patches_for, patches_from};
ghost use Rattle.site_spec.specs.Sites.{site_at};
ghost use Rattle.exec_image.specs.Accepted.{AcceptedFacts};

use crate::places::stub_place;
use elf_spec::Patch;
use exec_image::Image;
use new_file_laws::fitting_plans_have_few_sites;
use plan_core::{Plan, PlanLine};
use rv_isa::{Instr, encode};
use site_spec::Site;
use site_stubs::far_jump;
use std::alloc::{AllocError, Global};

const RA: u8 = 1;

/// Adds the patch of a code word.
pub fn push_word(
    patches: &mut Vec<Patch>,
    image: &Image,
    addr: u32,
    word: u32,
) -> Result<(), AllocError>
    ensures { OnOk result (patches.new.items ≡ patches.old.items ++ patch_to word (code_place image.now addr)) }
{
    if let Some(offset) = image.code_place(addr) {
        patches.push(Patch { offset, word })?;
    }
    Ok(())
}

/// Adds the words with which a site goes to its stub: one of a jump, or the two of a pair.
#[tactic(auto, using(crate::proofs::ChosenSites::jumps))]
fn push_jump(
    patches: &mut Vec<Patch>,
    image: &Image,
    site: Site,
    stub: u32,
) -> Result<(), AllocError>
    requires low { site.addr < 2 ^ 31 }
    requires near { site.pair ≡ false → IsFormed (Instr.Jal 0 (minus stub site.addr)) }
    ensures { OnOk result (patches.new.items ≡ patches.old.items ++ site_patches image.now stub (Some site)) }
{
    let distance = stub.wrapping_sub(site.addr);
    if site.pair {
        let [upper, lower] = far_jump(RA, 0, distance);
        push_word(patches, image, site.addr, upper)?;
        push_word(patches, image, site.addr + 4, lower)?;
    } else {
        let jump = Instr::Jal {
            rd: 0,
            imm: distance,
        };
        push_word(patches, image, site.addr, encode(jump))?;
    }
    Ok(())
}

/// Adds the jump to the stub of the line with this number, where the line names a site.
#[tactic(auto, using(crate::proofs::ChosenSites::sites))]
fn push_line(
    patches: &mut Vec<Patch>,
    image: &Image,
    line: PlanLine,
    number: usize,
) -> Result<(), AllocError>
    requires facts { AcceptedFacts image.now }
    requires few { number < 32 }
    requires reach { IsInReach image.now (Some line) number }
    ensures { OnOk result (patches.new.items ≡ patches.old.items
        ++ site_patches image.now (stub_at (text_at image.now) number) (site_at image.now line.addr)) }
{
    if let Some(site) = image.site(line.addr) {
        push_jump(patches, image, site, stub_place(image, number))?;
    }
    Ok(())
}

/// The patches of some lines.
fn line_patches(alloc: Global, image: &Image, lines: &[PlanLine]) -> Result<Vec<Patch>, AllocError>
    requires facts { AcceptedFacts image.now }
    requires few { length lines.now ≤ 32 }
    requires reach { (k : ℕ) → IsInReach image.now (slice_get lines.now k) k }
    ensures { IfOk result (λ patches. patches.items ≡ patches_from image.now 0 lines.now) }
{
    let mut patches = Vec::with_capacity(alloc, lines.len())?;
    for (number, line) in lines.iter().enumerate() {
        push_line(&mut patches, image, *line, number)?;
    }
    Ok(patches)
}

/// The patches of the chosen sites.
pub fn site_patches(alloc: Global, image: &Image, plan: &Plan) -> Result<Vec<Patch>, AllocError>
    requires facts { AcceptedFacts image.now }
    requires fits { Fits image.now plan.now }
    ensures { IfOk result (λ patches. patches.items ≡ patches_for image.now plan.now) }
{
    fitting_plans_have_few_sites();
    line_patches(alloc, image, plan.sites.as_slice())
}
