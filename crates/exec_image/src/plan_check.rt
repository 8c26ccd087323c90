// Whether a plan fits an executable.

ghost use Rattle.std.specs.Prelude.{◌≡◌, ◌==◌, ◌<◌, ◌≤◌, ◌^◌, ◌||◌, All, length, nat_lt, OnErr, OnOk};
ghost use Rattle.std.specs.List.{list_any};
ghost use Rattle.plan_core.specs.Plan.{granules};
ghost use Rattle.site_spec.specs.Places.{text_at};
ghost use Rattle.first_check.specs.Answers.{Says};
ghost use Rattle.site_spec.specs.Plans.{Fits};
ghost use Rattle.exec_image.specs.PlanFaults.{area_too_large, bad_row, is_far, is_strange_bit, no_bit, no_site};
ghost use Rattle.exec_image.specs.PlanFaults.{out_of_reach, plan_fault, strange_mask, strange_masks};
ghost use Rattle.exec_image.specs.Images.{AreSites};

use crate::image::Image;
use crate::plan_fault::PlanFault;
use crate::sites::{find_site, reaches, stub_place};
use first_check::the_first_number_that_passes_is_found;
use plan_core::{Area, Plan, PlanLine, Row};
use site_spec::Site;

/// How many bits and groups there are, the most rows, and the largest area.
const BITS: u8 = 32;

const GROUPS: u8 = 16;

const MOST_ROWS: usize = 64;

const MOST_LOG: u8 = 20;

const MOST_CHUNKS: u32 = 256;

const MOST_GRANULES: u64 = 1048576;

fn has_site(lines: &[PlanLine], addr: u32) -> bool
    ensures { result ≡ list_any (λ m. m.addr == addr) lines.now }
{
    lines.iter().any(|m| m.addr == addr)
}

fn has_bit(lines: &[PlanLine], bit: u8) -> bool
    ensures { result ≡ list_any (λ m. m.bit == bit) lines.now }
{
    lines.iter().any(|m| m.bit == bit)
}

/// Checks that each line names a site of its own.
#[tactic(auto, unfolding(crate::specs::PlanFaults::no_site))]
fn check_lines(file: &[u8], sites: &[Site], lines: &[PlanLine]) -> Result<(), PlanFault>
    requires { AreSites file.now sites.now }
    ensures { Says result (no_site file.now lines.now) }
{
    for i in 0..lines.len() {
        let line = lines[i];
        if find_site(file, sites, line.addr).is_none() || has_site(&lines[..i], line.addr) {
            return Err(PlanFault::PlanSite(line.addr));
        }
    }
    Ok(())
}

/// Checks that each line has a bit of its own.
#[tactic(auto, unfolding(crate::specs::PlanFaults::no_bit))]
fn check_bits(lines: &[PlanLine]) -> Result<(), PlanFault>
    ensures exact { Says result (no_bit lines.now) }
{
    for i in 0..lines.len() {
        let line = lines[i];
        if line.bit >= BITS || has_bit(&lines[..i], line.bit) {
            return Err(PlanFault::PlanBit(line.bit as u32));
        }
    }
    Ok(())
}

/// Whether a mask has a bit that no line has.
fn is_strange_bit(lines: &[PlanLine], mask: u32, bit: u8) -> bool
    requires { bit < 32 }
    ensures { result ≡ is_strange_bit lines.now mask bit }
{
    mask & 1 << bit != 0 && !has_bit(lines, bit)
}

/// Checks that a mask has bits of lines alone.
#[tactic(auto, using(crate::proofs::Finding::below_more), unfolding(crate::specs::PlanFaults::strange_mask))]
fn check_mask(lines: &[PlanLine], mask: u32) -> Result<(), PlanFault>
    ensures { Says result (strange_mask lines.now mask) }
{
    the_first_number_that_passes_is_found();
    for bit in 0..BITS {
        if is_strange_bit(lines, mask, bit) {
            return Err(PlanFault::PlanBit(bit as u32));
        }
    }
    Ok(())
}

/// Checks that the masks have bits of lines alone.
#[tactic(auto, unfolding(crate::specs::PlanFaults::strange_masks))]
fn check_masks(lines: &[PlanLine], rows: &[Row]) -> Result<(), PlanFault>
    ensures exact { Says result (strange_masks lines.now rows.now) }
    ensures bound { OnOk result (All (λ r. r.mask < 2 ^ 32) rows.now) }
{
    for row in rows {
        check_mask(lines, row.mask)?;
    }
    Ok(())
}

/// Checks the groups of the rows and their number.
#[tactic(auto, unfolding(crate::specs::PlanFaults::bad_row))]
fn check_rows(rows: &[Row]) -> Result<(), PlanFault>
    ensures { Says result (bad_row rows.now) }
{
    for (i, row) in rows.iter().enumerate() {
        if row.group >= GROUPS || i == MOST_ROWS {
            return Err(PlanFault::PlanRow(i as u32));
        }
    }
    Ok(())
}

/// Whether an area has too many chunks or granules, or too large ones.
fn is_too_large(area: &Area) -> bool
    ensures { result ≡ (nat_lt 20 area.now.log_chunk || (nat_lt 256 area.now.chunks || nat_lt 1048576
        (granules area.now))) }
{
    if area.log_chunk > MOST_LOG || area.chunks > MOST_CHUNKS {
        return true;
    }
    area.fallback as u64 + area.chunks as u64 * (1u64 << area.log_chunk) > MOST_GRANULES
}

/// Checks the size of the area.
#[tactic(auto, unfolding(crate::specs::PlanFaults::area_too_large))]
fn check_area(area: &Area) -> Result<(), PlanFault>
    ensures { Says result (area_too_large area.now) }
{
    if is_too_large(area) {
        return Err(PlanFault::AreaTooLarge);
    }
    Ok(())
}

/// Whether the JAL at a site doesn't reach stub `k`.
fn is_far(file: &[u8], text: u32, k: usize, site: Option<Site>) -> bool
    requires room { text ≤ 0x70001000 }
    requires text { text ≡ text_at file.now }
    requires few { k < 2 ^ 20 }
    ensures { result ≡ is_far file.now k site }
{
    match site {
        Some(s) => !s.pair && !reaches(s.addr, stub_place(text, k as u32)),
        None => false,
    }
}

/// Checks that each site reaches its stub.
#[tactic(auto, unfolding(crate::specs::PlanFaults::out_of_reach))]
fn check_reach(file: &[u8], sites: &[Site], text: u32, lines: &[PlanLine]) -> Result<(), PlanFault>
    requires sites { AreSites file.now sites.now }
    requires room { text ≤ 0x70001000 }
    requires text { text ≡ text_at file.now }
    requires few { length lines.now ≤ 32 }
    ensures { Says result (out_of_reach file.now lines.now) }
{
    for (k, line) in lines.iter().enumerate() {
        if is_far(file, text, k, find_site(file, sites, line.addr)) {
            return Err(PlanFault::SiteOutOfReach(line.addr));
        }
    }
    Ok(())
}

/// The checks of a plan, in their order.
#[tactic(auto, using(crate::proofs::PlanFits::few_lines))]
fn find_fault(image: &Image, plan: &Plan) -> Result<(), PlanFault>
    ensures exact { Says result (plan_fault image.now plan.now) }
    ensures bound { OnOk result (All (λ r. r.mask < 2 ^ 32) plan.now.rows) }
{
    let file = image.file();
    let sites = image.sites().as_slice();
    let lines = plan.sites.as_slice();
    let rows = plan.rows.as_slice();
    check_lines(file, sites, lines)?;
    check_bits(lines)?;
    check_masks(lines, rows)?;
    check_rows(rows)?;
    check_area(&plan.area)?;
    check_reach(file, sites, image.text_at(), lines)
}

/// Checks that a plan fits an executable, in the order of the variants of `PlanFault`; the first line
/// or row that fails is named, and of a mask the lowest bit. It takes no memory.
pub fn check_plan(image: &Image, plan: &Plan) -> Result<(), PlanFault>
    ensures exact { Says result (plan_fault image.now plan.now) }
    ensures fits { OnOk result (Fits image.now plan.now) }
    ensures misfits { OnErr result (Fits image.now plan.now → ⊥) }
{
    the_first_number_that_passes_is_found();
    find_fault(image, plan)
}
