// The writer of a plan's text.
ghost use Rattle.std.specs.Prelude.{◌≡◌, ◌≤◌, ◌++◌, length, map, All, IfOk, OnOk};
ghost use Rattle.plan_core.specs.declared.lines.TextLine.TheVariants.{Site, Mask};
ghost use Rattle.plan_core.specs.Plan.{field_text, line_text, text_of, plan_text, SiteFits, RowFits, LineFits, IsPlan};

use crate::lines::TextLine;
use crate::types::{Plan, PlanLine, Row};
use std::alloc::{AllocError, Global};
use text_fields::{push_decimal, push_hex};

// Writes a field in decimal and the byte behind it.
fn write_field(alloc: Global, out: &mut Vec<u8>, number: u32, end: u8) -> Result<(), AllocError>
    ensures { OnOk result (out.new.items ≡ out.old.items ++ field_text number end) }
{
    push_decimal(alloc, out, u64::from(number))?;
    out.push(end)?;
    Ok(())
}

// Writes a line with its newline.
#[tactic(auto, unfolding(crate::specs::Plan::line_text))]
fn write_line(alloc: Global, out: &mut Vec<u8>, line: TextLine) -> Result<(), AllocError>
    ensures text { OnOk result (out.new.items ≡ out.old.items ++ line_text line) }
    ensures fits { OnOk result (LineFits line) }
{
    match line {
        TextLine::Head => out.extend_from_slice(b"halo-plan 1\n")?,
        TextLine::Size(area) => {
            out.extend_from_slice(b"area ")?;
            write_field(alloc, out, area.chunks, b' ')?;
            write_field(alloc, out, u32::from(area.log_chunk), b' ')?;
            write_field(alloc, out, area.fallback, b'\n')?;
        }
        TextLine::Site(site) => {
            out.extend_from_slice(b"site ")?;
            write_field(alloc, out, u32::from(site.bit), b' ')?;
            push_hex(out, site.addr)?;
            out.push(b'\n')?;
        }
        TextLine::Mask(row) => {
            out.extend_from_slice(b"row ")?;
            write_field(alloc, out, u32::from(row.group), b' ')?;
            push_hex(out, row.mask)?;
            out.push(b'\n')?;
        }
        TextLine::End => out.extend_from_slice(b"end\n")?,
    }
    Ok(())
}

// Writes the lines of sites.
fn write_sites(alloc: Global, out: &mut Vec<u8>, sites: &[PlanLine]) -> Result<(), AllocError>
    ensures text { OnOk result (out.new.items ≡ out.old.items ++ text_of (map Site sites.now)) }
    ensures fits { OnOk result (All SiteFits sites.now) }
{
    for site in sites {
        write_line(alloc, out, TextLine::Site(*site))?;
    }
    Ok(())
}

// Writes the lines of rows.
fn write_rows(alloc: Global, out: &mut Vec<u8>, rows: &[Row]) -> Result<(), AllocError>
    ensures text { OnOk result (out.new.items ≡ out.old.items ++ text_of (map Mask rows.now)) }
    ensures fits { OnOk result (All RowFits rows.now) }
{
    for row in rows {
        write_line(alloc, out, TextLine::Mask(*row))?;
    }
    Ok(())
}

/// The text of a plan of at most 32 sites and 64 rows, which `read_plan` reads back as the plan.
pub fn write_plan(alloc: Global, plan: &Plan) -> Result<Vec<u8>, AllocError>
    requires few_sites { length plan.now.sites ≤ 32 }
    requires few_rows { length plan.now.rows ≤ 64 }
    ensures text { IfOk result (λ text. text.items ≡ plan_text plan.now) }
    ensures is_plan { OnOk result (IsPlan plan.now) }
{
    let mut out = Vec::new(alloc);
    write_line(alloc, &mut out, TextLine::Head)?;
    write_line(alloc, &mut out, TextLine::Size(plan.area))?;
    write_sites(alloc, &mut out, plan.sites.as_slice())?;
    write_rows(alloc, &mut out, plan.rows.as_slice())?;
    write_line(alloc, &mut out, TextLine::End)?;
    Ok(out)
}
