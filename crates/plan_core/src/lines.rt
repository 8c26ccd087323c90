// The lines of a plan's text, each read from the front.
ghost use Rattle.text_fields.specs.Reading.{Finds};
ghost use Rattle.plan_core.specs.Reading.{line_at, word_line_at, area_at, site_at, row_at};

use crate::types::{Area, PlanLine, Row};
use text_fields::{expect, read_byte, read_hex, read_word};

/// A line of a plan's text.
#[derive(Clone, Copy)]
pub enum TextLine {
    /// The first line, which names the format.
    Head,
    /// `area CHUNKS LOG FALLBACK`
    Size(Area),
    /// `site BIT ADDR`
    Site(PlanLine),
    /// `row GROUP MASK`
    Mask(Row),
    /// The last line.
    End,
}

// An area line, behind its first word and the space.
#[tactic(auto, unfolding(crate::specs::Reading::area_at))]
fn read_area(text: &[u8]) -> Option<(TextLine, &[u8])>
    ensures { Finds (λ x. (x.0, x.1.now)) result (area_at text.now) }
{
    let (chunks, text) = read_word(text, b' ')?;
    let (log_chunk, text) = read_byte(text, b' ')?;
    let (fallback, text) = read_word(text, b'\n')?;
    let area = Area {
        chunks,
        log_chunk,
        fallback,
    };
    Some((TextLine::Size(area), text))
}

// A site line, behind its first word and the space.
#[tactic(auto, unfolding(crate::specs::Reading::site_at))]
fn read_site(text: &[u8]) -> Option<(TextLine, &[u8])>
    ensures { Finds (λ x. (x.0, x.1.now)) result (site_at text.now) }
{
    let (bit, text) = read_byte(text, b' ')?;
    let (addr, text) = read_hex(text)?;
    let text = expect(text, b"\n")?;
    Some((TextLine::Site(PlanLine { bit, addr }), text))
}

// A row line, behind its first word and the space.
#[tactic(auto, unfolding(crate::specs::Reading::row_at))]
fn read_row(text: &[u8]) -> Option<(TextLine, &[u8])>
    ensures { Finds (λ x. (x.0, x.1.now)) result (row_at text.now) }
{
    let (group, text) = read_byte(text, b' ')?;
    let (mask, text) = read_hex(text)?;
    let text = expect(text, b"\n")?;
    Some((TextLine::Mask(Row { group, mask }), text))
}

// A line that has no fields.
#[tactic(auto, unfolding(crate::specs::Reading::word_line_at))]
fn read_word_line(text: &[u8]) -> Option<(TextLine, &[u8])>
    ensures { Finds (λ x. (x.0, x.1.now)) result (word_line_at text.now) }
{
    if let Some(rest) = expect(text, b"halo-plan 1\n") {
        return Some((TextLine::Head, rest));
    }
    if let Some(rest) = expect(text, b"end\n") {
        return Some((TextLine::End, rest));
    }
    None
}

/// The line at the front of `text` with its newline, and the rest.
#[tactic(auto, unfolding(crate::specs::Reading::line_at))]
pub fn read_line(text: &[u8]) -> Option<(TextLine, &[u8])>
    ensures { Finds (λ x. (x.0, x.1.now)) result (line_at text.now) }
{
    if let Some(rest) = expect(text, b"site ") {
        return read_site(rest);
    }
    if let Some(rest) = expect(text, b"row ") {
        return read_row(rest);
    }
    if let Some(rest) = expect(text, b"area ") {
        return read_area(rest);
    }
    read_word_line(text)
}
