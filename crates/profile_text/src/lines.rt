// The lines of a profile's text, each read from the front.
ghost use Rattle.std.specs.Prelude.{◌≡◌, IfOk};
ghost use Rattle.text_fields.specs.Reading.{Finds};
ghost use Rattle.profile_text.specs.Reading.{distance_at, addr_at, addrs_on, addrs_at, numbers_at, context_at, edge_at};
ghost use Rattle.profile_text.specs.Reading.{word_line_at, line_at};

use plan_core::{Context, Edge};
use std::alloc::{AllocError, Global};
use text_fields::{expect, read_hex, read_leading, read_number, read_word};
use vec_list::VecList;

/// The greatest distance of a profile.
pub const MAX_DISTANCE: u64 = 4096;

/// The greatest number of a context.
pub const MAX_NUMBER: u64 = 4294967294;

/// The greatest count and the greatest weight of a profile, 2 to the power of 44.
pub const MAX_COUNT: u64 = 17592186044416;

/// The fields of a context line.
#[derive(Debug, Drop)]
pub struct ContextLine {
    /// The number of the context.
    pub number: u32,
    /// How many blocks were granted in it.
    pub grants: u64,
    /// How many entries of the access list are of its blocks.
    pub accesses: u64,
    /// The addresses of its call sites.
    pub addrs: Context,
}

/// A line of a profile's text.
#[derive(Debug, Drop)]
pub enum TextLine {
    /// The first line, which names the format.
    Head,
    /// `distance NUM`
    Distance(u32),
    /// `context K GRANTS ACCESSES ADDR ADDR`
    Granted(ContextLine),
    /// `edge LOW HIGH WEIGHT`
    Joined(Edge),
    /// The last line.
    End,
}

// A distance line, behind its first word and the space.
#[tactic(auto, unfolding(crate::specs::Reading::distance_at))]
fn read_distance(text: &[u8]) -> Option<(TextLine, &[u8])>
    ensures { Finds (λ x. (x.0, x.1.now)) result (distance_at text.now) }
{
    let (distance, text) = read_number(text, b'\n', MAX_DISTANCE)?;
    Some((TextLine::Distance(distance as u32), text))
}

// A space and an address.
#[tactic(auto, unfolding(crate::specs::Reading::addr_at))]
fn read_addr(text: &[u8]) -> Option<(u32, &[u8])>
    ensures { Finds (λ x. (x.0, x.1.now)) result (addr_at text.now) }
{
    let text = expect(text, b" ")?;
    read_hex(text)
}

// The addresses up to the end of the line.
fn read_addrs(alloc: Global, text: &[u8]) -> Result<Option<(Context, &[u8])>, AllocError>
    ensures { IfOk result (λ o. Finds (λ x. (x.0, x.1.now)) o (addrs_at text.now)) }
{
    let mut addrs = VecList::new(alloc);
    let mut rest = text;
    for at in 0..text.len() {
        if let Some(after) = expect(rest, b"\n") {
            return Ok(Some((addrs, after)));
        }
        let Some((addr, after)) = read_addr(rest) else {
            return Ok(None);
        };
        addrs.push(addr)?;
        rest = after;
    }
    Ok(None)
}

// The numbers of a context line, behind its first word and the space.
#[tactic(auto, unfolding(crate::specs::Reading::numbers_at))]
fn read_numbers(text: &[u8]) -> Option<(u32, u64, u64, &[u8])>
    ensures { Finds (λ x. ((x.0, x.1, x.2), x.3.now)) result (numbers_at text.now) }
{
    let (number, text) = read_number(text, b' ', MAX_NUMBER)?;
    let (grants, text) = read_number(text, b' ', MAX_COUNT)?;
    let (accesses, text) = read_leading(text, MAX_COUNT)?;
    Some((number as u32, grants, accesses, text))
}

// A context line, behind its first word and the space.
#[tactic(auto, unfolding(crate::specs::Reading::context_at))]
fn read_context(alloc: Global, text: &[u8]) -> Result<Option<(TextLine, &[u8])>, AllocError>
    ensures { IfOk result (λ o. Finds (λ x. (x.0, x.1.now)) o (context_at text.now)) }
{
    let Some((number, grants, accesses, text)) = read_numbers(text) else {
        return Ok(None);
    };
    match read_addrs(alloc, text)? {
        Some((addrs, text)) => Ok(Some((
            TextLine::Granted(ContextLine {
                number,
                grants,
                accesses,
                addrs,
            }),
            text,
        ))),
        None => Ok(None),
    }
}

// An edge line, behind its first word and the space.
#[tactic(auto, unfolding(crate::specs::Reading::edge_at))]
fn read_edge(text: &[u8]) -> Option<(TextLine, &[u8])>
    ensures { Finds (λ x. (x.0, x.1.now)) result (edge_at text.now) }
{
    let (low, text) = read_word(text, b' ')?;
    let (high, text) = read_word(text, b' ')?;
    let (weight, text) = read_number(text, b'\n', MAX_COUNT)?;
    Some((TextLine::Joined(Edge { low, high, weight }), text))
}

// A line that has no fields.
#[tactic(auto, unfolding(crate::specs::Reading::word_line_at))]
fn read_word_line(text: &[u8]) -> Option<(TextLine, &[u8])>
    ensures { Finds (λ x. (x.0, x.1.now)) result (word_line_at text.now) }
{
    if let Some(rest) = expect(text, b"halo-profile 1\n") {
        return Some((TextLine::Head, rest));
    }
    if let Some(rest) = expect(text, b"end\n") {
        return Some((TextLine::End, rest));
    }
    None
}

/// The line at the front of `text` with its newline, and the rest.
#[tactic(auto, unfolding(crate::specs::Reading::line_at))]
pub fn read_line(alloc: Global, text: &[u8]) -> Result<Option<(TextLine, &[u8])>, AllocError>
    ensures { IfOk result (λ o. Finds (λ x. (x.0, x.1.now)) o (line_at text.now)) }
{
    if let Some(rest) = expect(text, b"edge ") {
        return Ok(read_edge(rest));
    }
    if let Some(rest) = expect(text, b"context ") {
        return read_context(alloc, rest);
    }
    if let Some(rest) = expect(text, b"distance ") {
        return Ok(read_distance(rest));
    }
    Ok(read_word_line(text))
}
