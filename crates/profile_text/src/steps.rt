// One line of a profile's text taken into the profile read so far.
ghost use Rattle.std.specs.Prelude.{◌≡◌, ◌↔◌, IsTrue, IfOk, OnOk, MatchResult};
ghost use Rattle.profile_text.specs.Reading.{line_at};
ghost use Rattle.profile_text.specs.Steps.{comes_behind, joins_next, comes_next, admits, added, WentOn, Stopped};

use crate::distinct::are_distinct;
use crate::lines::{ContextLine, TextLine, read_line};
use crate::refusals::ProfileRefusal;
use plan_core::{Edge, Node, Profile};
use std::alloc::{AllocError, Global};

/// How far a text is read: which lines may come next.
#[derive(Clone, Copy)]
pub enum Stage {
    /// Nothing was read.
    Start,
    /// The first line was read.
    Headed,
    /// The distance was read, and perhaps contexts.
    Contexts,
    /// An edge was read.
    Edges,
    /// The last line was read.
    Ended,
}

/// Whether the last line was read.
pub fn has_ended(stage: Stage) -> bool
    ensures { IsTrue result ↔ (stage ≡ Stage.Ended) }
{
    match stage {
        Stage::Ended => true,
        _ => false,
    }
}

// Whether the ends of an edge come behind those of the last one.
fn comes_behind(edges: &[Edge], edge: Edge) -> bool
    ensures { result ≡ comes_behind edges.now edge }
{
    match edges.last() {
        Some(last) => last.low < edge.low || (last.low == edge.low && last.high < edge.high),
        None => true,
    }
}

// Whether an edge may come next.
fn joins_next(profile: &Profile, edge: Edge) -> bool
    ensures { result ≡ joins_next edge profile.now }
{
    edge.low <= edge.high
        && (edge.high as usize) < profile.contexts.as_slice().len()
        && edge.weight >= 1
        && comes_behind(profile.graph.edges.as_slice(), edge)
}

// Whether a context may come next.
fn comes_next(alloc: Global, profile: &Profile, line: &ContextLine) -> Result<bool, AllocError>
    ensures { IfOk result (λ t. t ≡ comes_next line.now profile.now) }
{
    if line.number as usize != profile.contexts.as_slice().len() {
        return Ok(false);
    }
    are_distinct(alloc, line.addrs.as_slice())
}

// The stage after `line`, or none where it may not come.
fn next_stage(
    alloc: Global,
    stage: Stage,
    profile: &Profile,
    line: &TextLine,
) -> Result<Option<Stage>, AllocError>
    ensures { IfOk result (λ o. o ≡ admits stage profile.now line.now) }
{
    match (stage, line) {
        (Stage::Start, TextLine::Head) => Ok(Some(Stage::Headed)),
        (Stage::Headed, TextLine::Distance(_)) => Ok(Some(Stage::Contexts)),
        (Stage::Contexts, TextLine::Granted(context)) => {
            let comes = comes_next(alloc, profile, context)?;
            Ok(if comes { Some(Stage::Contexts) } else { None })
        }
        (Stage::Contexts | Stage::Edges, TextLine::Joined(edge)) => {
            let joins = joins_next(profile, *edge);
            Ok(if joins { Some(Stage::Edges) } else { None })
        }
        (Stage::Contexts | Stage::Edges, TextLine::End) => Ok(Some(Stage::Ended)),
        _ => Ok(None),
    }
}

// Adds what `line` says to the profile.
fn add(profile: &mut Profile, line: TextLine) -> Result<(), AllocError>
    ensures { OnOk result (profile.new ≡ added line profile.old) }
{
    match line {
        TextLine::Distance(distance) => {
            profile.distance = distance;
            Ok(())
        }
        TextLine::Granted(context) => {
            let ContextLine {
                grants,
                accesses,
                addrs,
                ..
            } = context;
            profile.contexts.push(addrs)?;
            profile.graph.nodes.push(Node { grants, accesses })
        }
        TextLine::Joined(edge) => profile.graph.edges.push(edge),
        _ => Ok(()),
    }
}

/// Takes the line at the front of `text`, whose number is `number`, into the profile; gives the next
/// stage and the rest of the text.
pub fn step<'a>(
    alloc: Global,
    profile: &mut Profile,
    stage: Stage,
    text: &'a [u8],
    number: u64,
) -> Result<(Stage, &'a [u8]), ProfileRefusal>
    ensures { MatchResult result (λ x. WentOn (line_at text.now) stage profile.old x.0 x.1.now profile.new)
        (λ e. Stopped (line_at text.now) stage profile.old number e) }
{
    let (line, rest) = match read_line(alloc, text) {
        Ok(Some(found)) => found,
        Ok(None) => return Err(ProfileRefusal::Line(number)),
        Err(_) => return Err(ProfileRefusal::Memory),
    };
    let next = match next_stage(alloc, stage, profile, &line) {
        Ok(Some(next)) => next,
        Ok(None) => return Err(ProfileRefusal::Line(number)),
        Err(_) => return Err(ProfileRefusal::Memory),
    };
    match add(profile, line) {
        Ok(()) => Ok((next, rest)),
        Err(_) => Err(ProfileRefusal::Memory),
    }
}
