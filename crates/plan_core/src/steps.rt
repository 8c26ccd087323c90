// One line of a plan's text taken into the plan read so far.
ghost use Rattle.std.specs.Prelude.{◌≡◌, ◌↔◌, IsTrue, OnOk, OnErr, MatchResult};
ghost use Rattle.plan_core.specs.Reading.{line_at};
ghost use Rattle.plan_core.specs.Steps.{moves, is_full, added, WentOn, Stopped};

use crate::lines::{TextLine, read_line};
use crate::refusals::PlanRefusal;
use crate::types::Plan;
use std::alloc::AllocError;

/// The most sites that a plan's text may have.
pub const MAX_SITES: usize = 32;

/// The most rows that a plan's text may have.
pub const MAX_ROWS: usize = 64;

/// How far a text is read: which lines may come next.
#[derive(Clone, Copy)]
pub enum Stage {
    /// Nothing was read.
    Start,
    /// The first line was read.
    Headed,
    /// The area was read, and perhaps sites.
    Sites,
    /// A row was read.
    Rows,
    /// The last line was read.
    Ended,
}

/// Whether the last line was read.
pub fn has_ended(stage: Stage) -> bool
    ensures { IsTrue result ↔ (stage ≡ Stage.Ended) }
{
    match stage {
        Stage::Ended => true,
        _ => false,
    }
}

// The stage after `line`, or none where it may not come.
fn next_stage(stage: Stage, line: TextLine) -> Option<Stage>
    ensures { result ≡ moves stage line }
{
    match (stage, line) {
        (Stage::Start, TextLine::Head) => Some(Stage::Headed),
        (Stage::Headed, TextLine::Size(_)) => Some(Stage::Sites),
        (Stage::Sites, TextLine::Site(_)) => Some(Stage::Sites),
        (Stage::Sites, TextLine::Mask(_)) => Some(Stage::Rows),
        (Stage::Sites, TextLine::End) => Some(Stage::Ended),
        (Stage::Rows, TextLine::Mask(_)) => Some(Stage::Rows),
        (Stage::Rows, TextLine::End) => Some(Stage::Ended),
        _ => None,
    }
}

// Whether the plan has no room for what `line` adds.
fn has_no_room(plan: &Plan, line: TextLine) -> bool
    ensures { result ≡ is_full line plan.now }
{
    match line {
        TextLine::Site(_) => plan.sites.as_slice().len() >= MAX_SITES,
        TextLine::Mask(_) => plan.rows.as_slice().len() >= MAX_ROWS,
        _ => false,
    }
}

// Adds what `line` says to the plan, which stays as it was for want of memory.
fn add(plan: &mut Plan, line: TextLine) -> Result<(), AllocError>
    ensures ok { OnOk result (plan.new ≡ added line plan.old) }
    ensures err { OnErr result (plan.new ≡ plan.old) }
{
    match line {
        TextLine::Size(area) => {
            plan.area = area;
            Ok(())
        }
        TextLine::Site(site) => plan.sites.push(site),
        TextLine::Mask(row) => plan.rows.push(row),
        _ => Ok(()),
    }
}

/// Takes the line at the front of `text`, whose number is `number`, into the plan; gives the next
/// stage and the rest of the text.
pub fn step<'a>(
    plan: &mut Plan,
    stage: Stage,
    text: &'a [u8],
    number: u64,
) -> Result<(Stage, &'a [u8]), PlanRefusal>
    ensures { MatchResult result (λ x. WentOn (line_at text.now) stage plan.old x.0 x.1.now plan.new)
        (λ e. Stopped (line_at text.now) stage plan.old number e) }
{
    let Some((line, rest)) = read_line(text) else {
        return Err(PlanRefusal::Line(number));
    };
    let Some(next) = next_stage(stage, line) else {
        return Err(PlanRefusal::Line(number));
    };
    if has_no_room(plan, line) {
        return Err(PlanRefusal::TooMany(number));
    }
    match add(plan, line) {
        Ok(()) => Ok((next, rest)),
        Err(_) => Err(PlanRefusal::Memory),
    }
}
