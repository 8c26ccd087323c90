// The reader of a plan's text.
ghost use Rattle.std.specs.Prelude.{◌≡◌, ◌⊎◌, ℕ, IfOk, IfErr, MatchResult};
ghost use Rattle.plan_core.specs.declared.types.Plan.{Plan as Value};
ghost use Rattle.plan_core.specs.Plan.{plan_text, IsPlan};
ghost use Rattle.plan_core.specs.Grammar.{FirstBad, FirstOver, Refuses};
ghost use Rattle.plan_core.specs.Steps.{blank_plan};

use crate::laws::lines_are_read_as_they_are_written;
use crate::refusals::PlanRefusal;
use crate::steps::{Stage, has_ended, step};
use crate::types::{Area, Plan};
use std::alloc::Global;
use vec_list::VecList;

// The plan with no site, no row and no area.
fn empty_plan(alloc: Global) -> Plan
    ensures { result ≡ blank_plan }
{
    Plan {
        sites: VecList::new(alloc),
        rows: VecList::new(alloc),
        area: Area {
            chunks: 0,
            log_chunk: 0,
            fallback: 0,
        },
    }
}

// Reads line after line, and refuses what stands behind the last.
fn read_lines(alloc: Global, text: &[u8]) -> Result<Plan, PlanRefusal>
    ensures found { IfOk result (λ p. IsPlan p × (text.now ≡ plan_text p)) }
    ensures refused { IfErr result (Refuses text.now) }
{
    lines_are_read_as_they_are_written();
    let mut plan = empty_plan(alloc);
    let mut stage = Stage::Start;
    let mut rest = text;
    let mut number: u64 = 1;
    while !has_ended(stage) {
        match step(&mut plan, stage, rest, number) {
            Ok((next, after)) => {
                stage = next;
                rest = after;
            }
            Err(refusal) => return Err(refusal),
        }
        number += 1;
    }
    if !rest.is_empty() {
        return Err(PlanRefusal::Line(number));
    }
    Ok(plan)
}

/// Reads the text of a plan, which has at most 32 sites and 64 rows.
///
/// `Line(n)` and `TooMany(n)` come exactly where line n is the first that is refused, as the types of
/// [`PlanRefusal`] say; the lowest line decides.
pub fn read_plan(alloc: Global, text: &[u8]) -> Result<Plan, PlanRefusal>
    ensures found { IfOk result (λ p. IsPlan p × (text.now ≡ plan_text p)) }
    ensures refused { IfErr result (Refuses text.now) }

    // The text of a plan is read as that plan, if memory suffices.
    ensures only { (p : Value) → IsPlan p → text.now ≡ plan_text p →
        MatchResult result (λ q. q ≡ p) (λ e. e ≡ PlanRefusal.Memory) }
    ensures line { (n : ℕ) → FirstBad text.now n →
        MatchResult result (λ _. ⊥) (λ e. (e ≡ PlanRefusal.Line n) ⊎ (e ≡ PlanRefusal.Memory)) }
    ensures too_many { (n : ℕ) → FirstOver text.now n →
        MatchResult result (λ _. ⊥) (λ e. (e ≡ PlanRefusal.TooMany n) ⊎ (e ≡ PlanRefusal.Memory)) }
{
    lines_are_read_as_they_are_written();
    read_lines(alloc, text)
}
