// The candidate that joins a group.
ghost use Rattle.std.specs.Prelude.{◌≡◌, ◌^◌, ◌<◌, ◌≤◌, length, vec_len};
ghost use Rattle.grouping.specs.Growing.{AreKept, IsCounted};
ghost use Rattle.grouping.specs.Choosing.{better_of, if_above_zero, Chooses};

use crate::growth::Growth;
use crate::kept::Kept;
use group_policy::{Cut, Policy, Rule};

/// A candidate and what the rule answered of it.
#[derive(Clone, Copy)]
pub struct Choice {
    /// The candidate.
    pub context: u32,
    /// The answer.
    pub answer: i128,
}

/// Of the contexts that aren't busy, the one with the greatest answer, the lowest of equal ones; none where no answer
/// is above 0.
pub fn best(
    growth: &Growth,
    kept: &Kept,
    busy: &[bool],
    policy: &Policy,
    tolerance: u16,
) -> Option<u32>
    requires kept { AreKept (length busy.now) kept.now }
    requires counted { IsCounted kept.now.edges.items growth.now }
    requires sizes { (vec_len growth.now.cross ≡ length busy.now) × (length busy.now < 2 ^ 32) }
    requires members { (1 ≤ vec_len growth.now.members) × (vec_len growth.now.members < 8) }
    requires tolerance { tolerance ≤ 150 }
    ensures { Chooses (λ cut answer. ⟦<Rule as Fn(Cut) -> i128>⟧.post policy.now.rule cut answer)
        kept.now.edges.items tolerance growth.now.members.items busy.now result }
{
    let mut best: Option<Choice> = None;
    for context in 0..busy.len() {
        if !busy[context] {
            let answer = policy.ask(growth.cut(context, kept.loops[context], tolerance));
            best = better(
                best,
                Choice {
                    context: context as u32,
                    answer,
                },
            );
        }
    }
    above_zero(best)
}

// The greater of two choices, the first of equal ones.
fn better(best: Option<Choice>, choice: Choice) -> Option<Choice>
    ensures { result ≡ better_of best choice }
{
    match best {
        Some(other) => {
            if choice.answer <= other.answer {
                Some(other)
            } else {
                Some(choice)
            }
        }
        None => Some(choice),
    }
}

// The context of a choice whose answer is above 0.
fn above_zero(best: Option<Choice>) -> Option<u32>
    ensures { result ≡ if_above_zero best }
{
    match best {
        Some(choice) => {
            if choice.answer > 0 {
                Some(choice.context)
            } else {
                None
            }
        }
        None => None,
    }
}
