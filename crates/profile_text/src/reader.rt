// The reader of a profile's text.
ghost use Rattle.std.specs.Prelude.{◌≡◌, ◌⊎◌, ◌<◌, ◌^◌, ℕ, length, IfOk, IfErr, MatchResult};
ghost use Rattle.plan_core.specs.declared.profiles.Profile.{Profile as Value};
ghost use Rattle.profile_text.specs.Profile.{profile_text, IsProfile};
ghost use Rattle.profile_text.specs.Grammar.{FirstBad, Refuses};
ghost use Rattle.profile_text.specs.Steps.{blank_profile};

use crate::refusals::ProfileRefusal;
use crate::steps::{Stage, has_ended, step};
use plan_core::{Graph, Profile};
use std::alloc::Global;
use text_fields::{numbers_are_read_as_they_are_written, parts_are_read_where_they_stand};
use vec_list::VecList;

// The profile with no context and no edge.
fn empty_profile(alloc: Global) -> Profile
    ensures { result ≡ blank_profile }
{
    Profile {
        distance: 0,
        contexts: VecList::new(alloc),
        graph: Graph {
            nodes: VecList::new(alloc),
            edges: VecList::new(alloc),
        },
    }
}

// Reads line after line, and refuses what stands behind the last.
fn read_lines(alloc: Global, text: &[u8]) -> Result<Profile, ProfileRefusal>
    ensures found { IfOk result (λ p. IsProfile p × (text.now ≡ profile_text p)) }
    ensures refused { IfErr result (Refuses text.now) }
{
    numbers_are_read_as_they_are_written();
    parts_are_read_where_they_stand();
    let mut profile = empty_profile(alloc);
    let mut stage = Stage::Start;
    let mut rest = text;
    let mut number: u64 = 1;
    while !has_ended(stage) {
        match step(alloc, &mut profile, stage, rest, number) {
            Ok((next, after)) => {
                stage = next;
                rest = after;
            }
            Err(refusal) => return Err(refusal),
        }
        number += 1;
    }
    if !rest.is_empty() {
        return Err(ProfileRefusal::Line(number));
    }
    Ok(profile)
}

/// Reads the text of a profile, which has fewer than 2 to the power of 32 bytes.
///
/// `Line(n)` comes exactly where line n is the first that is refused.
pub fn read_profile(alloc: Global, text: &[u8]) -> Result<Profile, ProfileRefusal>
    requires { length text.now < 2 ^ 32 }
    ensures found { IfOk result (λ p. IsProfile p × (text.now ≡ profile_text p)) }
    ensures refused { IfErr result (Refuses text.now) }

    // The text of a profile is read as that profile, if memory suffices.
    ensures only { (p : Value) → IsProfile p → text.now ≡ profile_text p →
        MatchResult result (λ q. q ≡ p) (λ e. e ≡ ProfileRefusal.Memory) }
    ensures line { (n : ℕ) → FirstBad text.now n →
        MatchResult result (λ _. ⊥) (λ e. (e ≡ ProfileRefusal.Line n) ⊎ (e ≡ ProfileRefusal.Memory)) }
{
    numbers_are_read_as_they_are_written();
    parts_are_read_where_they_stand();
    read_lines(alloc, text)
}
