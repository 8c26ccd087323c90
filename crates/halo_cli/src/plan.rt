// `plan PROFILE`: reads the profile, makes a plan of it and writes the plan's text.
ghost use Rattle.std.specs.Prelude.{◌≡◌, ◌⊎◌, ◌≤◌, ◌<◌, ◌^◌, List, ℕ, map, length, codes, string_bytes, IfOk, IfErr};
ghost use Rattle.halo_outside.specs.Seen.{FilesSeen, SourceSeen, SinkSeen};
ghost use Rattle.endings.specs.declared.endings.Ending.TheVariants.{Done};
ghost use Rattle.halo_words.specs.Table.{the_table};
ghost use Rattle.halo_words.specs.Grammar.{AsksFor};
ghost use Rattle.halo_cli.specs.Options.{policies_of};
ghost use Rattle.halo_cli.specs.Valid.{Passes};
ghost use Rattle.halo_cli.specs.Reads.{AreFirstReads, HasReadCause};
ghost use Rattle.halo_cli.specs.Plan.{ProfileComes, PlanBrings, Plans, PlanWritten, plan_reads, plan_entry};
ghost use Rattle.halo_cli.specs.Writing.{IsStop};
ghost use Rattle.halo_cli.specs.World.{OnlyReads};
ghost use Rattle.halo_cli.specs.Ends.{EndsOf};

use crate::limits::PROFILE_LIMIT;
use crate::options::{area_of, find_policy, options_of};
use endings::{BadProfile, Ending};
use group_policy::{Cut, Policy, Rule};
use grouping::Options;
use halo_outside::{Failed, FileFault, Files, Sink, write_all};
use halo_words::{Values, what_a_line_gives_fits};
use plan_core::{Area, write_plan};
use plan_making::make_plan;
use profile_text::{ProfileRefusal, read_profile};
use std::alloc::Global;

/// Writes the text of a plan of the operand, a profile, to `out`, by the area and the policy of the options. No input
/// is read.
pub fn plan_file<F: Files, O: Sink>(
    alloc: Global,
    values: &Values<'_>,
    policies: &[Policy],
    files: &mut F,
    out: &mut O,
) -> Ending
    requires asks { (words : List (List ℕ)) × AsksFor the_table words values.now }
    requires word { values.now.word ≡ codes "plan" }
    requires passes { Passes (map (λ policy. string_bytes policy.name) policies.now) values.now }
    ensures { (input : SourceSeen) → EndsOf (plan_entry (policies_of (λ policy. string_bytes policy.name)
        (λ policy cut answer. ⟦<Rule as Fn(Cut) -> i128>⟧.post policy.rule cut answer) policies.now)) values.now.given
        (record { files = F.seen files.old; input = input; out = O.seen out.old })
        (record { files = F.seen files.new; input = input; out = O.seen out.new }) result }
{
    what_a_line_gives_fits();
    let options = options_of(values);
    let Some(place) = find_policy(policies, values.option("policy")) else {
        unreachable!()
    };
    let policy = &policies[place];
    match read_and_plan(
        alloc,
        values.operand(0),
        area_of(values),
        options,
        policy,
        files,
    ) {
        Err(ending) => ending,
        Ok(text) => match write_all(out, &text) {
            Ok(()) => Ending::Done,
            Err(Failed) => Ending::WriteFault,
        },
    }
}

// The text of a plan of the profile of this name, or how the command ends without one.
fn read_and_plan<F: Files>(
    alloc: Global,
    name: &str,
    area: Area,
    options: Options,
    policy: &Policy,
    files: &mut F,
) -> Result<Vec<u8>, Ending>
    requires tolerance { options.tolerance ≤ 150 }
    requires least_edge { (1 ≤ options.least_edge) × (options.least_edge ≤ 2 ^ 44) }
    ensures reads { OnlyReads (F.seen files.old) (F.seen files.new) }
    ensures whole { IfOk result (λ text. (ending : Ending)
        → AreFirstReads (plan_reads name.now) (F.seen files.old) (F.seen files.new) ending) }
    ensures first { IfErr result (AreFirstReads (plan_reads name.now) (F.seen files.old) (F.seen files.new)) }
    ensures fits { IfOk result (λ text. PlanBrings name.now (F.seen files.old) (F.seen files.new) Done) }
    ensures made { IfOk result (λ text.
        PlanWritten (λ cut answer. ⟦<Rule as Fn(Cut) -> i128>⟧.post policy.now.rule cut answer)
        area options name.now (F.seen files.old) (F.seen files.new) text.items) }
    ensures stops { IfErr result IsStop }
    ensures cause { IfErr result (HasReadCause
        (PlanBrings name.now (F.seen files.old) (F.seen files.new)) (F.seen files.old) (F.seen files.new)) }
{
    let profile = match files.read(alloc, name, PROFILE_LIMIT) {
        Ok(profile) => profile,
        Err(FileFault::Failed) => return Err(Ending::ReadFault),
        Err(FileFault::TooLong) => return Err(Ending::Profile(BadProfile::TooLong)),
        Err(FileFault::Memory) => return Err(Ending::Memory),
    };
    plan_of_text(alloc, &profile, area, options, policy)
}

// The text of a plan of the profile of a text, or how the command ends without one.
fn plan_of_text(
    alloc: Global,
    text: &[u8],
    area: Area,
    options: Options,
    policy: &Policy,
) -> Result<Vec<u8>, Ending>
    requires length { length text.now < 2 ^ 32 }
    requires tolerance { options.tolerance ≤ 150 }
    requires least_edge { (1 ≤ options.least_edge) × (options.least_edge ≤ 2 ^ 44) }
    ensures comes { IfOk result (λ plan. ProfileComes text.now Done) }
    ensures made { IfOk result (λ plan.
        Plans (λ cut answer. ⟦<Rule as Fn(Cut) -> i128>⟧.post policy.now.rule cut answer)
        area options text.now plan.items) }
    ensures stops { IfErr result IsStop }
    ensures cause { IfErr result (λ e. ProfileComes text.now e ⊎ (e ≡ Ending.Memory)) }
{
    let profile = match read_profile(alloc, text) {
        Ok(profile) => profile,
        Err(ProfileRefusal::Memory) => return Err(Ending::Memory),
        Err(why) => return Err(Ending::Profile(BadProfile::Text(why))),
    };
    let planned = match make_plan(alloc, &profile, area, &options, policy) {
        Ok(planned) => planned,
        Err(_) => return Err(Ending::Memory),
    };
    match write_plan(alloc, &planned.plan) {
        Ok(text) => Ok(text),
        Err(_) => Err(Ending::Memory),
    }
}
