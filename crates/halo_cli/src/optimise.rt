// `optimise [OPTION].. FILE`: profiles the file's run, makes a plan of the profile, and writes the file, rewritten so.
ghost use Rattle.std.specs.Prelude.{◌≡◌, ◌≤◌, List, ℕ, length, map, codes, string_bytes};
ghost use Rattle.profile_text.specs.Profile.{IsProfile};
ghost use Rattle.exec_image.specs.Images.{IsAccepted};
ghost use Rattle.plan_making.specs.Plans.{AreNearSites};
ghost use Rattle.halo_words.specs.Table.{the_table};
ghost use Rattle.halo_words.specs.Grammar.{AsksFor};
ghost use Rattle.plan_core.specs.Plan.{granules};
ghost use Rattle.halo_cli.specs.Options.{area_in, options_in, policies_of};
ghost use Rattle.halo_cli.specs.Valid.{Passes};
ghost use Rattle.halo_cli.specs.World.{OnlyWrites};
ghost use Rattle.halo_cli.specs.Writing.{WritesOrLacks};
ghost use Rattle.halo_cli.specs.Optimise.{IsOptimised, optimise_entry};
ghost use Rattle.halo_cli.specs.Ends.{EndsOf};

use crate::options::{area_of, find_policy, options_of};
use crate::profiling::{ProfiledFile, profile_operand};
use endings::Ending;
use group_policy::{Cut, Policy, Rule};
use halo_outside::{Failed, Files, Sink, Source, write_all};
use halo_words::{Values, what_a_line_gives_fits};
use optimiser::optimise;
use std::alloc::Global;

/// Writes the operand, a file, rewritten by a plan of the profile of its run on this input, to `out`. The run is one
/// under the options' area alone, and the policy of the options makes the groups. What the program writes is dropped.
pub fn optimise_file<F: Files, I: Source, O: Sink>(
    alloc: Global,
    values: &Values<'_>,
    policies: &[Policy],
    files: &mut F,
    input: &mut I,
    out: &mut O,
) -> Ending
    requires asks { (words : List (List ℕ)) × AsksFor the_table words values.now }
    requires word { values.now.word ≡ codes "optimise" }
    requires passes { Passes (map (λ policy. string_bytes policy.name) policies.now) values.now }
    ensures { EndsOf (optimise_entry (policies_of (λ policy. string_bytes policy.name)
        (λ policy cut answer. ⟦<Rule as Fn(Cut) -> i128>⟧.post policy.rule cut answer) policies.now)) values.now.given
        (record { files = F.seen files.old; input = I.seen input.old; out = O.seen out.old })
        (record { files = F.seen files.new; input = I.seen input.new; out = O.seen out.new }) result }
{
    what_a_line_gives_fits();
    let Some(place) = find_policy(policies, values.option("policy")) else {
        unreachable!()
    };
    match profile_operand(alloc, values, files, input) {
        Err(ending) => ending,
        Ok(profiled) => write_optimised(alloc, values, &policies[place], &profiled, out),
    }
}

// Writes the new file of a file that was profiled.
fn write_optimised<O: Sink>(
    alloc: Global,
    values: &Values<'_>,
    policy: &Policy,
    profiled: &ProfiledFile,
    out: &mut O,
) -> Ending
    requires least_edge { 1 ≤ (options_in values.now.given).least_edge }
    requires area { granules (area_in values.now.given) ≤ 1048576 }
    requires accepted { IsAccepted profiled.now.file.items }
    requires short { length profiled.now.file.items ≤ 33554432 }
    requires profile { IsProfile profiled.now.profiled.profile }
    requires near { AreNearSites profiled.now.file.items profiled.now.profiled.profile.contexts }
    ensures writes { OnlyWrites (O.seen out.old) (O.seen out.new) }
    ensures wrote { WritesOrLacks (IsOptimised
        (λ cut answer. ⟦<Rule as Fn(Cut) -> i128>⟧.post policy.now.rule cut answer) values.now.given
        profiled.now.file.items profiled.now.profiled.profile) (O.seen out.old) (O.seen out.new) result }
{
    let options = options_of(values);
    let made = match optimise(
        alloc,
        &profiled.file,
        &profiled.profiled.profile,
        area_of(values),
        &options,
        policy,
    ) {
        Ok(made) => made,
        Err(_) => return Ending::Memory,
    };
    match write_all(out, &made.file) {
        Ok(()) => Ending::Done,
        Err(Failed) => Ending::WriteFault,
    }
}
