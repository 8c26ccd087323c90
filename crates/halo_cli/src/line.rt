// A line of words, from its words to its ending.
ghost use Rattle.std.specs.Prelude.{◌≡◌, ℕ, List, map, string_bytes};
ghost use Rattle.halo_outside.specs.Seen.{FilesSeen, SourceSeen, SinkSeen};
ghost use Rattle.halo_words.specs.Table.{the_table};
ghost use Rattle.halo_words.specs.Grammar.{texts, AsksFor};
ghost use Rattle.halo_cli.specs.Options.{policies_of};
ghost use Rattle.halo_cli.specs.Valid.{Passes};
ghost use Rattle.halo_cli.specs.Commands.{entry_in};
ghost use Rattle.halo_cli.specs.Ends.{EndsOf, LineEnds};
ghost use Rattle.halo_cli.specs.Stops.{stop_ending};

use crate::generate::generate_file;
use crate::optimise::optimise_file;
use crate::options::last_wrong;
use crate::plan::plan_file;
use crate::profile::profile_file;
use crate::rewrite::rewrite_file;
use crate::run::run_file;
use crate::self_run::self_run;
use crate::show::show_file;
use crate::symbols::symbols_file;
use endings::Ending;
use group_policy::{Cut, Policy, Rule};
use halo_outside::{Files, Sink, Source};
use halo_words::{Stop, Values, read_words};
use std::alloc::Global;

/// Runs the command for which the words ask.
pub fn run_line<F: Files, I: Source, O: Sink>(
    alloc: Global,
    words: &[String],
    policies: &[Policy],
    files: &mut F,
    input: &mut I,
    out: &mut O,
) -> Ending
    ensures { LineEnds (policies_of (λ policy. string_bytes policy.name)
        (λ policy cut answer. ⟦<Rule as Fn(Cut) -> i128>⟧.post policy.rule cut answer) policies.now)
        (texts words.now)
        (record { files = F.seen files.old; input = I.seen input.old; out = O.seen out.old })
        (record { files = F.seen files.new; input = I.seen input.new; out = O.seen out.new }) result }
{
    match read_words(alloc, words) {
        Err(stop) => stopped(stop),
        Ok(values) => run_values(alloc, words, &values, policies, files, input, out),
    }
}

// How a line ends that stopped before its command.
fn stopped(stop: Stop) -> Ending
    ensures { result ≡ stop_ending stop }
{
    match stop {
        Stop::Usage(place) => Ending::Usage(place),
        Stop::Memory => Ending::Memory,
    }
}

// Runs the command of a line of the table, where the line is taken.
fn run_values<F: Files, I: Source, O: Sink>(
    alloc: Global,
    words: &[String],
    values: &Values<'_>,
    policies: &[Policy],
    files: &mut F,
    input: &mut I,
    out: &mut O,
) -> Ending
    requires { AsksFor the_table (texts words.now) values.now }
    ensures { LineEnds (policies_of (λ policy. string_bytes policy.name)
        (λ policy cut answer. ⟦<Rule as Fn(Cut) -> i128>⟧.post policy.rule cut answer) policies.now)
        (texts words.now)
        (record { files = F.seen files.old; input = I.seen input.old; out = O.seen out.old })
        (record { files = F.seen files.new; input = I.seen input.new; out = O.seen out.new }) result }
{
    match last_wrong(words, values, policies) {
        Some(place) => Ending::Usage(place),
        None => run_command(alloc, values, policies, files, input, out),
    }
}

// Runs the command of a line.
fn run_command<F: Files, I: Source, O: Sink>(
    alloc: Global,
    values: &Values<'_>,
    policies: &[Policy],
    files: &mut F,
    input: &mut I,
    out: &mut O,
) -> Ending
    requires asks { (words : List (List ℕ)) × AsksFor the_table words values.now }
    requires passes { Passes (map (λ policy. string_bytes policy.name) policies.now) values.now }
    ensures { EndsOf (entry_in (policies_of (λ policy. string_bytes policy.name)
        (λ policy cut answer. ⟦<Rule as Fn(Cut) -> i128>⟧.post policy.rule cut answer) policies.now) values.now)
        values.now.given
        (record { files = F.seen files.old; input = I.seen input.old; out = O.seen out.old })
        (record { files = F.seen files.new; input = I.seen input.new; out = O.seen out.new }) result }
{
    match values.word() {
        "rewrite" => rewrite_file(alloc, values, files, out),
        "optimise" => optimise_file(alloc, values, policies, files, input, out),
        "run" => run_file(alloc, values, files, input, out),
        "symbols" => symbols_file(alloc, values, files, input, out),
        "profile" => profile_file(alloc, values, files, input, out),
        "plan" => plan_file(alloc, values, policies, files, out),
        "show" => show_file(alloc, values, files, out),
        "gen" => generate_file(alloc, values, out),
        "self" => self_run(alloc, values, policies, out),
        _ => unreachable!(),
    }
}
