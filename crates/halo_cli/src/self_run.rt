// `self N`: profiles the generated program, rewrites it by a plan of its profile, and runs it again.
ghost use Rattle.std.specs.Prelude.{◌≡◌, ◌⊎◌, ◌≤◌, ◌<◌, ◌^◌, ◌++◌, List, [], ℕ, length, sum_by, map, codes};
ghost use Rattle.std.specs.Prelude.{string_bytes, IfOk, IfErr, OnOk};
ghost use Rattle.halo_outside.specs.Seen.{FilesSeen, SourceSeen};
ghost use Rattle.elf_read.specs.Elf.{IsReadable};
ghost use Rattle.flat_spec.specs.Machine.{start as start_of};
ghost use Rattle.flat_machine.specs.Seen.{between};
ghost use Rattle.halo_words.specs.Table.{the_table};
ghost use Rattle.halo_words.specs.Grammar.{AsksFor};
ghost use Rattle.halo_cli.specs.Options.{policies_of};
ghost use Rattle.halo_cli.specs.Valid.{Passes};
ghost use Rattle.halo_cli.specs.SelfRun.{IsNewEnd, SelfEndsBy, SelfWritten, number_between, self_entry, self_text};
ghost use Rattle.halo_cli.specs.Writing.{IsStop};
ghost use Rattle.halo_cli.specs.Profiling.{ComesBehind};
ghost use Rattle.halo_cli.specs.Ends.{EndsOf};

use crate::generate::nodes_of;
use crate::options::{find_policy, policy_name};
use crate::profiling::profile_of;
use crate::run::ending_of;
use elf_read::{ElfRefusal, read_elf};
use endings::Ending;
use flat_machine::{Flat, run_flat, start};
use flat_mem::load;
use group_policy::{Cut, Policy, Rule};
use grouping::Options;
use halo_outside::{Failed, Sink, SureSink, SureSource, write_all};
use halo_words::{Values, what_a_line_gives_fits};
use heap_trace::{Profiled, runs_have_legal_events};
use optimiser::{Optimised, every_grant_is_counted_once, optimise, total_grants};
use plan_core::Area;
use rv_build::generate;
use std::alloc::{AllocError, Global};
use text_fields::push_decimal;

/// The area and the options that stand where a line gives none.
const AREA: Area = Area {
    chunks: 64,
    log_chunk: 8,
    fallback: 65536,
};

const OPTIONS: Options = Options {
    tolerance: 50,
    least_edge: 1,
};

/// The distance of the profile, in bytes.
const DISTANCE: u32 = 4;

/// The most steps of a run.
const STEPS: u32 = u32::MAX;

/// Writes what becomes of the generated program with as many nodes in each list as the operand says to `out`: the end
/// of its run, how many blocks were granted, how many groups and rows its plan has, and the end of the run of its new
/// file. No file and no input is read.
pub fn self_run<O: Sink>(
    alloc: Global,
    values: &Values<'_>,
    policies: &[Policy],
    out: &mut O,
) -> Ending
    requires asks { (words : List (List ℕ)) × AsksFor the_table words values.now }
    requires word { values.now.word ≡ codes "self" }
    requires passes { Passes (map (λ policy. string_bytes policy.name) policies.now) values.now }
    ensures { (files : FilesSeen) (input : SourceSeen) → EndsOf (self_entry
        (policies_of (λ policy. string_bytes policy.name)
        (λ policy cut answer. ⟦<Rule as Fn(Cut) -> i128>⟧.post policy.rule cut answer) policies.now)) values.now.given
        (record { files = files; input = input; out = O.seen out.old })
        (record { files = files; input = input; out = O.seen out.new }) result }
{
    what_a_line_gives_fits();
    let Some(place) = find_policy(policies, policy_name(values)) else {
        unreachable!()
    };
    match report(alloc, nodes_of(values), &policies[place]) {
        Err(ending) => ending,
        Ok(text) => match write_all(out, &text) {
            Ok(()) => Ending::Done,
            Err(Failed) => Ending::WriteFault,
        },
    }
}

// The lines, or how the command ends without them.
fn report(alloc: Global, nodes: u64, policy: &Policy) -> Result<Vec<u8>, Ending>
    requires least { 1 ≤ nodes }
    requires most { nodes ≤ 30000 }
    ensures written { IfOk result (λ text.
        SelfWritten (λ cut answer. ⟦<Rule as Fn(Cut) -> i128>⟧.post policy.now.rule cut answer) nodes text.items) }
    ensures stops { IfErr result IsStop }
    ensures cause { IfErr result (λ e.
        SelfEndsBy (λ cut answer. ⟦<Rule as Fn(Cut) -> i128>⟧.post policy.now.rule cut answer) nodes e
        ⊎ (e ≡ Ending.Memory)) }
{
    every_grant_is_counted_once();
    runs_have_legal_events();
    let Ok(file) = generate(alloc, nodes) else {
        return Err(Ending::Memory);
    };
    let mut input = SureSource::new(Vec::new(alloc));
    let source = match profile_of(alloc, &file, AREA, DISTANCE, STEPS, &mut input) {
        Ok(source) => source,
        Err(ending) => return Err(ending),
    };
    let made = match optimise(alloc, &file, &source.profile, AREA, &OPTIONS, policy) {
        Ok(made) => made,
        Err(AllocError) => return Err(Ending::Memory),
    };
    let status = match exit_of(alloc, &made.file) {
        Ok(status) => status,
        Err(ending) => return Err(ending),
    };
    match lines(alloc, nodes, &source, &made, status) {
        Ok(text) => Ok(text),
        Err(AllocError) => Err(Ending::Memory),
    }
}

// The status with which a new file exits on an empty input, or how the command ends without it.
fn exit_of(alloc: Global, file: &[u8]) -> Result<u8, Ending>
    requires short { length file.now < 2 ^ 32 }
    requires readable { IsReadable file.now }
    ensures exits { IfOk result (λ status. (steps : ℕ) × IsNewEnd file.now (Ending.Exited status steps)) }
    ensures stops { IfErr result IsStop }
    ensures cause { IfErr result (λ e. ComesBehind (IsNewEnd file.now) e ⊎ (e ≡ Ending.Memory)) }
{
    match end_of(alloc, file) {
        Ok(Ending::Exited { status, .. }) => Ok(status),
        Ok(ending) => Err(ending),
        Err(AllocError) => Err(Ending::Memory),
    }
}

// How the run of a new file ends on an empty input.
fn end_of(alloc: Global, file: &[u8]) -> Result<Ending, AllocError>
    requires short { length file.now < 2 ^ 32 }
    requires readable { IsReadable file.now }
    ensures { IfOk result (IsNewEnd file.now) }
{
    let mut machine = load_readable(alloc, file)?;
    let mut input = SureSource::new(Vec::new(alloc));
    let mut out = SureSink::new();
    let end = run_flat(&mut machine, STEPS, &mut input, &mut out);
    Ok(ending_of(end, STEPS))
}

// The machine that is about to run a readable file.
fn load_readable(alloc: Global, file: &[u8]) -> Result<Flat, AllocError>
    requires short { length file.now < 2 ^ 32 }
    requires readable { IsReadable file.now }
    ensures { IfOk result (λ machine. machine ≡ between (start_of file.now) []) }
{
    let elf = match read_elf(alloc, file) {
        Ok(elf) => elf,
        Err(ElfRefusal::Memory) => return Err(AllocError),
        Err(_) => unreachable!(),
    };
    let memory = load(alloc, &elf, file)?;
    Ok(start(memory, elf.entry))
}

// The lines, by what was made of the source.
fn lines(
    alloc: Global,
    nodes: u64,
    source: &Profiled,
    made: &Optimised,
    status: u8,
) -> Result<Vec<u8>, AllocError>
    requires few { sum_by (λ node. node.grants) source.now.profile.graph.nodes < 2 ^ 64 }
    ensures { IfOk result (λ text. text.items ≡ self_text nodes source.now.status source.now.steps
        (sum_by (λ node. node.grants) source.now.profile.graph.nodes) (length made.now.groups)
        (length made.now.plan.rows) status) }
{
    let mut out = Vec::new(alloc);
    push_number(alloc, &mut out, b"self ", nodes, b"\n")?;
    push_number(
        alloc,
        &mut out,
        b"source exit ",
        u64::from(source.status),
        b" after ",
    )?;
    push_number(alloc, &mut out, b"", u64::from(source.steps), b" steps\n")?;
    let grants = total_grants(&source.profile);
    push_number(alloc, &mut out, b"grants ", grants, b"\n")?;
    let groups = made.groups.as_slice().len() as u64;
    push_number(alloc, &mut out, b"groups ", groups, b"\n")?;
    let rows = made.plan.rows.as_slice().len() as u64;
    push_number(alloc, &mut out, b"rows ", rows, b"\n")?;
    push_number(alloc, &mut out, b"result exit ", u64::from(status), b"\n")?;
    Ok(out)
}

// Writes a number between two texts.
#[tactic(auto, unfolding(crate::specs::SelfRun::number_between))]
fn push_number(
    alloc: Global,
    out: &mut Vec<u8>,
    before: &[u8],
    number: u64,
    behind: &[u8],
) -> Result<(), AllocError>
    ensures { OnOk result (out.new.items ≡ out.old.items ++ number_between before.now number behind.now) }
{
    out.extend_from_slice(before)?;
    push_decimal(alloc, out, number)?;
    out.extend_from_slice(behind)?;
    Ok(())
}
