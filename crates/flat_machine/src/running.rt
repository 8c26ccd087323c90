// Runs of the flat machine over a source and a sink.
ghost use Rattle.std.specs.Prelude.{◌≡◌, ◌^◌, ◌<◌, ◌≤◌, ℕ, List, Some, None};
ghost use Rattle.halo_outside.specs.Seen.{Rose, TellsAlike};
ghost use Rattle.machine_run.specs.Runs.{Draws, Writes};
ghost use Rattle.flat_machine.specs.Runs.{Ran, EndsAs};

use crate::machine::Flat;
use halo_outside::{Sink, Source};
use machine_run::{RunEnd, run};
use machine_spec::Ending;

/// Runs the machine for at most so many steps, with its input from `input` and its output to `out`.
///
/// `Exited` counts its own step, `Illegal` and `Fault` count the steps before them, and `Steps` says
/// that the machine still runs after that many. Output is written in pieces of 4096 bytes, and what is
/// left of it at the end, however the run ends. After `ReadFault` the machine waits with what it was
/// fed, and what it wrote before is on `out`, unless that failed too. After `WriteFault` it stands
/// between two steps, and `out` has some of the first bytes that it wrote.
pub fn run_flat<I: Source, O: Sink>(
    machine: &mut Flat,
    steps: u32,
    input: &mut I,
    out: &mut O,
) -> RunEnd
    requires runs { machine.old.machine.ending ≡ Ending.Running }
    requires goes { machine.old.waits ≡ None }
    ensures run { (left : List ℕ) → (I.seen input.old).told ≡ Some left
        → Ran result steps machine.old.machine left machine.new (I.seen input.new).told
        (Writes result (O.seen out.old) (O.seen out.new)) }
    ensures ends { EndsAs result steps machine.new }
    ensures read_fault { result ≡ RunEnd.ReadFault
        → Rose (I.seen input.old).faults (I.seen input.new).faults }
    ensures write_fault { result ≡ RunEnd.WriteFault
        → Rose (O.seen out.old).faults (O.seen out.new).faults }
    ensures input_tells { TellsAlike (I.seen input.old).told (I.seen input.new).told }
    ensures input_later { (I.seen input.old).faults ≤ (I.seen input.new).faults }
    ensures more { (I.seen input.old).taken ≤ (I.seen input.new).taken }
    ensures counted { (left : List ℕ) → (I.seen input.old).told ≡ Some left
        → (I.seen input.old).taken < 2 ^ 64
        → Draws left (I.seen input.new).told (I.seen input.old).taken (I.seen input.new).taken }
    ensures out_tells { TellsAlike (O.seen out.old).told (O.seen out.new).told }
    ensures out_later { (O.seen out.old).faults ≤ (O.seen out.new).faults }
{
    match run(machine, steps, input, out) {
        Ok(end) => end,
        Err(_) => unreachable!(),
    }
}
