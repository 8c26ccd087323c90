// Runs of the symbol machine over a source and a sink.
ghost use Rattle.std.specs.Prelude.{◌≡◌, ◌+◌, ◌^◌, ◌<◌, ◌≤◌, ℕ, List, Some, None, length};
ghost use Rattle.halo_outside.specs.Seen.{Rose, TellsAlike};
ghost use Rattle.machine_run.specs.Runs.{Draws, WritesAll};
ghost use Rattle.sym_machine.specs.Ends.{run_end};
ghost use Rattle.sym_machine.specs.Runs.{EndsAs, Ran};
ghost use Rattle.sym_machine.specs.Seen.{seen_by_run};

use crate::SymEnd;
use crate::machine::SymMachine;
use halo_outside::{Sink, Source};
use machine_run::{RunEnd, run};
use machine_spec::Ending;
use std::alloc::AllocError;

/// The end of a run of the symbol machine.
fn end_of(end: Result<RunEnd, AllocError>) -> SymEnd
    ensures { run_end result ≡ end }
{
    match end {
        Ok(RunEnd::Exited { status, steps }) => SymEnd::Exited { status, steps },
        Ok(RunEnd::Illegal { at, steps }) => SymEnd::Illegal { at, steps },
        Ok(RunEnd::Fault { kind, at, steps }) => SymEnd::Fault { kind, at, steps },
        Ok(RunEnd::Steps) => SymEnd::Steps,
        Ok(RunEnd::ReadFault) => SymEnd::ReadFault,
        Ok(RunEnd::WriteFault) => SymEnd::WriteFault,
        Err(AllocError) => SymEnd::Memory,
    }
}

/// Runs the machine for at most so many steps, with its input from `input` and its output to `out`.
///
/// `Exited` counts its own step, `Illegal` and `Fault` count the steps before them, and `Steps` says
/// that the machine still runs after that many. Output is written in pieces of 4096 bytes, and what is
/// left of it at the end, however the run ends. After `ReadFault` the machine waits with what it was
/// fed, and what it wrote before is on `out`, unless that failed too. After `WriteFault` it stands
/// between two steps, and `out` has some of the first bytes that it wrote. After `Memory` the machine, the
/// input and `out` are as the steps before the one that lacked memory left them.
pub fn run_symbols<I: Source, O: Sink>(
    machine: &mut SymMachine<'_>,
    steps: u32,
    input: &mut I,
    out: &mut O,
) -> SymEnd
    requires runs { machine.old.program.machine.ending ≡ Ending.Running }
    requires goes { machine.old.waits ≡ None }
    requires blocks { length machine.old.program.machine.at + steps ≤ 4294967295 }
    ensures run { (left : List ℕ) → (I.seen input.old).told ≡ Some left
        → Ran result steps machine.old.program left (seen_by_run machine.new) (I.seen input.new).told
        (WritesAll (run_end result) (O.seen out.old) (O.seen out.new)) }
    ensures ends { EndsAs result steps (seen_by_run machine.new) }
    ensures read_fault { result ≡ SymEnd.ReadFault
        → Rose (I.seen input.old).faults (I.seen input.new).faults }
    ensures write_fault { result ≡ SymEnd.WriteFault
        → Rose (O.seen out.old).faults (O.seen out.new).faults }
    ensures input_tells { TellsAlike (I.seen input.old).told (I.seen input.new).told }
    ensures input_later { (I.seen input.old).faults ≤ (I.seen input.new).faults }
    ensures more { (I.seen input.old).taken ≤ (I.seen input.new).taken }
    ensures counted { (left : List ℕ) → (I.seen input.old).told ≡ Some left
        → (I.seen input.old).taken < 2 ^ 64
        → Draws left (I.seen input.new).told (I.seen input.old).taken (I.seen input.new).taken }
    ensures out_tells { TellsAlike (O.seen out.old).told (O.seen out.new).told }
    ensures out_later { (O.seen out.old).faults ≤ (O.seen out.new).faults }
{
    end_of(run(machine, steps, input, out))
}
