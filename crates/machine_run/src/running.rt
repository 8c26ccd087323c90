// Runs of a machine over a source and a sink.
ghost use Rattle.std.specs.Prelude.{◌≡◌, ◌^◌, ◌<◌, ◌≤◌, ℕ, List, [], Some, None, Ok};
ghost use Rattle.halo_outside.specs.Seen.{Rose, TellsAlike};
ghost use Rattle.machine_run.specs.Runs.{Draws, Ran, EndsAs, WritesAll};
ghost use Rattle.machine_run.specs.Machines.{ending_of};
ghost use Rattle.machine_run.specs.Serving.{Holds, Finishes};

use crate::RunEnd;
use crate::pending::Pending;
use crate::serving::{Cut, serve};
use crate::traits::Machine;
use halo_outside::{Sink, Source};
use machine_spec::Ending;
use std::alloc::AllocError;

/// Runs the machine for at most so many steps, with its input from `input` and its output to `out`.
///
/// `Exited` counts its own step, `Illegal` and `Fault` count the steps before them, and `Steps` says
/// that the machine still runs after that many. Where a step lacks memory, the machine, the input and `out`
/// are as the steps before it left them. Output is written in pieces of 4096 bytes, and what is
/// left of it at the end, however the run ends. After `ReadFault` the machine waits with what it was
/// fed, and what it wrote before is on `out`, unless that failed too. After `WriteFault` it stands
/// between two steps, and `out` has some of the first bytes that it wrote.
pub fn run<M: Machine, I: Source, O: Sink>(
    machine: &mut M,
    steps: u32,
    input: &mut I,
    out: &mut O,
) -> Result<RunEnd, AllocError>
    requires runs { ending_of M.rules (M.seen machine.old).machine ≡ Ending.Running }
    requires goes { (M.seen machine.old).waits ≡ None }
    requires lasts { steps ≤ M.lasts machine.old }
    ensures run { (left : List ℕ) → (I.seen input.old).told ≡ Some left
        → Ran M.rules result steps (M.seen machine.old).machine left (M.seen machine.new)
        (I.seen input.new).told (WritesAll result (O.seen out.old) (O.seen out.new)) }
    ensures ends { EndsAs M.rules result steps (M.seen machine.new) }
    ensures read_fault { result ≡ Ok RunEnd.ReadFault
        → Rose (I.seen input.old).faults (I.seen input.new).faults }
    ensures write_fault { result ≡ Ok RunEnd.WriteFault
        → Rose (O.seen out.old).faults (O.seen out.new).faults }
    ensures input_tells { TellsAlike (I.seen input.old).told (I.seen input.new).told }
    ensures input_later { (I.seen input.old).faults ≤ (I.seen input.new).faults }
    ensures more { (I.seen input.old).taken ≤ (I.seen input.new).taken }
    ensures counted { (left : List ℕ) → (I.seen input.old).told ≡ Some left
        → (I.seen input.old).taken < 2 ^ 64
        → Draws left (I.seen input.new).told (I.seen input.old).taken (I.seen input.new).taken }
    ensures out_tells { TellsAlike (O.seen out.old).told (O.seen out.new).told }
    ensures out_later { (O.seen out.old).faults ≤ (O.seen out.new).faults }
{
    let mut pending = Pending::new();
    let end = run_turns(machine, steps, &mut pending, input, out);
    finish(end, &mut pending, out)
}

/// Runs the machine, with what it wrote last left in the buffer.
fn run_turns<M: Machine, I: Source, O: Sink>(
    machine: &mut M,
    steps: u32,
    pending: &mut Pending,
    input: &mut I,
    out: &mut O,
) -> Result<RunEnd, AllocError>
    requires runs { ending_of M.rules (M.seen machine.old).machine ≡ Ending.Running }
    requires goes { (M.seen machine.old).waits ≡ None }
    requires lasts { steps ≤ M.lasts machine.old }
    requires empty { pending.old ≡ [] }
    ensures run { (left : List ℕ) → (I.seen input.old).told ≡ Some left
        → Ran M.rules result steps (M.seen machine.old).machine left (M.seen machine.new)
        (I.seen input.new).told
        (Holds result (O.seen out.old).told (O.seen out.new).told pending.new) }
    ensures ends { EndsAs M.rules result steps (M.seen machine.new) }
    ensures read_fault { result ≡ Ok RunEnd.ReadFault
        → Rose (I.seen input.old).faults (I.seen input.new).faults }
    ensures write_fault { result ≡ Ok RunEnd.WriteFault
        → Rose (O.seen out.old).faults (O.seen out.new).faults }
    ensures input_tells { TellsAlike (I.seen input.old).told (I.seen input.new).told }
    ensures input_later { (I.seen input.old).faults ≤ (I.seen input.new).faults }
    ensures more { (I.seen input.old).taken ≤ (I.seen input.new).taken }
    ensures counted { (left : List ℕ) → (I.seen input.old).told ≡ Some left
        → (I.seen input.old).taken < 2 ^ 64
        → Draws left (I.seen input.new).told (I.seen input.old).taken (I.seen input.new).taken }
    ensures out_tells { TellsAlike (O.seen out.old).told (O.seen out.new).told }
    ensures out_later { (O.seen out.old).faults ≤ (O.seen out.new).faults }
{
    let mut taken = 0;
    while taken < steps {
        taken += machine.run_quietly(steps - taken);
        if taken == steps {
            break;
        }
        match serve(machine, pending, input, out) {
            Ok(()) => {}
            Err(Cut::AtRead) => return Ok(RunEnd::ReadFault),
            Err(Cut::AtWrite) => return Ok(RunEnd::WriteFault),
            Err(Cut::NoMemory) => return Err(AllocError),
        }
        match machine.ending() {
            Ending::Running => taken += 1,
            Ending::Exit(status) => {
                return Ok(RunEnd::Exited {
                    status,
                    steps: taken + 1,
                });
            }
            Ending::Illegal(at) => return Ok(RunEnd::Illegal { at, steps: taken }),
            Ending::Fault { kind, at } => {
                return Ok(RunEnd::Fault {
                    kind,
                    at,
                    steps: taken,
                });
            }
        }
    }
    Ok(RunEnd::Steps)
}

/// Writes what is left in the buffer, but not after a failed write.
fn finish<O: Sink>(
    end: Result<RunEnd, AllocError>,
    pending: &mut Pending,
    out: &mut O,
) -> Result<RunEnd, AllocError>
    ensures ends { Finishes end result (O.seen out.old) (O.seen out.new) pending.old }
    ensures tells { TellsAlike (O.seen out.old).told (O.seen out.new).told }
    ensures later { (O.seen out.old).faults ≤ (O.seen out.new).faults }
{
    match end {
        Ok(RunEnd::WriteFault) => Ok(RunEnd::WriteFault),
        Ok(RunEnd::ReadFault) => {
            let _ = pending.flush(out);
            Ok(RunEnd::ReadFault)
        }
        whole => match pending.flush(out) {
            Ok(()) => whole,
            Err(_) => Ok(RunEnd::WriteFault),
        },
    }
}
