// Turns that read from a source and write to a sink.
ghost use Rattle.std.specs.Prelude.{◌≡◌, ◌^◌, ◌<◌, ◌≤◌, ◌+◌, ℕ, List, [], Some, None, IsSome, OnOk, OnErr, IsErrOf};
ghost use Rattle.halo_outside.specs.Seen.{Rose, TellsAlike};
ghost use Rattle.machine_run.specs.Machines.{Input, ending_of, fed_with};
ghost use Rattle.machine_run.specs.Runs.{Draws, IsCutOff, MayLack};
ghost use Rattle.machine_run.specs.Serving.{IsFedPart, IsFedWhole, IsDone, Serves};

use crate::Stepped;
use crate::pending::Pending;
use crate::traits::Machine;
use halo_outside::{Failed, Sink, Source};
use machine_spec::Ending;

/// Why a run is cut off at a turn.
#[derive(Clone, Copy, Debug)]
pub enum Cut {
    /// A read failed.
    AtRead,
    /// A write failed.
    AtWrite,
    /// The step lacked memory.
    NoMemory,
}

/// Feeds a read of at most `len` bytes at which the machine waits from the source, until it has all that it
/// wants or nothing is left. The machine still waits then.
pub fn feed_from<M: Machine, I: Source>(
    machine: &mut M,
    len: u32,
    input: &mut I,
) -> Result<(), Failed>
    requires { (M.seen machine.old).waits ≡ Some (record { len = len; fed = 0 }) }
    ensures tells { TellsAlike (I.seen input.old).told (I.seen input.new).told }
    ensures later { (I.seen input.old).faults ≤ (I.seen input.new).faults }
    ensures more { (I.seen input.old).taken ≤ (I.seen input.new).taken }
    ensures counted { (left : List ℕ) → (I.seen input.old).told ≡ Some left
        → (I.seen input.old).taken < 2 ^ 64
        → Draws left (I.seen input.new).told (I.seen input.old).taken (I.seen input.new).taken }
    ensures waits { IsSome (M.seen machine.new).waits }
    ensures runs { ending_of M.rules (M.seen machine.new).machine
        ≡ ending_of M.rules (M.seen machine.old).machine }
    ensures lasts { M.lasts machine.new ≡ M.lasts machine.old }
    ensures fed { (m : M.State) → M.seen machine.old ≡ fed_with M.rules len m []
        → (bytes : List ℕ) × (M.seen machine.new ≡ fed_with M.rules len m bytes) }
    ensures whole { OnOk result ((m : M.State) (left : List ℕ) → M.seen machine.old ≡ fed_with M.rules len m []
        → (I.seen input.old).told ≡ Some left
        → IsFedWhole M.rules len m left (M.seen machine.new) (I.seen input.new).told) }
    ensures part { OnErr result ((m : M.State) (left : List ℕ) → M.seen machine.old ≡ fed_with M.rules len m []
        → (I.seen input.old).told ≡ Some left
        → IsFedPart M.rules len m left (M.seen machine.new) (I.seen input.new).told) }
    ensures failed { OnErr result (Rose (I.seen input.old).faults (I.seen input.new).faults) }
{
    let mut buffer = [0; 4096];
    let mut fed = 0;
    while fed < len {
        let most = ((len - fed) as usize).min(buffer.len());
        let count = input.read(&mut buffer[..most])?;
        if count == 0 {
            return Ok(());
        }
        machine.take_piece(&buffer[..count]);
        fed += count as u32;
    }
    Ok(())
}

/// Completes a read of at most `len` bytes at which the machine waits: it is fed from the source until it has
/// them all or nothing is left. After `Failed` it still waits, with what it was fed.
pub fn read_from<M: Machine, I: Source>(
    machine: &mut M,
    len: u32,
    input: &mut I,
) -> Result<(), Failed>
    requires { (M.seen machine.old).waits ≡ Some (record { len = len; fed = 0 }) }
    ensures tells { TellsAlike (I.seen input.old).told (I.seen input.new).told }
    ensures later { (I.seen input.old).faults ≤ (I.seen input.new).faults }
    ensures more { (I.seen input.old).taken ≤ (I.seen input.new).taken }
    ensures counted { (left : List ℕ) → (I.seen input.old).told ≡ Some left
        → (I.seen input.old).taken < 2 ^ 64
        → Draws left (I.seen input.new).told (I.seen input.old).taken (I.seen input.new).taken }
    ensures runs { OnErr result (ending_of M.rules (M.seen machine.new).machine
        ≡ ending_of M.rules (M.seen machine.old).machine) }
    ensures lasts { M.lasts machine.new ≡ M.lasts machine.old }
    ensures done { OnOk result ((m : M.State) (left : List ℕ) → M.rules.asks m ≡ Input len
        → M.seen machine.old ≡ fed_with M.rules len m [] → (I.seen input.old).told ≡ Some left
        → IsDone (M.rules.turn left m) (M.seen machine.new) (I.seen input.new).told
        × ((M.rules.turn left m).written ≡ [])) }
    ensures cut { OnErr result ((m : M.State) (left : List ℕ) → M.rules.asks m ≡ Input len
        → M.seen machine.old ≡ fed_with M.rules len m [] → (I.seen input.old).told ≡ Some left
        → IsCutOff M.rules m left (M.seen machine.new) (I.seen input.new).told) }
    ensures goes { OnOk result ((M.seen machine.new).waits ≡ None) }
    ensures waits { OnErr result (IsSome (M.seen machine.new).waits) }
    ensures failed { OnErr result (Rose (I.seen input.old).faults (I.seen input.new).faults) }
{
    feed_from(machine, len, input)?;
    machine.end_read();
    Ok(())
}

/// One turn, with its input from the source and its output to the sink.
pub fn serve<M: Machine, I: Source, O: Sink>(
    machine: &mut M,
    pending: &mut Pending,
    input: &mut I,
    out: &mut O,
) -> Result<(), Cut>
    requires goes { (M.seen machine.old).waits ≡ None }
    requires goes_on { 0 < M.lasts machine.old }
    ensures input_tells { TellsAlike (I.seen input.old).told (I.seen input.new).told }
    ensures input_later { (I.seen input.old).faults ≤ (I.seen input.new).faults }
    ensures more { (I.seen input.old).taken ≤ (I.seen input.new).taken }
    ensures counted { (left : List ℕ) → (I.seen input.old).told ≡ Some left
        → (I.seen input.old).taken < 2 ^ 64
        → Draws left (I.seen input.new).told (I.seen input.old).taken (I.seen input.new).taken }
    ensures out_tells { TellsAlike (O.seen out.old).told (O.seen out.new).told }
    ensures out_later { (O.seen out.old).faults ≤ (O.seen out.new).faults }
    ensures turn { (left : List ℕ) → (I.seen input.old).told ≡ Some left
        → Serves M.rules result (M.seen machine.old).machine left (M.seen machine.new) (I.seen input.new).told
        (O.seen out.old).told (O.seen out.new).told pending.old pending.new }
    ensures goes { OnOk result ((M.seen machine.new).waits ≡ None) }
    ensures read { IsErrOf result Cut.AtRead → Rose (I.seen input.old).faults (I.seen input.new).faults }
    ensures waits { IsErrOf result Cut.AtRead → IsSome (M.seen machine.new).waits }
    ensures runs { IsErrOf result Cut.AtRead → ending_of M.rules (M.seen machine.new).machine ≡ Ending.Running }
    ensures write { IsErrOf result Cut.AtWrite → Rose (O.seen out.old).faults (O.seen out.new).faults }
    ensures stands { IsErrOf result Cut.AtWrite → (M.seen machine.new).waits ≡ None }
    ensures lacks { IsErrOf result Cut.NoMemory → MayLack M.rules (M.seen machine.old).machine }
    ensures kept { IsErrOf result Cut.NoMemory → M.seen machine.new ≡ M.seen machine.old }
    ensures fewer { M.lasts machine.old ≤ M.lasts machine.new + 1 }
{
    let Ok(stepped) = machine.try_step() else {
        return Err(Cut::NoMemory);
    };
    match stepped {
        Stepped::Wrote { len } => match pending.accept(machine, len, out) {
            Ok(()) => Ok(()),
            Err(Failed) => Err(Cut::AtWrite),
        },
        Stepped::WantsInput { len } => match read_from(machine, len, input) {
            Ok(()) => Ok(()),
            Err(Failed) => Err(Cut::AtRead),
        },
        _ => Ok(()),
    }
}
