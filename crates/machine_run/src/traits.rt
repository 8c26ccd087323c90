// What a run needs of a machine.
ghost use Rattle.std.specs.Prelude.{◌≡◌, ◌≢◌, ◌+◌, ◌<◌, ◌≤◌, ℕ, List, [], ◌++◌, None, IsSome, IsSomeAnd, IfOk, OnErr};
ghost use Rattle.std.specs.Prelude.{length, take, drop};
ghost use Rattle.machine_run.specs.Machines.{GoesQuietly, Rules, Seen, WaitsOn, Stays, ending_of, fed_with};
ghost use Rattle.machine_run.specs.Runs.{MayLack};
ghost use Rattle.machine_run.specs.Steps.{StepsTo, EndsRead};

use crate::Stepped;
use machine_spec::Ending;
use std::alloc::AllocError;

/// A machine that runs step by step and waits at reads.
pub trait Machine {
    /// What stands between two turns, beside input and output.
    ghost State: { Type 0 };

    /// What its turns do.
    ghost rules: { Rules State };

    /// The machine, whether it waits, and what its last step wrote.
    ghost seen: { Self → Seen State };

    /// How many steps it can still take.
    ghost lasts: { Self → ℕ };

    /// One step, which is a turn. A read of more than 0 bytes makes the machine wait for its input, and is
    /// one turn when that was fed.
    fn try_step(&mut self) -> Result<Stepped, AllocError>
        requires goes { (seen self.old).waits ≡ None }
        requires goes_on { 0 < lasts self.old }
        ensures turn { IfOk result (λ stepped. (input : List ℕ)
            → StepsTo rules stepped input (seen self.old).machine (seen self.new)) }
        ensures fewer { lasts self.old ≤ lasts self.new + 1 }
        ensures kept { OnErr result (seen self.new ≡ seen self.old) }
        ensures lacks { OnErr result (MayLack rules (seen self.old).machine) };

    /// Takes at most so many turns that neither read nor write nor end, and answers how many. It may stop
    /// before any turn: whoever goes on takes the next one by `try_step`.
    fn run_quietly(&mut self, most: u32) -> u32
        requires goes { (seen self.old).waits ≡ None }
        requires runs { ending_of rules (seen self.old).machine ≡ Ending.Running }
        requires lasts { most ≤ lasts self.old }
        ensures within { result ≤ most }
        ensures turns { GoesQuietly rules result (seen self.old).machine (seen self.new).machine }
        ensures goes { (seen self.new).waits ≡ None }
        ensures runs { ending_of rules (seen self.new).machine ≡ Ending.Running }
        ensures fewer { lasts self.old ≤ lasts self.new + result }
    {
        let _ = most;
        0
    }

    /// Puts the next piece of the input into the buffer of the read at which the machine waits.
    fn take_piece(&mut self, piece: &[u8])
        requires { IsSomeAnd (seen self.old).waits (λ wait. wait.fed + length piece.now ≤ wait.len) }
        ensures adds_up { (m : State) (len : ℕ) (bytes : List ℕ)
            → seen self.old ≡ fed_with rules len m bytes
            → seen self.new ≡ fed_with rules len m (bytes ++ piece.now) }
        ensures waits { WaitsOn (seen self.old).waits (length piece.now) (seen self.new).waits }
        ensures runs { ending_of rules (seen self.new).machine
            ≡ ending_of rules (seen self.old).machine }
        ensures lasts { lasts self.new ≡ lasts self.old };

    /// Ends the waiting: the read answers how many bytes it was fed.
    fn end_read(&mut self)
        requires { IsSome (seen self.old).waits }
        ensures turn { EndsRead rules (seen self.old) (seen self.new) }
        ensures goes { (seen self.new).waits ≡ None }
        ensures lasts { lasts self.new ≡ lasts self.old };

    /// Copies the bytes that the last step wrote, from one on.
    fn copy_output(&self, from: u32, into: &mut [u8])
        requires { from + length into.old ≤ length (seen self.now).written }
        ensures { into.new ≡ take (length into.old) (drop from (seen self.now).written) };

    /// How the machine ended, or that it runs. An ended machine stays as it is.
    fn ending(&self) -> Ending
        ensures is { result ≡ ending_of rules (seen self.now).machine }
        ensures stays { result ≢ Ending.Running → Stays rules (seen self.now).machine };
}
