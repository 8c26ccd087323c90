// The system calls, by the number in a7 (x17). Their arguments are in a0 to a2 (x10 to x12) and their
// answer goes to a0.
ghost use Rattle.std.specs.Prelude.{◌≡◌, ℕ, ◌%◌, List};
ghost use Rattle.machine_spec.specs.Calls.{call_of, Call};
ghost use Rattle.flat_spec.specs.Machine.{register, ends, faults};
ghost use Rattle.flat_spec.specs.Calls.{answers, calls, calls_by};
ghost use Rattle.flat_machine.specs.Asks.{asks_by};
ghost use Rattle.machine_run.specs.Steps.{answer_to};
ghost use Rattle.flat_machine.specs.Steps.{Called};

use crate::Stepped;
use crate::hart::Hart;
use machine_spec::{Ending, FaultKind};

/// -9 (EBADF) as a word.
const BAD_DESCRIPTOR: u32 = 0xFFFF_FFF7;

/// -38 (ENOSYS) as a word.
const NO_SUCH_CALL: u32 = 0xFFFF_FFDA;

impl Hart {
    /// The turn of a system call, but that a read which wants input changes nothing yet.
    #[tactic(auto, unfolding(flat_spec::specs::Calls::calls))]
    pub fn calls(&mut self) -> Stepped
        requires { self.old.ending ≡ Ending.Running }
        ensures answer { result ≡ answer_to
            (asks_by (call_of (register self.old 17)) self.old) self.new.ending }
        ensures turn { (input : List ℕ) → Called result input self.old self.new (calls input self.old) }
    {
        match self.register(17) {
            63 => self.reads(),
            64 => self.writes(),
            93 => self.exits(),
            94 => self.exits(),
            214 => self.answers(0),
            _ => self.answers(NO_SUCH_CALL),
        }
    }

    /// Goes on with a call's answer in a0.
    fn answers(&mut self, value: u32) -> Stepped
        ensures answer { result ≡ Stepped.Went }
        ensures state { self.new ≡ answers value self.old }
    {
        self.gives(10, value);
        Stepped::Went
    }

    /// Ends with the status in a0.
    fn exits(&mut self) -> Stepped
        ensures answer { result ≡ Stepped.Exited (register self.old 10 % 256) }
        ensures state { self.new ≡ ends (Ending.Exit (register self.old 10 % 256)) self.old }
    {
        let status = (self.register(10) % 256) as u8;
        self.ends(Ending::Exit(status));
        Stepped::Exited(status)
    }

    /// Ends where the buffer of a call is not in memory, or can't be stored to.
    fn refuses(&mut self) -> Stepped
        ensures answer { result ≡ Stepped.Fault FaultKind.F1 self.old.pc }
        ensures state { self.new ≡ faults FaultKind.F1 self.old }
    {
        let at = self.pc();
        self.faults(FaultKind::F1);
        Stepped::Fault {
            kind: FaultKind::F1,
            at,
        }
    }

    /// A read (63): the buffer at a1 must be storable, and wants at most a2 bytes.
    fn reads(&mut self) -> Stepped
        requires { self.old.ending ≡ Ending.Running }
        ensures answer { result ≡ answer_to (asks_by Call.Read self.old) self.new.ending }
        ensures turn { (input : List ℕ) → Called result input self.old self.new
            (calls_by Call.Read input self.old) }
    {
        let len = self.register(12);
        if self.register(10) != 0 {
            self.answers(BAD_DESCRIPTOR)
        } else if !self.memory().can_store(self.register(11), len) {
            self.refuses()
        } else if len == 0 {
            self.answers(0)
        } else {
            Stepped::WantsInput { len }
        }
    }

    /// A write (64): the a2 bytes at a1 must be in memory.
    fn writes(&mut self) -> Stepped
        requires { self.old.ending ≡ Ending.Running }
        ensures answer { result ≡ answer_to (asks_by Call.Write self.old) self.new.ending }
        ensures turn { (input : List ℕ) → Called result input self.old self.new
            (calls_by Call.Write input self.old) }
    {
        let (descriptor, len) = (self.register(10), self.register(12));
        if descriptor != 1 && descriptor != 2 {
            self.answers(BAD_DESCRIPTOR)
        } else if !self.memory().holds(self.register(11), len) {
            self.refuses()
        } else {
            self.gives(10, len);
            Stepped::Wrote { len }
        }
    }
}
