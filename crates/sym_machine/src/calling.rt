// The system calls, by the number in a7 (x17). Their arguments are in a0 to a2 (x10 to x12) and their
// answer goes to a0. A call is tested in this order: the registers that it uses, its buffer, and the
// bytes that it would write.
ghost use Rattle.std.specs.Prelude.{◌≡◌, ◌%◌, ℕ, List, Option, Some};
ghost use Rattle.machine_spec.specs.Calls.{call_of, Call};
ghost use Rattle.machine_run.specs.Machines.{Asks};
ghost use Rattle.machine_run.specs.Steps.{answer_to};
ghost use Rattle.sym_value.specs.declared.Value.{Value};
ghost use Rattle.sym_spec.specs.SymMachine.{value_of, ends, faults};
ghost use Rattle.sym_spec.specs.SymCalls.{answers, pointer_in, buffer_in, number_of_value, reads_to, writes_from};
ghost use Rattle.sym_spec.specs.SymCalls.{reads, writes, calls_with, calls_by, calls};
ghost use Rattle.sym_machine.specs.Programs.{turned};
ghost use Rattle.sym_machine.specs.Asks.{asks_into, asks_from, asks_read, asks_write, asks_with, asks_by};
ghost use Rattle.sym_machine.specs.Steps.{Called};

use crate::hart::Hart;
use machine_run::Stepped;
use machine_spec::{Ending, FaultKind};
use sym_value::Value;

/// -9 (EBADF) as a word.
const BAD_DESCRIPTOR: u32 = 0xFFFF_FFF7;

/// -38 (ENOSYS) as a word.
const NO_SUCH_CALL: u32 = 0xFFFF_FFDA;

/// Where a buffer starts that a register holds; none where that isn't decided.
pub fn pointer_in(value: Value) -> Option<Value>
    ensures { result ≡ pointer_in value }
{
    match value {
        Value::Num(_) | Value::Ptr { .. } => Some(value),
        Value::Ret(_) | Value::Mix(_) | Value::Part { .. } | Value::Unset => None,
    }
}

/// The start of a buffer of `len` bytes, which is used only where that isn't 0.
pub fn buffer_in(len: u32, value: Value) -> Option<Value>
    ensures { result ≡ buffer_in len value }
{
    if len == 0 {
        Some(Value::Num(0))
    } else {
        pointer_in(value)
    }
}

impl<'a> Hart<'a> {
    /// The turn of a system call, but that a read which wants input changes nothing yet.
    #[tactic(auto, unfolding(sym_spec::specs::SymCalls::calls))]
    pub fn calls(&mut self) -> Stepped
        requires { self.old.machine.ending ≡ Ending.Running }
        ensures answer { result ≡ answer_to
            (asks_by self.old.file self.old.machine (number_of_value (value_of self.old.machine 17)))
            self.new.machine.ending }
        ensures turn { (input : List ℕ) → Called result input self.old self.new
            (turned self.old (calls self.old.file input self.old.machine)) }
    {
        match self.register(17) {
            Value::Num(number) => self.calls_by(number),
            _ => self.refuses(FaultKind::F4),
        }
    }

    /// The turn of the call with a number.
    fn calls_by(&mut self, number: u32) -> Stepped
        requires { self.old.machine.ending ≡ Ending.Running }
        ensures answer { result ≡ answer_to
            (asks_by self.old.file self.old.machine (Some number)) self.new.machine.ending }
        ensures turn { (input : List ℕ) → Called result input self.old self.new
            (turned self.old (calls_by self.old.file input (Some number) self.old.machine)) }
    {
        match number {
            63 => self.reads(),
            64 => self.writes(),
            93 => self.exits(),
            94 => self.exits(),
            214 => self.answers(0),
            _ => self.answers(NO_SUCH_CALL),
        }
    }

    /// Goes on with a call's answer in a0.
    fn answers(&mut self, value: u32) -> Stepped
        ensures answer { result ≡ Stepped.Went }
        ensures state { self.new ≡ record self.old { machine = answers value self.old.machine } }
    {
        self.gives(10, Value::Num(value));
        Stepped::Went
    }

    /// Ends with a fault.
    pub fn refuses(&mut self, kind: FaultKind) -> Stepped
        ensures answer { result ≡ Stepped.Fault kind self.old.machine.pc }
        ensures state { self.new ≡ record self.old { machine = faults kind self.old.machine } }
    {
        self.faults(kind);
        Stepped::Fault {
            kind,
            at: self.pc(),
        }
    }

    /// An exit (93, 94) with the status in a0.
    fn exits(&mut self) -> Stepped
        requires { self.old.machine.ending ≡ Ending.Running }
        ensures answer { result ≡ answer_to Asks.Nothing self.new.machine.ending }
        ensures turn { (input : List ℕ) → Called result input self.old self.new
            (turned self.old (calls_with self.old.file input Call.Exits
            (number_of_value (value_of self.old.machine 10)) self.old.machine)) }
    {
        match self.register(10) {
            Value::Num(word) => {
                let status = (word % 256) as u8;
                self.ends(Ending::Exit(status));
                Stepped::Exited(status)
            }
            _ => self.refuses(FaultKind::F4),
        }
    }

    /// A read (63) by its descriptor in a0 and its length in a2.
    fn reads(&mut self) -> Stepped
        requires { self.old.machine.ending ≡ Ending.Running }
        ensures answer { result ≡ answer_to (asks_with self.old.file self.old.machine Call.Read
            (number_of_value (value_of self.old.machine 10))) self.new.machine.ending }
        ensures turn { (input : List ℕ) → Called result input self.old self.new
            (turned self.old (calls_with self.old.file input Call.Read
            (number_of_value (value_of self.old.machine 10)) self.old.machine)) }
    {
        match self.register(10) {
            Value::Num(0) => self.reads_input(),
            Value::Num(_) => self.answers(BAD_DESCRIPTOR),
            _ => self.refuses(FaultKind::F4),
        }
    }

    fn reads_input(&mut self) -> Stepped
        requires { self.old.machine.ending ≡ Ending.Running }
        ensures answer { result ≡ answer_to (asks_read self.old.file self.old.machine
            (number_of_value (value_of self.old.machine 12))) self.new.machine.ending }
        ensures turn { (input : List ℕ) → Called result input self.old self.new
            (turned self.old (reads self.old.file input (number_of_value (value_of self.old.machine 12))
            self.old.machine)) }
    {
        match self.register(12) {
            Value::Num(len) => self.reads_to(len, buffer_in(len, self.register(11))),
            _ => self.refuses(FaultKind::F4),
        }
    }

    /// A read of at most `len` bytes to a buffer, all of which must be storable.
    #[tactic(auto, using(crate::proofs::EmptyReads::read_refused, crate::proofs::EmptyReads::read_nothing))]
    fn reads_to(&mut self, len: u32, at: Option<Value>) -> Stepped
        requires running { self.old.machine.ending ≡ Ending.Running }
        requires buffer { at ≡ buffer_in len (value_of self.old.machine 11) }
        ensures answer { result ≡ answer_to (asks_into self.old.file self.old.machine len at) self.new.machine.ending }
        ensures turn { (input : List ℕ) → Called result input self.old self.new
            (turned self.old (reads_to self.old.file input len at self.old.machine)) }
    {
        let Some(at) = at else {
            return self.refuses(FaultKind::F4);
        };
        if !self.memory().can_fill(at, len) {
            self.refuses(FaultKind::F1)
        } else if len == 0 {
            self.answers(0)
        } else {
            Stepped::WantsInput { len }
        }
    }

    /// A write (64) by its descriptor in a0 and its length in a2.
    fn writes(&mut self) -> Stepped
        requires { self.old.machine.ending ≡ Ending.Running }
        ensures answer { result ≡ answer_to (asks_with self.old.file self.old.machine Call.Write
            (number_of_value (value_of self.old.machine 10))) self.new.machine.ending }
        ensures turn { (input : List ℕ) → Called result input self.old self.new
            (turned self.old (calls_with self.old.file input Call.Write
            (number_of_value (value_of self.old.machine 10)) self.old.machine)) }
    {
        match self.register(10) {
            Value::Num(1) | Value::Num(2) => self.writes_output(),
            Value::Num(_) => self.answers(BAD_DESCRIPTOR),
            _ => self.refuses(FaultKind::F4),
        }
    }

    fn writes_output(&mut self) -> Stepped
        requires { self.old.machine.ending ≡ Ending.Running }
        ensures answer { result ≡ answer_to (asks_write self.old.file self.old.machine
            (number_of_value (value_of self.old.machine 12))) self.new.machine.ending }
        ensures turn { (input : List ℕ) → Called result input self.old self.new
            (turned self.old (writes self.old.file input (number_of_value (value_of self.old.machine 12))
            self.old.machine)) }
    {
        match self.register(12) {
            Value::Num(len) => self.writes_from(len, buffer_in(len, self.register(11))),
            _ => self.refuses(FaultKind::F4),
        }
    }

    /// A write of the `len` bytes of a buffer, which must be reachable and known.
    fn writes_from(&mut self, len: u32, at: Option<Value>) -> Stepped
        requires running { self.old.machine.ending ≡ Ending.Running }
        requires buffer { at ≡ buffer_in len (value_of self.old.machine 11) }
        ensures answer { result ≡ answer_to (asks_from self.old.file self.old.machine len at) self.new.machine.ending }
        ensures turn { (input : List ℕ) → Called result input self.old self.new
            (turned self.old (writes_from self.old.file input len at self.old.machine)) }
    {
        let Some(at) = at else {
            return self.refuses(FaultKind::F4);
        };
        if !self.memory().can_reach(at, len) {
            self.refuses(FaultKind::F1)
        } else if !self.memory().are_known(at, len) {
            self.refuses(FaultKind::F4)
        } else {
            self.gives(10, Value::Num(len));
            Stepped::Wrote { len }
        }
    }
}
