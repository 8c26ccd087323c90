// The turn of a heap function: its whole action, and the way back.
ghost use Rattle.std.specs.Prelude.{◌≡◌, ◌<◌, ℕ, List, length, true, IfOk, OnErr, IsSome, slice_set, unwrap_or};
ghost use Rattle.heap_spec.specs.Service.{may_change};
ghost use Rattle.sym_value.specs.declared.Value.{Value};
ghost use Rattle.machine_run.specs.Machines.{Asks};
ghost use Rattle.machine_run.specs.Steps.{answer_to};
ghost use Rattle.sym_spec.specs.SymMachine.{SymMachine, value_of};
ghost use Rattle.sym_spec.specs.SymCalls.{quiet};
ghost use Rattle.sym_spec.specs.SymNotes.{empty_note, heap_note};
ghost use Rattle.sym_spec.specs.HeapActions.{kept_from, outcome, returns, serves};
ghost use Rattle.sym_machine.specs.Placing.{outcome_of, outcome_with, NamesLiving};
ghost use Rattle.sym_machine.specs.Programs.{turned};
ghost use Rattle.sym_machine.specs.Serving.{is_way_back};
ghost use Rattle.sym_machine.specs.Steps.{Called, noted};

use crate::hart::Hart;
use crate::noting::return_in;
use crate::requests::{Acted, Request};
use exec_image::HeapName;
use machine_run::Stepped;
use machine_spec::{Ending, FaultKind};
use std::alloc::AllocError;
use sym_spec::StepNote;
use sym_value::Value;

/// Whether a function leaves a register unset: t0 to t2, a0 to a7 and t3 to t6.
fn may_change(r: usize) -> bool
    ensures { result ≡ may_change r }
{
    (5 <= r && r <= 7) || ((10 <= r && r <= 17) || (28 <= r && r <= 31))
}

/// Unsets these registers.
#[tactic(auto, using(crate::proofs::Forgetting::done_one, crate::proofs::Forgetting::done_none, crate::proofs::Forgetting::done_all))]
fn forget(registers: &mut [Value])
    ensures { registers.new ≡ kept_from 0 registers.old }
{
    for r in 0..registers.len() {
        if may_change(r) {
            registers[r] = Value::Unset;
        }
    }
}

impl<'a> Hart<'a> {
    /// Whether control can go where a value says: to a return address or a code word.
    fn is_way_back(&mut self, to: Value) -> bool
        ensures way { result ≡ is_way_back self.old.file to }
        ensures same { self.new ≡ self.old }
    {
        match to {
            Value::Ret(_) => true,
            Value::Num(addr) => self.is_code(addr),
            _ => false,
        }
    }

    /// Goes where a value says, which is a way back.
    fn returns(&mut self, to: Value)
        requires { is_way_back self.old.file to ≡ true }
        ensures { (m : SymMachine) → self.new
            ≡ record self.old { machine = returns self.old.file self.old.plan to self.old.machine m } }
    {
        match to {
            Value::Ret(back) => self.goes_back(back),
            Value::Num(addr) => self.pc = addr,
            _ => unreachable!(),
        }
    }

    /// The answer goes to a0, and the registers that may change are unset.
    fn takes(&mut self, answer: Value)
        ensures { self.new ≡ record self.old {
          machine = record self.old.machine {
            registers = slice_set (kept_from 0 self.old.machine.registers) 10 answer;
          };
        } }
    {
        forget(&mut self.registers);
        self.registers[10] = answer;
    }

    /// What a request leads to.
    fn acts_on(&mut self, request: Request) -> Result<Acted, AllocError>
        requires names { length self.old.machine.at < 4294967295 }
        requires lives { NamesLiving request self.old.machine.memory }
        ensures done { IfOk result (λ acted. outcome_of self.old.file self.old.plan request self.old.machine
            ≡ outcome_with acted self.new.machine) }
        ensures lacks { OnErr result
            (IsSome (outcome_of self.old.file self.old.plan request self.old.machine).grant) }
        ensures same { (self.new.file ≡ self.old.file) × (self.new.plan ≡ self.old.plan) }
        ensures ending { self.new.machine.ending ≡ self.old.machine.ending }
        ensures kept { OnErr result (self.new ≡ self.old) }
    {
        self.memory.acts_on(request, self.bits)
    }

    /// The turn of a heap function, with its note, none where that is empty. It may lack memory; then nothing changes.
    pub fn serves(&mut self, name: HeapName) -> Result<(Stepped, Option<StepNote>), AllocError>
        requires running { self.old.machine.ending ≡ Ending.Running }
        requires names { length self.old.machine.at < 4294967295 }
        ensures answer { IfOk result (λ r. r.0 ≡ answer_to Asks.Nothing self.new.machine.ending) }
        ensures turn { IfOk result (λ r. (input : List ℕ) → Called r.0 input self.old self.new
            (turned self.old (quiet input (serves self.old.file self.old.plan name self.old.machine)))) }
        ensures note { IfOk result (λ r. unwrap_or r.1 empty_note ≡ noted r.0
            (heap_note (outcome self.old.file self.old.plan name self.old.machine) self.old.machine)) }
        ensures lacks { OnErr result (IsSome
            (heap_note (outcome self.old.file self.old.plan name self.old.machine) self.old.machine).grant) }
        ensures goes { OnErr result
            ((serves self.old.file self.old.plan name self.old.machine).ending ≡ Ending.Running) }
        ensures kept { OnErr result (self.new ≡ self.old) }
    {
        let Some(request) = self.request(name) else {
            return Ok((self.refuses(FaultKind::F5), None));
        };
        let to = self.register(1);
        if !self.is_way_back(to) {
            return Ok((self.refuses(FaultKind::F3), None));
        }
        let acted = self.acts_on(request)?;
        self.takes(acted.answer);
        self.returns(to);
        let note = StepNote {
            call: None,
            back: return_in(to),
            grant: acted.grant,
            release: acted.release,
            access: None,
        };
        Ok((Stepped::Went, Some(note)))
    }
}
