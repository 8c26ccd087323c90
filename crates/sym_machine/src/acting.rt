// One turn: an instruction, the call of a pair site, a heap function, or an ending.
ghost use Rattle.std.specs.Prelude.{◌≡◌, ◌≢◌, ◌<◌, ℕ, List, false, Some, None, IfSome, IfOk, IsSome, OnErr, length};
ghost use Rattle.std.specs.Prelude.{unwrap_or};
ghost use Rattle.rv_isa.specs.Encoded.{NamesRegisters};
ghost use Rattle.sym_spec.specs.SymMachine.{value_of};
ghost use Rattle.sym_spec.specs.SymTurns.{acts, address_of, executes};
ghost use Rattle.machine_run.specs.Machines.{Asks};
ghost use Rattle.machine_run.specs.Steps.{answer_to};
ghost use Rattle.sym_spec.specs.SymNotes.{empty_note, note};
ghost use Rattle.sym_machine.specs.Programs.{turn, turned, GrantsNext};
ghost use Rattle.sym_machine.specs.Asks.{asks, asks_instr};
ghost use Rattle.sym_machine.specs.Found.{mask_at, HasMask, IsNoHeap, NamesThere};
ghost use Rattle.sym_machine.specs.Turning.{runs_found, asks_found, instr_noted, note_found};
ghost use Rattle.sym_machine.specs.Steps.{Called, noted};

use crate::found::Found;
use crate::hart::Hart;
use machine_run::Stepped;
use machine_spec::{Ending, FaultKind};
use rv_isa::{Instr, Op};
use std::alloc::AllocError;
use sym_spec::StepNote;
use sym_value::Value;

/// The note of a step with this answer: one that faults has none.
fn noted(stepped: Stepped, note: StepNote) -> Option<StepNote>
    ensures { unwrap_or result empty_note ≡ noted stepped note }
{
    match stepped {
        Stepped::Fault { .. } => None,
        _ => Some(note),
    }
}

impl<'a> Hart<'a> {
    /// One turn with its note, none where that is empty, but that a read which wants input changes nothing
    /// yet.
    #[tactic(auto, unfolding(crate::specs::Programs::turn, crate::specs::Asks::asks))]
    pub fn step(&mut self) -> Result<(Stepped, Option<StepNote>), AllocError>
        requires { length self.old.machine.at < 4294967295 }
        ensures answer { IfOk result (λ r. r.0 ≡ answer_to (asks self.old) self.new.machine.ending) }
        ensures turn { IfOk result (λ r. (input : List ℕ) → Called r.0 input self.old self.new (turn input self.old)) }
        ensures note { IfOk result (λ r. unwrap_or r.1 empty_note ≡ note self.old.file self.old.plan self.old.machine) }
        ensures lacks { OnErr result (GrantsNext self.old) }
        ensures again { self.old.machine.ending ≢ Ending.Running → IfOk result (λ r. (self.new ≡ self.old)
            × (r.0 ≡ answer_to Asks.Nothing self.old.machine.ending) × (r.1 ≡ None)) }
        ensures kept { OnErr result (self.new ≡ self.old) }
    {
        match self.ending() {
            Ending::Running => self.step_here(),
            ended => Ok((answer(ended), None)),
        }
    }

    /// The turn of a machine that runs, with its note.
    fn step_here(&mut self) -> Result<(Stepped, Option<StepNote>), AllocError>
        requires running { self.old.machine.ending ≡ Ending.Running }
        requires blocks { length self.old.machine.at < 4294967295 }
        ensures answer { IfOk result (λ r. r.0 ≡ answer_to (asks self.old) self.new.machine.ending) }
        ensures turn { IfOk result (λ r. (input : List ℕ) → Called r.0 input self.old self.new (turn input self.old)) }
        ensures note { IfOk result (λ r. unwrap_or r.1 empty_note ≡ note self.old.file self.old.plan self.old.machine) }
        ensures lacks { OnErr result (GrantsNext self.old) }
        ensures kept { OnErr result (self.new ≡ self.old) }
    {
        let found = self.look_at(self.pc()).found;
        self.runs_noted(found)
    }

    /// The turn at what stands at the pc, with its note.
    fn runs_noted(&mut self, found: Found) -> Result<(Stepped, Option<StepNote>), AllocError>
        requires running { self.old.machine.ending ≡ Ending.Running }
        requires blocks { length self.old.machine.at < 4294967295 }
        requires mask { HasMask found (mask_at self.old.plan self.old.machine.pc) }
        requires names { NamesThere found }
        ensures answer { IfOk result (λ r. r.0
            ≡ answer_to (asks_found self.old.file self.old.machine found) self.new.machine.ending) }
        ensures turn { IfOk result (λ r. (input : List ℕ) → Called r.0 input self.old self.new
            (turned self.old (runs_found self.old.file self.old.plan input found self.old.machine))) }
        ensures note { IfOk result (λ r. unwrap_or r.1 empty_note
            ≡ noted r.0 (note_found self.old.file self.old.plan found self.old.machine)) }
        ensures lacks { OnErr result
            (IsSome (note_found self.old.file self.old.plan found self.old.machine).grant) }
        ensures goes { OnErr result ((input : List ℕ)
            → (runs_found self.old.file self.old.plan input found self.old.machine).next.ending ≡ Ending.Running) }
        ensures kept { OnErr result (self.new ≡ self.old) }
    {
        match found {
            Found::Heap(name) => self.serves(name),
            Found::Word {
                instr: Some(i),
                is_site: false,
                mask,
            } => Ok(self.executes_noted(i, mask)),
            _ => {
                let note = self.note_of(found);
                let stepped = self.runs(found);
                Ok((stepped, noted(stepped, note)))
            }
        }
    }

    /// The turn of an instruction at no site, with its note.
    #[inline(always)]
    #[tactic(auto, using(crate::proofs::Quiet::none_noted))]
    fn executes_noted(&mut self, i: Instr, mask: Option<u32>) -> (Stepped, Option<StepNote>)
        requires running { self.old.machine.ending ≡ Ending.Running }
        requires mask { mask ≡ mask_at self.old.plan self.old.machine.pc }
        requires names { NamesRegisters i }
        ensures answer { result.0
            ≡ answer_to (asks_instr self.old.file self.old.machine (Some i)) self.new.machine.ending }
        ensures turn { (input : List ℕ) → Called result.0 input self.old self.new
            (turned self.old (executes self.old.file self.old.plan input (Some i) self.old.machine)) }
        ensures note { unwrap_or result.1 empty_note
            ≡ noted result.0 (instr_noted self.old.file (Some i) false self.old.machine) }
    {
        if self.is_quiet(i) {
            return (self.executes(Some(i), mask), None);
        }
        let note = self.instr_note(Some(i), false);
        let stepped = self.executes(Some(i), mask);
        (stepped, noted(stepped, note))
    }

    /// The turn at what stands at the pc, other than a heap function, but that a read which wants input
    /// changes nothing yet.
    pub fn runs(&mut self, found: Found) -> Stepped
        requires running { self.old.machine.ending ≡ Ending.Running }
        requires mask { HasMask found (mask_at self.old.plan self.old.machine.pc) }
        requires names { NamesThere found }
        requires heap { IsNoHeap found }
        ensures answer { result ≡ answer_to (asks_found self.old.file self.old.machine found) self.new.machine.ending }
        ensures turn { (input : List ℕ) → Called result input self.old self.new
            (turned self.old (runs_found self.old.file self.old.plan input found self.old.machine)) }
    {
        match found {
            Found::Nothing => {
                self.faults(FaultKind::F6);
                answer(self.ending())
            }
            Found::Heap(_) => unreachable!(),
            Found::Pair { target, back, mask } => {
                self.calls_pair(target, back, mask);
                answer(self.ending())
            }
            Found::Word { instr, mask, .. } => self.executes(instr, mask),
        }
    }

    /// The turn of a word's instruction.
    #[inline(always)]
    fn executes(&mut self, instr: Option<Instr>, mask: Option<u32>) -> Stepped
        requires running { self.old.machine.ending ≡ Ending.Running }
        requires mask { mask ≡ mask_at self.old.plan self.old.machine.pc }
        requires names { IfSome instr NamesRegisters }
        ensures answer { result ≡ answer_to (asks_instr self.old.file self.old.machine instr) self.new.machine.ending }
        ensures turn { (input : List ℕ) → Called result input self.old self.new
            (turned self.old (executes self.old.file self.old.plan input instr self.old.machine)) }
    {
        match instr {
            Some(Instr::Ecall) => self.calls(),
            Some(i) => {
                self.acts(i, mask);
                answer(self.ending())
            }
            None => {
                self.ends(Ending::Illegal(self.pc()));
                answer(self.ending())
            }
        }
    }

    /// What an instruction other than a system call does.
    #[inline(always)]
    #[tactic(auto, unfolding(sym_spec::specs::SymTurns::acts))]
    fn acts(&mut self, i: Instr, mask: Option<u32>)
        requires names { NamesRegisters i }
        requires mask { mask ≡ mask_at self.old.plan self.old.machine.pc }
        ensures { self.new ≡ record self.old { machine = acts self.old.file self.old.plan i self.old.machine } }
    {
        let pc = self.pc();
        match i {
            Instr::Lui { rd, imm } => self.gives(rd, Value::Num(imm)),
            Instr::Auipc { rd, imm } => self.gives(rd, Value::Num(pc.wrapping_add(imm))),
            Instr::Jal { rd, imm } => self.jumps(rd, pc.wrapping_add(imm), mask),
            Instr::Jalr { rd, rs1, imm } => self.jumps_to(rd, imm, self.register(rs1), mask),
            Instr::Branch {
                cond,
                rs1,
                rs2,
                imm,
            } => {
                let decided = self.decide(cond, self.register(rs1), self.register(rs2));
                self.branches(decided, pc.wrapping_add(imm));
            }
            Instr::Load {
                width,
                rd,
                rs1,
                imm,
            } => self.loads(width, rd, self.address(rs1, imm)),
            Instr::Store {
                width,
                rs1,
                rs2,
                imm,
            } => self.stores(width, self.address(rs1, imm), self.register(rs2)),
            Instr::OpImm { op, rd, rs1, imm } => {
                let value = self.apply(op, self.register(rs1), Value::Num(imm));
                self.gives(rd, value);
            }
            Instr::Reg { op, rd, rs1, rs2 } => {
                let value = self.apply(op, self.register(rs1), self.register(rs2));
                self.gives(rd, value);
            }
            Instr::Fence { .. } => self.passes(),
            Instr::Ecall => {}
            Instr::Ebreak => self.ends(Ending::Illegal(pc)),
        }
    }

    /// The address of a load or a store.
    #[inline(always)]
    pub fn address(&self, rs1: u8, imm: u32) -> Value
        requires { rs1 < 32 }
        ensures { result ≡ address_of self.now.file self.now.machine rs1 imm }
    {
        self.apply(Op::Add, self.register(rs1), Value::Num(imm))
    }
}

/// The answer of a turn that asks nothing of the outside.
pub fn answer(ending: Ending) -> Stepped
    ensures { result ≡ answer_to Asks.Nothing ending }
{
    match ending {
        Ending::Running => Stepped::Went,
        Ending::Exit(status) => Stepped::Exited(status),
        Ending::Illegal(at) => Stepped::Illegal { at },
        Ending::Fault { kind, at } => Stepped::Fault { kind, at },
    }
}
