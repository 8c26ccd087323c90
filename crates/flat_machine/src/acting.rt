// One turn: an instruction (RISC-V unprivileged manual), or an ending.
ghost use Rattle.std.specs.Prelude.{◌≡◌, ◌≢◌, ◌<◌, ℕ, List, IfSome, if◌then◌else◌};
ghost use Rattle.rv_isa.specs.Encoded.{NamesRegisters};
ghost use Rattle.rv_isa.specs.Addresses.{plus};
ghost use Rattle.flat_spec.specs.Turns.{acts, turn, executes, runs_word};
ghost use Rattle.flat_spec.specs.Machine.{register, jumps, passes};
ghost use Rattle.rv_isa.specs.Compute.{is_held};
ghost use Rattle.flat_spec.specs.Stores.{fetched};
ghost use Rattle.flat_machine.specs.Asks.{asks, asks_instr, asks_word};
ghost use Rattle.machine_run.specs.Machines.{Asks};
ghost use Rattle.machine_run.specs.Steps.{answer_to};
ghost use Rattle.flat_machine.specs.Steps.{Called};

use crate::Stepped;
use crate::hart::Hart;
use machine_spec::{Ending, FaultKind};
use rv_isa::{Cond, Instr, compute, decode, holds};

impl Hart {
    /// One turn, but that a read which wants input changes nothing yet.
    #[tactic(auto, unfolding(flat_spec::specs::Turns::turn, crate::specs::Asks::asks))]
    pub fn step(&mut self) -> Stepped
        ensures answer { result ≡ answer_to (asks self.old) self.new.ending }
        ensures turn { (input : List ℕ) → Called result input self.old self.new (turn input self.old) }
        ensures again { self.old.ending ≢ Ending.Running
            → (self.new ≡ self.old) × (result ≡ answer_to Asks.Nothing self.old.ending) }
    {
        match self.ending() {
            Ending::Running => self.runs(),
            ended => answer(ended),
        }
    }

    /// The turn of a machine that runs.
    fn runs(&mut self) -> Stepped
        requires { self.old.ending ≡ Ending.Running }
        ensures answer { result ≡ answer_to
            (asks_word (fetched self.old.memory self.old.pc) self.old) self.new.ending }
        ensures turn { (input : List ℕ) → Called result input self.old self.new
            (runs_word input (fetched self.old.memory self.old.pc) self.old) }
    {
        match self.memory().fetch(self.pc()) {
            Some(word) => self.executes(decode(word)),
            None => {
                self.faults(FaultKind::F6);
                answer(self.ending())
            }
        }
    }

    /// The turn of a fetched word's instruction.
    fn executes(&mut self, instr: Option<Instr>) -> Stepped
        requires running { self.old.ending ≡ Ending.Running }
        requires registers { IfSome instr NamesRegisters }
        ensures answer { result ≡ answer_to (asks_instr instr self.old) self.new.ending }
        ensures turn { (input : List ℕ) → Called result input self.old self.new
            (executes input instr self.old) }
    {
        match instr {
            Some(Instr::Ecall) => self.calls(),
            Some(i) => {
                self.acts(i);
                answer(self.ending())
            }
            None => {
                let at = self.pc();
                self.ends(Ending::Illegal(at));
                answer(self.ending())
            }
        }
    }

    /// What an instruction other than a system call does.
    #[tactic(auto, unfolding(flat_spec::specs::Turns::acts))]
    fn acts(&mut self, i: Instr)
        requires { NamesRegisters i }
        ensures { self.new ≡ acts i self.old }
    {
        let pc = self.pc();
        match i {
            Instr::Lui { rd, imm } => self.gives(rd, imm),
            Instr::Auipc { rd, imm } => self.gives(rd, pc.wrapping_add(imm)),
            Instr::Jal { rd, imm } => self.jumps(rd, pc.wrapping_add(imm)),
            Instr::Jalr { rd, rs1, imm } => self.jumps(rd, self.address(rs1, imm) / 2 * 2),
            Instr::Branch {
                cond,
                rs1,
                rs2,
                imm,
            } => self.branches(cond, rs1, rs2, pc.wrapping_add(imm)),
            Instr::Load {
                width,
                rd,
                rs1,
                imm,
            } => self.loads(width, rd, self.address(rs1, imm)),
            Instr::Store {
                width,
                rs1,
                rs2,
                imm,
            } => self.stores(width, self.address(rs1, imm), self.register(rs2)),
            Instr::OpImm { op, rd, rs1, imm } => {
                self.gives(rd, compute(op, self.register(rs1), imm))
            }
            Instr::Reg { op, rd, rs1, rs2 } => {
                self.gives(rd, compute(op, self.register(rs1), self.register(rs2)))
            }
            Instr::Fence { .. } => self.passes(),
            Instr::Ecall => {}
            Instr::Ebreak => self.ends(Ending::Illegal(pc)),
        }
    }

    /// The address at a distance from that in a register.
    fn address(&self, rs1: u8, imm: u32) -> u32
        requires { rs1 < 32 }
        ensures { result ≡ plus (register self.now rs1) imm }
    {
        self.register(rs1).wrapping_add(imm)
    }

    /// A branch: a jump that links x0 where the condition holds.
    fn branches(&mut self, cond: Cond, rs1: u8, rs2: u8, target: u32)
        requires first { rs1 < 32 }
        requires second { rs2 < 32 }
        ensures { self.new ≡ (if is_held cond (register self.old rs1) (register self.old rs2)
            then jumps 0 target self.old else passes self.old) }
    {
        if holds(cond, self.register(rs1), self.register(rs2)) {
            self.jumps(0, target);
        } else {
            self.passes();
        }
    }
}

/// The answer of a turn that asks nothing of the outside.
pub fn answer(ending: Ending) -> Stepped
    ensures { result ≡ answer_to Asks.Nothing ending }
{
    match ending {
        Ending::Running => Stepped::Went,
        Ending::Exit(status) => Stepped::Exited(status),
        Ending::Illegal(at) => Stepped::Illegal { at },
        Ending::Fault { kind, at } => Stepped::Fault { kind, at },
    }
}
