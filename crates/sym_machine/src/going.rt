// Turns that neither read, write nor end and have an empty note, one after another.
ghost use Rattle.std.specs.Prelude.{◌≡◌, ◌<◌, ◌≤◌, ℕ, List, false, true, Some};
ghost use Rattle.rv_isa.specs.Encoded.{NamesRegisters};
ghost use Rattle.machine_spec.specs.declared.Ending.{Ending};
ghost use Rattle.sym_spec.specs.Plain.{is_plain, is_plain_store};
ghost use Rattle.sym_value.specs.declared.Value.{Value};
ghost use Rattle.sym_value.specs.Decisions.{decide};
ghost use Rattle.sym_value.specs.Operations.{apply};
ghost use Rattle.sym_cells.specs.Memory.{loaded, stored};
ghost use Rattle.sym_spec.specs.SymCalls.{quiet};
ghost use Rattle.sym_spec.specs.SymMachine.{gives, goes_to, jumps, lives_of, loads, stores, value_of};
ghost use Rattle.sym_spec.specs.SymNotes.{empty_note};
ghost use Rattle.sym_spec.specs.SymTurns.{acts, address_of, branches, executes};
ghost use Rattle.sym_machine.specs.QuietTurns.{Does, GoesOn, TakesOne};
ghost use Rattle.sym_machine.specs.Turning.{instr_noted, is_number};

use crate::hart::Hart;
use crate::numbers::{computed, is_held};
use rv_isa::{Cond, Instr, Op, Width};
use sym_value::Value;

/// ra, the register that a call leaves its return address in.
const RA: u8 = 1;

impl<'a> Hart<'a> {
    /// Takes at most so many turns, and answers how many. It stops before a turn that reads, writes or ends,
    /// or that calls, goes back, or reaches a block.
    pub fn take_quiet_turns(&mut self, most: u32) -> u32
        requires { self.old.machine.ending ≡ Ending.Running }
        ensures within { result ≤ most }
        ensures turns { GoesOn result self.old self.new }
    {
        let mut taken = 0;
        while taken < most {
            if !self.takes_quiet_turn() {
                break;
            }
            taken += 1;
        }
        taken
    }

    /// One turn, or none, and nothing changes.
    #[inline(always)]
    #[tactic(auto, using(crate::proofs::QuietRuns::takes_there))]
    fn takes_quiet_turn(&mut self) -> bool
        requires { self.old.machine.ending ≡ Ending.Running }
        ensures { TakesOne result self.old self.new }
    {
        match self.instr_at(self.pc) {
            Some(i) => self.acts_quietly(i),
            None => false,
        }
    }

    /// The turn of an instruction at no site, if it has an empty note and the machine runs after it.
    #[inline(always)]
    #[tactic(auto, using(crate::proofs::Quiet::no_access, crate::proofs::Quiet::applied_there), unfolding(sym_spec::specs::SymTurns::acts))]
    fn acts_quietly(&mut self, i: Instr) -> bool
        requires { NamesRegisters i }
        ensures does { Does result (acts self.old.file self.old.plan i self.old.machine) self.old self.new }
        ensures quiet { (input : List ℕ) → result ≡ true
            → executes self.old.file self.old.plan input (Some i) self.old.machine
            ≡ quiet input (acts self.old.file self.old.plan i self.old.machine) }
        ensures note { result ≡ true → instr_noted self.old.file (Some i) false self.old.machine ≡ empty_note }
    {
        let pc = self.pc();
        match i {
            Instr::Lui { rd, imm } => {
                self.gives(rd, Value::Num(imm));
                true
            }
            Instr::Auipc { rd, imm } => {
                self.gives(rd, Value::Num(pc.wrapping_add(imm)));
                true
            }
            Instr::Jal { rd, imm } => self.jumps_quietly(rd, pc.wrapping_add(imm)),
            Instr::Branch {
                cond,
                rs1,
                rs2,
                imm,
            } => self.branches_quietly(cond, rs1, rs2, pc.wrapping_add(imm)),
            Instr::Load {
                width,
                rd,
                rs1,
                imm,
            } => self.loads_quietly(width, rd, rs1, imm),
            Instr::Store {
                width,
                rs1,
                rs2,
                imm,
            } => self.stores_quietly(width, rs1, imm, rs2),
            Instr::OpImm { op, rd, rs1, imm } => {
                match self.number(rs1) {
                    Some(v) => self.gives(rd, Value::Num(computed(op, v, imm))),
                    None => self.operates_with(op, rd, rs1, imm),
                }
                true
            }
            Instr::Reg { op, rd, rs1, rs2 } => {
                self.operates_quietly(op, rd, rs1, rs2);
                true
            }
            Instr::Fence { .. } => {
                self.passes();
                true
            }
            Instr::Jalr { .. } | Instr::Ecall | Instr::Ebreak => false,
        }
    }

    /// An operation on two registers.
    #[inline(always)]
    #[tactic(auto, using(crate::proofs::Quiet::applied_there))]
    fn operates_quietly(&mut self, op: Op, rd: u8, rs1: u8, rs2: u8)
        requires first { rs1 < 32 }
        requires second { rs2 < 32 }
        requires register { rd < 32 }
        ensures { self.new ≡ record self.old {
          machine = gives rd (apply (lives_of self.old.file self.old.machine) op
              (value_of self.old.machine rs1) (value_of self.old.machine rs2)) self.old.machine;
        } }
    {
        if let Some(v) = self.number(rs1) {
            if let Some(w) = self.number(rs2) {
                self.gives(rd, Value::Num(computed(op, v, w)));
                return;
            }
        }
        self.operates(op, rd, rs1, rs2);
    }

    /// An operation on two registers, of which one may hold no number.
    #[inline(never)]
    fn operates(&mut self, op: Op, rd: u8, rs1: u8, rs2: u8)
        requires first { rs1 < 32 }
        requires second { rs2 < 32 }
        requires register { rd < 32 }
        ensures { self.new ≡ record self.old {
          machine = gives rd (apply (lives_of self.old.file self.old.machine) op
              (value_of self.old.machine rs1) (value_of self.old.machine rs2)) self.old.machine;
        } }
    {
        let value = self.apply(op, self.register(rs1), self.register(rs2));
        self.gives(rd, value);
    }

    /// An operation on a register, which may hold no number, and a number.
    #[inline(never)]
    fn operates_with(&mut self, op: Op, rd: u8, rs1: u8, imm: u32)
        requires first { rs1 < 32 }
        requires register { rd < 32 }
        ensures { self.new ≡ record self.old {
          machine = gives rd (apply (lives_of self.old.file self.old.machine) op
              (value_of self.old.machine rs1) (Value.Num imm)) self.old.machine;
        } }
    {
        let value = self.apply(op, self.register(rs1), Value::Num(imm));
        self.gives(rd, value);
    }

    /// A jump that links no return address, to a code word.
    #[inline(always)]
    fn jumps_quietly(&mut self, rd: u8, target: u32) -> bool
        requires { rd < 32 }
        ensures { Does result (jumps self.old.file self.old.plan rd target self.old.machine) self.old self.new }
    {
        if rd != RA && self.is_code(target) {
            self.registers[rd as usize] = Value::Num(self.pc.wrapping_add(4));
            self.pc = target;
            true
        } else {
            false
        }
    }

    /// A jump without a link, to a code word.
    #[inline(always)]
    fn goes_quietly(&mut self, target: u32) -> bool
        ensures { Does result (goes_to self.old.file target self.old.machine) self.old self.new }
    {
        let is_code = self.is_code(target);
        if is_code {
            self.pc = target;
        }
        is_code
    }

    /// A branch that is decided.
    #[inline(always)]
    #[tactic(auto, using(crate::proofs::Quiet::decided_there))]
    fn branches_quietly(&mut self, cond: Cond, rs1: u8, rs2: u8, target: u32) -> bool
        requires first { rs1 < 32 }
        requires second { rs2 < 32 }
        ensures { Does result (branches self.old.file (decide (lives_of self.old.file self.old.machine) cond
            (value_of self.old.machine rs1) (value_of self.old.machine rs2)) target self.old.machine)
            self.old self.new }
    {
        if let Some(v) = self.number(rs1) {
            if let Some(w) = self.number(rs2) {
                return self.branches_so(is_held(cond, v, w), target);
            }
        }
        self.branches_by(cond, rs1, rs2, target)
    }

    /// A branch whose condition holds, or doesn't.
    #[inline(always)]
    fn branches_so(&mut self, holds: bool, target: u32) -> bool
        ensures { Does result (branches self.old.file (Some holds) target self.old.machine) self.old self.new }
    {
        if holds {
            self.goes_quietly(target)
        } else {
            self.passes();
            true
        }
    }

    /// A branch by two registers, of which one may hold no number.
    #[inline(never)]
    fn branches_by(&mut self, cond: Cond, rs1: u8, rs2: u8, target: u32) -> bool
        requires first { rs1 < 32 }
        requires second { rs2 < 32 }
        ensures { Does result (branches self.old.file (decide (lives_of self.old.file self.old.machine) cond
            (value_of self.old.machine rs1) (value_of self.old.machine rs2)) target self.old.machine)
            self.old self.new }
    {
        match self.decide(cond, self.register(rs1), self.register(rs2)) {
            Some(holds) => self.branches_so(holds, target),
            None => false,
        }
    }

    /// A load by a number.
    #[inline(always)]
    #[tactic(auto, using(crate::proofs::Quiet::address_there, crate::proofs::Quiet::word_there))]
    fn loads_quietly(&mut self, width: Width, rd: u8, rs1: u8, imm: u32) -> bool
        requires register { rd < 32 }
        requires base { rs1 < 32 }
        ensures does { Does result (loads rd (loaded (is_plain self.old.file) self.old.machine.memory width
            (address_of self.old.file self.old.machine rs1 imm)) self.old.machine) self.old self.new }
        ensures number { result ≡ true → is_number (address_of self.old.file self.old.machine rs1 imm) ≡ true }
    {
        let Some(base) = self.number(rs1) else {
            return false;
        };
        let addr = base.wrapping_add(imm);
        if let Width::Word = width {
            if let Some(word) = self.memory.word_at(addr) {
                self.gives(rd, Value::Num(word));
                return true;
            }
        }
        self.loads_by(width, rd, addr)
    }

    /// A load of any width and value.
    #[inline(never)]
    fn loads_by(&mut self, width: Width, rd: u8, addr: u32) -> bool
        requires { rd < 32 }
        ensures { Does result (loads rd (loaded (is_plain self.old.file) self.old.machine.memory width
            (Value.Num addr)) self.old.machine) self.old self.new }
    {
        match self.memory.load(Value::Num(addr), width) {
            Some(value) => {
                self.gives(rd, value);
                true
            }
            None => false,
        }
    }

    /// A store by a number.
    #[inline(always)]
    #[tactic(auto, using(crate::proofs::Quiet::address_there, crate::proofs::Quiet::number_there))]
    fn stores_quietly(&mut self, width: Width, rs1: u8, imm: u32, rs2: u8) -> bool
        requires base { rs1 < 32 }
        requires value { rs2 < 32 }
        ensures does { Does result (stores (stored (is_plain_store self.old.file) self.old.machine.memory width
            (address_of self.old.file self.old.machine rs1 imm) (value_of self.old.machine rs2))
            self.old.machine) self.old self.new }
        ensures number { result ≡ true → is_number (address_of self.old.file self.old.machine rs1 imm) ≡ true }
    {
        let Some(base) = self.number(rs1) else {
            return false;
        };
        let addr = base.wrapping_add(imm);
        if let Width::Word = width {
            if let Some(word) = self.number(rs2) {
                return self.stores_word(addr, word);
            }
        }
        self.stores_by(width, addr, rs2)
    }

    /// A store of a number as a word.
    #[inline(always)]
    fn stores_word(&mut self, addr: u32, word: u32) -> bool
        ensures { Does result (stores (stored (is_plain_store self.old.file) self.old.machine.memory Width.Word
            (Value.Num addr) (Value.Num word)) self.old.machine) self.old self.new }
    {
        let stored = self.memory.store_word(addr, word);
        if stored {
            self.passes();
        }
        stored
    }

    /// A store of any width and value.
    #[inline(never)]
    fn stores_by(&mut self, width: Width, addr: u32, rs2: u8) -> bool
        requires { rs2 < 32 }
        ensures { Does result (stores (stored (is_plain_store self.old.file) self.old.machine.memory width
            (Value.Num addr) (value_of self.old.machine rs2)) self.old.machine) self.old self.new }
    {
        let value = self.register(rs2);
        let stored = self.memory.store(Value::Num(addr), width, value);
        if stored {
            self.passes();
        }
        stored
    }
}
