// The machine between two turns, and the ways in which an instruction changes it.
ghost use Rattle.std.specs.Prelude.{◌≡◌, ◌+◌, ◌^◌, ◌<◌, is_some, length, IfSome};
ghost use Rattle.elf_spec.specs.Code.{code_word};
ghost use Rattle.sym_value.specs.declared.Value.{Value};
ghost use Rattle.sym_value.specs.Decisions.{decide};
ghost use Rattle.sym_value.specs.Operations.{apply};
ghost use Rattle.sym_cells.specs.Memory.{loaded, stored};
ghost use Rattle.sym_spec.specs.Plain.{is_plain, is_plain_store};
ghost use Rattle.sym_spec.specs.SymCalls.{number_of_value};
ghost use Rattle.sym_spec.specs.SymMachine.{lives_of, value_of, gives, passes, ends, faults, loads, stores};
ghost use Rattle.sym_machine.specs.Found.{IsInstrAt, IsKept, mask_back};
ghost use Rattle.sym_machine.specs.Programs.{begun};
ghost use Rattle.sym_machine.specs.Seen.{fed_on, IsStorable};

use crate::calling::pointer_in;
use crate::code::Code;
use crate::found::Kept;
use crate::numbers::{computed, is_held};
use crate::reached::ImageMemory;
use machine_spec::{Ending, FaultKind};
use rv_isa::{Cond, Instr, Op, Width};
use std::marker::Model;
use sym_value::{Value, apply, decide};

/// The first value of sp (x2): all other registers are 0 at the start.
const STACK_POINTER: u32 = 0x7FFF_FF00;

/// The program's code and memory, the registers, the pc, the bits and the ending. The slot of x0 may
/// hold anything: x0 reads 0.
#[derive(Drop)]
pub struct Hart<'a> {
    pub code: Code<'a>,
    pub memory: ImageMemory<'a>,
    pub registers: [Value; 32],
    pub pc: u32,
    pub bits: u32,
    pub ending: Ending,
}

impl<'a> Model for Hart<'a> {
    ghost use Rattle.std.specs.Prelude.{◌≡◌, length};
    ghost use Rattle.sym_machine.specs.Programs.{Program};

    ghost Value = { Program };

    ghost view = { λ h. record {
      file = h.code.file;
      plan = h.code.plan;
      machine = record {
        memory = h.memory.memory;
        layout = h.memory.layout;
        at = h.memory.at;
        registers = h.registers;
        pc = h.pc;
        bits = h.bits;
        ending = h.ending;
      };
    } };

    ghost invariant = { λ h. (h.memory.file ≡ h.code.file) × (h.memory.plan ≡ h.code.plan)
        × (length h.registers ≡ 32) };
}

impl<'a> Hart<'a> {
    /// It is about to run, with all registers 0 but sp.
    pub fn new(code: Code<'a>, memory: ImageMemory<'a>, entry: u32) -> Hart<'a>
        requires file { memory.file ≡ code.file }
        requires plan { memory.plan ≡ code.plan }
        ensures { result ≡ begun code.entry.file code.entry.plan memory.entry.memory memory.entry.layout
            memory.entry.at entry }
    {
        let mut registers = [Value::Num(0); 32];
        registers[2] = Value::Num(STACK_POINTER);
        Hart {
            code,
            memory,
            registers,
            pc: entry,
            bits: 0,
            ending: Ending::Running,
        }
    }

    pub fn pc(&self) -> u32
        ensures { result ≡ self.now.machine.pc }
    {
        self.pc
    }

    pub fn bits(&self) -> u32
        ensures { result ≡ self.now.machine.bits }
    {
        self.bits
    }

    pub fn ending(&self) -> Ending
        ensures { result ≡ self.now.machine.ending }
    {
        self.ending
    }

    #[inline(always)]
    #[tactic(auto, using(crate::proofs::Registers::value_at))]
    pub fn register(&self, r: u8) -> Value
        requires { r < 32 }
        ensures { result ≡ value_of self.now.machine r }
    {
        if r == 0 {
            Value::Num(0)
        } else {
            self.registers[r as usize]
        }
    }

    /// The number in a register; none where it holds another value.
    #[inline(always)]
    #[tactic(auto, using(crate::proofs::Registers::value_at))]
    pub fn number(&self, r: u8) -> Option<u32>
        requires { r < 32 }
        ensures { result ≡ number_of_value (value_of self.now.machine r) }
    {
        if r == 0 {
            return Some(0);
        }
        match self.registers[r as usize] {
            Value::Num(word) => Some(word),
            _ => None,
        }
    }

    /// What stands at an address.
    pub fn look_at(&mut self, addr: u32) -> Kept
        ensures kept { IsKept self.old.file self.old.plan result }
        ensures addr { result.addr ≡ addr }
        ensures same { self.new ≡ self.old }
    {
        self.code.at(addr)
    }

    /// The instruction of the code word at an address that is no site; none where something else stands.
    #[inline(always)]
    pub fn instr_at(&mut self, addr: u32) -> Option<Instr>
        ensures instr { IfSome result (IsInstrAt self.old.file self.old.plan addr) }
        ensures same { self.new ≡ self.old }
    {
        self.code.instr_at(addr)
    }

    /// Whether a code word stands at an address.
    #[inline(always)]
    pub fn is_code(&mut self, addr: u32) -> bool
        ensures answer { result ≡ is_some (code_word self.old.file addr) }
        ensures same { self.new ≡ self.old }
    {
        self.code.is_code(addr)
    }

    /// The mask of the bit of the line whose call comes back to an address.
    pub fn mask_back(&self, addr: u32) -> Option<u32>
        ensures { result ≡ mask_back self.now.file self.now.plan addr }
    {
        self.code.mask_back(addr)
    }

    pub fn memory(&self) -> &ImageMemory<'a>
        ensures file { result.now.file ≡ self.now.file }
        ensures memory { result.now.memory ≡ self.now.machine.memory }
    {
        &self.memory
    }

    /// The value of an operation. Of two numbers, as in most turns, no block is looked at.
    #[inline(always)]
    #[tactic(auto, using(crate::proofs::Quiet::applied))]
    pub fn apply(&self, op: Op, a: Value, b: Value) -> Value
        ensures { result ≡ apply (lives_of self.now.file self.now.machine) op a b }
    {
        match (a, b) {
            (Value::Num(v), Value::Num(w)) => Value::Num(computed(op, v, w)),
            _ => apply(op, a, b, self.memory.live()),
        }
    }

    /// Whether a condition holds; none where that isn't decided.
    #[inline(always)]
    #[tactic(auto, unfolding(sym_value::specs::Decisions::decide))]
    pub fn decide(&self, cond: Cond, a: Value, b: Value) -> Option<bool>
        ensures { result ≡ decide (lives_of self.now.file self.now.machine) cond a b }
    {
        match (a, b) {
            (Value::Num(v), Value::Num(w)) => Some(is_held(cond, v, w)),
            _ => decide(cond, a, b, self.memory.live()),
        }
    }

    #[inline(always)]
    pub fn gives(&mut self, rd: u8, value: Value)
        requires { rd < 32 }
        ensures { self.new ≡ record self.old { machine = gives rd value self.old.machine } }
    {
        self.registers[rd as usize] = value;
        self.pc = self.pc.wrapping_add(4);
    }

    pub fn passes(&mut self)
        ensures { self.new ≡ record self.old { machine = passes self.old.machine } }
    {
        self.pc = self.pc.wrapping_add(4);
    }

    pub fn ends(&mut self, ending: Ending)
        ensures { self.new ≡ record self.old { machine = ends ending self.old.machine } }
    {
        self.ending = ending;
    }

    pub fn faults(&mut self, kind: FaultKind)
        ensures { self.new ≡ record self.old { machine = faults kind self.old.machine } }
    {
        self.ending = Ending::Fault { kind, at: self.pc };
    }

    #[inline(always)]
    pub fn loads(&mut self, width: Width, rd: u8, at: Value)
        requires { rd < 32 }
        ensures { self.new ≡ record self.old {
          machine = loads rd
              (loaded (is_plain self.old.file) self.old.machine.memory width at) self.old.machine;
        } }
    {
        match self.memory.load(at, width) {
            Some(value) => self.gives(rd, value),
            None => self.faults(FaultKind::F1),
        }
    }

    #[inline(always)]
    pub fn stores(&mut self, width: Width, at: Value, value: Value)
        ensures { self.new ≡ record self.old {
          machine = stores
              (stored (is_plain_store self.old.file) self.old.machine.memory width at value) self.old.machine;
        } }
    {
        if self.memory.store(at, width, value) {
            self.passes();
        } else {
            self.faults(FaultKind::F1);
        }
    }

    /// Puts bytes into the buffer at a1, from its byte `from` on.
    pub fn fills(&mut self, from: u32, bytes: &[u8])
        requires buffer { IsStorable self.old.file self.old.machine (from + length bytes.now) }
        requires small { from + length bytes.now < 2 ^ 32 }
        ensures { self.new ≡ record self.old { machine = fed_on self.old.file self.old.machine from bytes.now } }
    {
        if let Some(at) = pointer_in(self.register(11)) {
            self.memory.fill(at, from, bytes);
        }
    }
}
