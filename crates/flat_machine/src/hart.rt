// The machine between two turns, and the ways in which an instruction changes it.
ghost use Rattle.std.specs.Prelude.{◌≡◌, ◌+◌, ◌<◌, ◌≤◌, true, length, Some, is_some};
ghost use Rattle.flat_spec.specs.Stores.{bytes_from, can_store, loaded, put_bytes, stored};
ghost use Rattle.flat_spec.specs.Machine.{register, gives, passes, ends, faults, jumps, loads, stores};
ghost use Rattle.machine_run.specs.Machines.{GoesQuietly};
ghost use Rattle.flat_machine.specs.Rules.{flat_rules};
ghost use Rattle.flat_machine.specs.Seen.{begun};

use crate::quiet::take_turns;
use crate::registers::Registers;
use flat_mem::FlatMem;
use machine_spec::{Ending, FaultKind};
use rv_isa::Width;
use std::marker::Model;

/// The memory, the registers, the pc and the ending.
#[derive(Debug, Drop)]
pub struct Hart {
    mem: FlatMem,
    registers: Registers,
    pc: u32,
    ending: Ending,
}

impl Model for Hart {
    ghost use Rattle.flat_spec.specs.Machine.{Machine};

    ghost Value = { Machine };

    ghost view = { λ hart. record {
      memory = hart.mem;
      registers = hart.registers;
      pc = hart.pc;
      ending = hart.ending;
    } };
}

impl Hart {
    /// It is about to run, with all registers 0 but sp.
    pub fn new(mem: FlatMem, entry: u32) -> Hart
        ensures { result ≡ begun mem entry }
    {
        Hart {
            mem,
            registers: Registers::at_start(),
            pc: entry,
            ending: Ending::Running,
        }
    }

    pub fn pc(&self) -> u32
        ensures { result ≡ self.now.pc }
    {
        self.pc
    }

    pub fn ending(&self) -> Ending
        ensures { result ≡ self.now.ending }
    {
        self.ending
    }

    pub fn register(&self, r: u8) -> u32
        requires { r < 32 }
        ensures { result ≡ register self.now r }
    {
        self.registers.read(r)
    }

    pub fn memory(&self) -> &FlatMem
        ensures { result.now ≡ self.now.memory }
    {
        &self.mem
    }

    pub fn gives(&mut self, rd: u8, value: u32)
        requires { rd < 32 }
        ensures { self.new ≡ gives rd value self.old }
    {
        self.registers.write(rd, value);
        self.pc = self.pc.wrapping_add(4);
    }

    /// Takes at most so many turns that neither read, write nor end, and answers how many.
    pub fn take_quiet_turns(&mut self, most: u32) -> u32
        requires { self.old.ending ≡ Ending.Running }
        ensures within { result ≤ most }
        ensures turns { GoesQuietly flat_rules result self.old self.new }
        ensures runs { self.new.ending ≡ Ending.Running }
    {
        take_turns(&mut self.mem, &mut self.registers, &mut self.pc, most)
    }

    pub fn passes(&mut self)
        ensures { self.new ≡ passes self.old }
    {
        self.pc = self.pc.wrapping_add(4);
    }

    pub fn ends(&mut self, ending: Ending)
        ensures { self.new ≡ ends ending self.old }
    {
        self.ending = ending;
    }

    pub fn faults(&mut self, kind: FaultKind)
        ensures { self.new ≡ faults kind self.old }
    {
        self.ending = Ending::Fault { kind, at: self.pc };
    }

    pub fn jumps(&mut self, rd: u8, target: u32)
        requires { rd < 32 }
        ensures { self.new ≡ jumps rd target self.old }
    {
        if target % 4 == 0 {
            self.registers.write(rd, self.pc.wrapping_add(4));
            self.pc = target;
        } else {
            self.faults(FaultKind::F3);
        }
    }

    pub fn loads(&mut self, width: Width, rd: u8, addr: u32)
        requires { rd < 32 }
        ensures { self.new ≡ loads rd (loaded self.old.memory width addr) self.old }
    {
        match self.mem.load_number(width, addr) {
            Some(value) => self.gives(rd, value),
            None => self.faults(FaultKind::F1),
        }
    }

    /// Puts bytes into the buffer at a1, from its byte `from` on.
    pub fn puts(&mut self, from: u32, bytes: &[u8])
        requires { can_store self.old.memory (register self.old 11 + from) (length bytes.now) ≡ true }
        ensures { self.new ≡ record self.old {
          memory = put_bytes self.old.memory (register self.old 11 + from) bytes.now;
        } }
    {
        let at = self.register(11);
        self.mem.put(at, from, bytes);
    }

    /// Copies bytes from the buffer at a1, from its byte `from` on.
    pub fn copies(&self, from: u32, into: &mut [u8])
        requires { is_some (bytes_from self.now.memory (register self.now 11 + from)
            (length into.old)) ≡ true }
        ensures { bytes_from self.now.memory (register self.now 11 + from) (length into.old)
            ≡ Some into.new }
    {
        self.mem.copy_to(self.register(11), from, into);
    }

    pub fn stores(&mut self, width: Width, addr: u32, value: u32)
        ensures { self.new ≡ stores (stored self.old.memory width addr value) self.old }
    {
        if self.mem.store_number(width, addr, value) {
            self.passes();
        } else {
            self.faults(FaultKind::F1);
        }
    }
}
