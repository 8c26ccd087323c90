// The registers in 33 slots: x0's holds 0 at all times, and what is written to x0 goes to the last one, so
// that a read needs no test.
ghost use Rattle.std.specs.Prelude.{◌≡◌, ◌<◌, slice_set};
ghost use Rattle.machine_spec.specs.Start.{start_registers};
ghost use Rattle.flat_spec.specs.Machine.{word_read};

use std::marker::Model;

/// The first value of sp (x2): all other registers are 0 at the start.
const STACK_POINTER: u32 = 0x7FFF_FF00;

/// The 32 registers, which contracts see with what was written to x0, though x0 reads 0.
#[derive(Debug, Drop)]
pub struct Registers {
    slots: [u32; 33],
}

impl Model for Registers {
    ghost use Rattle.std.specs.Prelude.{◌≡◌, ℕ, List, slice_index};
    ghost use Rattle.flat_machine.specs.Slots.{registers_in};

    ghost Value = { List ℕ };

    ghost view = { λ r. registers_in r.slots };

    ghost invariant = { λ r. slice_index r.slots 0 ≡ 0 };
}

impl Registers {
    /// All are 0 but sp.
    pub fn at_start() -> Registers
        ensures { result ≡ start_registers }
    {
        let mut slots = [0; 33];
        slots[2] = STACK_POINTER;
        Registers { slots }
    }

    /// The same registers once more.
    #[inline(always)]
    pub fn copied(&self) -> Registers
        ensures { result ≡ self.now }
    {
        Registers { slots: self.slots }
    }

    /// What a register reads.
    #[inline(always)]
    pub fn read(&self, r: u8) -> u32
        requires { r < 32 }
        ensures { result ≡ word_read self.now r }
    {
        self.slots[r as usize]
    }

    /// Puts a word into a register.
    #[inline(always)]
    #[tactic(auto, using(crate::proofs::Slots::slot_written, crate::proofs::Slots::first_stays))]
    pub fn write(&mut self, r: u8, value: u32)
        requires { r < 32 }
        ensures { self.new ≡ slice_set self.old r value }
    {
        let slot = (r as usize + 31) % 32 + 1;
        self.slots[slot] = value;
    }
}
