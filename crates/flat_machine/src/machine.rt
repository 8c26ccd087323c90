// The flat machine with its steps, and with reads that wait for their input.
ghost use Rattle.std.specs.Prelude.{◌≡◌, ◌≢◌, ◌+◌, ◌<◌, ◌≤◌, ℕ, List, [], ◌++◌, length, None, IsSome, IsSomeAnd};
ghost use Rattle.std.specs.Prelude.{slice_index, take, drop};
ghost use Rattle.elf_spec.specs.Records.{e_entry};
ghost use Rattle.machine_spec.specs.Memory.{memory_of};
ghost use Rattle.flat_spec.specs.Machine.{Machine, register, start as start_of};
ghost use Rattle.flat_spec.specs.Turns.{turn};
ghost use Rattle.machine_run.specs.Machines.{Asks, GoesQuietly};
ghost use Rattle.machine_run.specs.Steps.{answer_to, IsWholeRead};
ghost use Rattle.flat_machine.specs.Asks.{asks, IsAtRead};
ghost use Rattle.flat_machine.specs.Rules.{flat_rules};
ghost use Rattle.flat_machine.specs.Seen.{between, begun, fed_with, FedMore, Completed};
ghost use Rattle.flat_machine.specs.Steps.{Pauses, StepsTo};

use crate::Stepped;
use crate::hart::Hart;
use flat_mem::FlatMem;
use flat_spec::{ranges_say_what_may_be_accessed, stores_change_their_bytes_alone};
use machine_run::{Pause, pause_of};
use machine_spec::{Ending, all_addresses_pass_where_each_does};
use std::marker::Model;

/// A machine that runs a file's bytes. Contracts see its state, whether it waits at a read, and the
/// bytes that its last step wrote. No call takes memory of the host.
#[derive(Debug, Drop)]
pub struct Flat {
    hart: Hart,
    pause: Pause,
}

impl Model for Flat {
    ghost use Rattle.flat_machine.specs.Seen.{FlatSeen};
    ghost use Rattle.flat_machine.specs.Paused.{seen_of, IsPaused};

    ghost Value = { FlatSeen };

    ghost view = { λ flat. seen_of flat.pause flat.hart };

    ghost invariant = { λ flat. IsPaused flat.pause flat.hart };
}

/// The machine that is about to run from the address `entry` on: sp is 0x7FFFFF00 and all other
/// registers are 0.
#[tactic(auto, unfolding(flat_spec::specs::Machine::start))]
pub fn start(mem: FlatMem, entry: u32) -> Flat
    ensures exact { result ≡ between (begun mem entry) [] }
    ensures file { (file : List ℕ) → mem ≡ memory_of file → entry ≡ e_entry file
        → result ≡ between (start_of file) [] }
{
    Flat {
        hart: Hart::new(mem, entry),
        pause: Pause::Nothing,
    }
}

impl Flat {
    /// One step, which is a turn of the machine. A read from descriptor 0 of more than 0 bytes makes
    /// the machine wait for its input, and is one turn when that was fed. After an ending the same
    /// answer comes again.
    pub fn step(&mut self) -> Stepped
        requires { self.old.waits ≡ None }
        ensures answer { result ≡ answer_to (asks self.old.machine) self.new.machine.ending }
        ensures turn { (input : List ℕ) → StepsTo result input self.old.machine self.new }
        ensures pause { Pauses result self.new }
        ensures again { self.old.machine.ending ≢ Ending.Running
            → (self.new ≡ between self.old.machine [])
            × (result ≡ answer_to Asks.Nothing self.old.machine.ending) }
    {
        let stepped = self.hart.step();
        self.pause = pause_of(stepped);
        stepped
    }

    /// Takes at most so many steps that neither read, write nor end, and answers how many.
    pub(crate) fn take_quiet_steps(&mut self, most: u32) -> u32
        requires { self.old.machine.ending ≡ Ending.Running }
        ensures within { result ≤ most }
        ensures turns { GoesQuietly flat_rules result self.old.machine self.new.machine }
        ensures goes { self.new.waits ≡ None }
        ensures runs { self.new.machine.ending ≡ Ending.Running }
    {
        self.pause = Pause::Nothing;
        self.hart.take_quiet_turns(most)
    }

    /// Puts the next piece of the input into the buffer of the read at which the machine waits.
    pub fn feed(&mut self, piece: &[u8])
        requires { IsSomeAnd self.old.waits (λ wait. wait.fed + length piece.now ≤ wait.len) }
        ensures exact { FedMore self.old piece.now self.new }
        ensures adds_up { (m : Machine) (bytes : List ℕ) → self.old ≡ fed_with m bytes
            → self.new ≡ fed_with m (bytes ++ piece.now) }
    {
        all_addresses_pass_where_each_does();
        stores_change_their_bytes_alone();
        ranges_say_what_may_be_accessed();
        if let Pause::Input { len, fed } = self.pause {
            self.hart.puts(fed, piece);
            self.pause = Pause::Input {
                len,
                fed: fed + piece.len() as u32,
            };
        }
    }

    /// Ends the waiting: the read answers how many bytes it was fed.
    pub fn fed(&mut self)
        requires { IsSome self.old.waits }
        ensures exact { Completed self.old self.new }
        ensures turn { (m : Machine) (bytes rest : List ℕ) → IsAtRead m
            → self.old ≡ fed_with m bytes → IsWholeRead (register m 12) bytes rest
            → turn (bytes ++ rest) m ≡ record { next = self.new.machine; written = []; left = rest } }
    {
        if let Pause::Input { len: _, fed } = self.pause {
            self.hart.gives(10, fed);
            self.pause = Pause::Nothing;
        }
    }

    /// Byte `i` of those that the last step wrote.
    pub fn output_byte(&self, i: u32) -> u8
        requires { i < length self.now.written }
        ensures { result ≡ slice_index self.now.written i }
    {
        let mut byte = [0];
        self.hart.copies(i, &mut byte);
        byte[0]
    }

    /// Copies the bytes that the last step wrote, from one on.
    pub(crate) fn copy_bytes(&self, from: u32, into: &mut [u8])
        requires { from + length into.old ≤ length self.now.written }
        ensures { into.new ≡ take (length into.old) (drop from self.now.written) }
    {
        self.hart.copies(from, into);
    }

    /// The value of a register.
    pub fn register(&self, r: u8) -> u32
        requires { r < 32 }
        ensures { result ≡ register self.now.machine r }
    {
        self.hart.register(r)
    }

    /// The address of the next instruction, or of the one at which the machine ended.
    pub fn pc(&self) -> u32
        ensures { result ≡ self.now.machine.pc }
    {
        self.hart.pc()
    }

    /// How the machine ended, or that it runs.
    pub(crate) fn how_it_ends(&self) -> Ending
        ensures { result ≡ self.now.machine.ending }
    {
        self.hart.ending()
    }
}
