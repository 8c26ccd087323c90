// The symbol machine as one that is run over a source and a sink.
ghost use Rattle.std.specs.Prelude.{◌-◌, length};
ghost use Rattle.sym_machine.specs.Programs.{Program};
ghost use Rattle.sym_machine.specs.Rules.{sym_rules};
ghost use Rattle.sym_machine.specs.Seen.{seen_by_run};

use crate::machine::SymMachine;
use machine_run::{Machine, Stepped};
use machine_spec::Ending;
use std::alloc::AllocError;

impl<'a> Machine for SymMachine<'a> {
    ghost State = { Program };

    ghost rules = { sym_rules };

    ghost seen = { λ machine. seen_by_run machine };

    ghost lasts = { λ machine. 4294967295 - length machine.program.machine.at };

    fn try_step(&mut self) -> Result<Stepped, AllocError> {
        self.step()
    }

    fn run_quietly(&mut self, most: u32) -> u32 {
        self.take_quiet_steps(most)
    }

    fn take_piece(&mut self, piece: &[u8]) {
        self.feed(piece);
    }

    fn end_read(&mut self) {
        self.fed();
    }

    fn copy_output(&self, from: u32, into: &mut [u8]) {
        self.copy_bytes(from, into);
    }

    fn ending(&self) -> Ending {
        self.how_it_ends()
    }
}
