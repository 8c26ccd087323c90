// The flat machine as one that is run over a source and a sink.
ghost use Rattle.std.specs.Prelude.{◌^◌};
ghost use Rattle.flat_spec.specs.Machine as flat;
ghost use Rattle.flat_machine.specs.Rules.{flat_rules};

use crate::machine::Flat;
use machine_run::{Machine, Stepped};
use machine_spec::Ending;
use std::alloc::AllocError;

impl Machine for Flat {
    ghost State = { flat.Machine };

    ghost rules = { flat_rules };

    ghost seen = { λ flat. flat };

    ghost lasts = { λ flat. 2 ^ 32 };

    fn try_step(&mut self) -> Result<Stepped, AllocError> {
        Ok(self.step())
    }

    fn run_quietly(&mut self, most: u32) -> u32 {
        self.take_quiet_steps(most)
    }

    fn take_piece(&mut self, piece: &[u8]) {
        self.feed(piece);
    }

    fn end_read(&mut self) {
        self.fed();
    }

    fn copy_output(&self, from: u32, into: &mut [u8]) {
        self.copy_bytes(from, into);
    }

    fn ending(&self) -> Ending {
        self.how_it_ends()
    }
}
