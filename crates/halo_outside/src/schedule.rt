// Which calls of an object in memory are to fail.
ghost use Rattle.std.specs.Prelude.{◌≡◌, ◌↔◌, IsTrue};
ghost use Rattle.halo_outside.specs.Memory.{first_call, after_call, FailsNow};

use std::marker::Model;

/// The numbers of the calls that are to fail, and the number of the next call, from 0. At the
/// greatest `u64` the number stands.
#[derive(Debug, Drop)]
pub struct Schedule {
    failing: Vec<u64>,
    next: u64,
}

impl Model for Schedule {
    ghost use Rattle.halo_outside.specs.Memory.{Calls};

    ghost Value = { Calls };

    ghost view = { λ schedule. record { failing = schedule.failing.items; next = schedule.next } };
}

impl Schedule {
    /// No call was made yet.
    pub fn new(failing: Vec<u64>) -> Self
        ensures { result ≡ first_call failing.items }
    {
        Schedule { failing, next: 0 }
    }

    /// Whether the call that begins is to fail; the call after it has the next number.
    pub fn begins_failing_call(&mut self) -> bool
        ensures fails { IsTrue result ↔ FailsNow self.old }
        ensures next { self.new ≡ after_call self.old }
    {
        let call = self.next;
        self.next = call.saturating_add(1);
        self.failing.contains(&call)
    }
}
