// Runs of machines over a source and a sink: waiting for input, output through a buffer, and the loop over steps.
#![tactic(auto)]

mod pause;
mod pending;
mod running;
mod serving;
mod traits;

pub use machine_spec::{Ending, FaultKind};
pub use pause::{Pause, pause_of};
pub use running::run;
pub use serving::{feed_from, read_from};
pub use traits::Machine;

/// What a step of a machine did.
#[derive(Clone, Copy, Debug, PartialEq, Eq)]
pub enum Stepped {
    /// An instruction that asks nothing of the outside.
    Went,
    /// A system call wrote `len` bytes.
    Wrote { len: u32 },
    /// A system call wants at most `len` bytes of the input, and the machine waits for them.
    WantsInput { len: u32 },
    /// The machine ended with this status.
    Exited(u8),
    /// The machine ended at a word that is no instruction to be run, at this address.
    Illegal { at: u32 },
    /// The machine ended at an address fault of the instruction at this address.
    Fault { kind: FaultKind, at: u32 },
}

/// How a run of a machine ends.
#[derive(Clone, Copy, Debug, PartialEq, Eq)]
pub enum RunEnd {
    /// With this status, at the last of so many steps.
    Exited {
        status: u8,
        steps: u32,
    },
    /// At a word that is no instruction to be run, after so many steps before.
    Illegal {
        at: u32,
        steps: u32,
    },
    /// At an address fault, after so many steps before.
    Fault {
        kind: FaultKind,
        at: u32,
        steps: u32,
    },
    /// The machine still runs after all steps.
    Steps,
    /// A read of the input failed.
    ReadFault,
    /// A write of the output failed.
    WriteFault,
}
