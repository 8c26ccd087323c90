// The symbol machine, which runs an executable as its plan sees it: pointers and return addresses are
// symbols, and each chosen call site has a bit. Its steps, and its runs over a source and a sink.
#![tactic(auto)]

mod acting;
mod as_machine;
mod calling;
mod code;
mod found;
mod going;
mod hart;
mod jumping;
mod machine;
mod noting;
mod numbers;
mod placing;
mod reached;
mod requests;
mod returns;
mod running;
mod serving;

pub use machine::{SymMachine, start};
pub use machine_run::Stepped;
pub use machine_spec::FaultKind;
pub use running::run_symbols;
pub use sym_spec::{BlockAccess, StepNote};
pub use sym_value::Value;

/// How a run of the symbol machine ends.
#[derive(Clone, Copy, Debug, PartialEq, Eq)]
pub enum SymEnd {
    /// With this status, at the last of so many steps.
    Exited {
        status: u8,
        steps: u32,
    },
    /// At a word that is no instruction to be run, after so many steps before.
    Illegal {
        at: u32,
        steps: u32,
    },
    /// At an address fault, after so many steps before.
    Fault {
        kind: FaultKind,
        at: u32,
        steps: u32,
    },
    /// The machine still runs after all steps.
    Steps,
    /// A read of the input failed.
    ReadFault,
    /// A write of the output failed.
    WriteFault,
    /// A step lacked memory.
    Memory,
}
