// The flat machine, which runs a file's bytes as given: its steps, and its runs over a source and a sink.
#![tactic(auto)]

mod acting;
mod as_machine;
mod calling;
mod hart;
mod machine;
mod quiet;
mod registers;
mod running;

pub use machine::{Flat, start};
pub use machine_run::{RunEnd, Stepped};
pub use machine_spec::FaultKind;
pub use running::run_flat;
