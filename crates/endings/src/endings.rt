// How a command ends.

use exec_image::{FileRefusal, PlanFault};
use machine_spec::FaultKind;
use plan_core::PlanRefusal;
use profile_text::ProfileRefusal;
use thiserror::Error;

/// What is wrong with a file.
#[derive(Clone, Copy, Debug, PartialEq, Eq, Error)]
pub enum BadFile {
    /// It is longer than its limit: 34603008 bytes where it is run, else 33554432.
    #[error("too long")]
    TooLong,
    /// It isn't an executable that is accepted; where it is run, it isn't readable (`FileRefusal::Elf`).
    #[error("{0}")]
    Refused(FileRefusal),
}

/// What is wrong with a plan.
#[derive(Clone, Copy, Debug, PartialEq, Eq, Error)]
pub enum BadPlan {
    /// Its text is longer than 1048576 bytes.
    #[error("too long")]
    TooLong,
    /// Its text isn't one that is taken.
    #[error("{0}")]
    Text(PlanRefusal),
    /// It doesn't fit the file.
    #[error("{0}")]
    Misfit(PlanFault),
}

/// What is wrong with a profile.
#[derive(Clone, Copy, Debug, PartialEq, Eq, Error)]
pub enum BadProfile {
    /// Its text is longer than 33554432 bytes.
    #[error("too long")]
    TooLong,
    /// Its text isn't one that is taken.
    #[error("{0}")]
    Text(ProfileRefusal),
}

/// How a command ends.
#[derive(Clone, Copy, Debug, PartialEq, Eq)]
pub enum Ending {
    /// The command is done, and says nothing of it.
    Done,
    /// The program exits with a status, after so many steps, that of the exit included.
    Exited {
        status: u8,
        steps: u32,
    },
    /// The words aren't in the grammar. The place, from 0, is that of the first word that no line of the
    /// grammar has there, or the number of words.
    Usage(u64),
    /// The file was refused.
    File(BadFile),
    /// The plan was refused.
    Plan(BadPlan),
    /// The profile was refused.
    Profile(BadProfile),
    /// A file or the input couldn't be read.
    ReadFault,
    /// The output or the note couldn't be written.
    WriteFault,
    /// There was no memory for it.
    Memory,
    /// The program still runs after so many steps.
    StillRunning {
        steps: u32,
    },
    /// The program faults at an address, after so many steps.
    Fault {
        kind: FaultKind,
        at: u32,
        steps: u32,
    },
    /// The program reaches a word that is no instruction, at an address, after so many steps.
    Illegal {
        at: u32,
        steps: u32,
    },
}
