// How calls to the outside fail.
use thiserror::Error;

/// A read of a source or a write to a sink failed.
#[derive(Clone, Copy, Debug, PartialEq, Eq, Error)]
#[error("the read or write failed")]
pub struct Failed;

/// Why a file was not read.
#[derive(Clone, Copy, Debug, PartialEq, Eq, Error)]
pub enum FileFault {
    /// The file is missing, or a read of it failed.
    #[error("the file is missing or can't be read")]
    Failed,
    /// The contents are longer than the limit of the call.
    #[error("the file is too long")]
    TooLong,
    /// There was no memory for the contents.
    #[error("out of memory")]
    Memory,
}
