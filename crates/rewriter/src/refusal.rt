// Why a file isn't rewritten.

use exec_image::{FileRefusal, PlanFault};
use thiserror::Error;

/// Why a file isn't rewritten by a plan: the first check that the file fails, else the first that the
/// plan fails; or want of memory. `File` never carries a want of memory.
#[derive(Clone, Copy, Debug, PartialEq, Eq, Error)]
pub enum RewriteRefusal {
    /// The file isn't accepted.
    #[error("file: {0}")]
    File(FileRefusal),
    /// The plan doesn't fit the file.
    #[error("plan: {0}")]
    Plan(PlanFault),
    /// There is no memory for the new file.
    #[error("out of memory")]
    Memory,
}
