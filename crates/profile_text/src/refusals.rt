// Why the text of a profile is refused.
use thiserror::Error;

/// Why a text is no profile that is taken. Lines count from 1; a missing line counts as the line after
/// the last.
#[derive(Clone, Copy, Debug, PartialEq, Eq, Drop, Error)]
pub enum ProfileRefusal {
    /// The first line that the grammar doesn't admit.
    #[error("line {0}")]
    Line(u64),
    /// Want of memory.
    #[error("out of memory")]
    Memory,
}
