// Why the text of a plan is refused.
use thiserror::Error;

/// Why a text is no plan that is taken. Lines count from 1; a missing line counts as the line after
/// the last.
#[derive(Clone, Copy, Debug, PartialEq, Eq, Drop, Error)]
pub enum PlanRefusal {
    /// The first line that the grammar doesn't admit.
    #[error("line {0}")]
    Line(u64),
    /// The line of the 33rd site or the 65th row, where it and all lines before it are admitted.
    #[error("too many at line {0}")]
    TooMany(u64),
    /// Want of memory.
    #[error("out of memory")]
    Memory,
}
