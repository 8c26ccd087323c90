// Why a plan doesn't fit an executable.

use std::fmt;
use thiserror::Error;

/// Why a plan doesn't fit: the first check that it fails, in the order of the variants, with the first
/// line or row that fails it, and of a row's mask the lowest bit.
#[derive(Clone, Copy, Debug, PartialEq, Eq, Error)]
pub enum PlanFault {
    /// The address is no site, or an earlier line names it.
    #[error("site {0:08x}")]
    PlanSite(u32),
    /// The bit of a line is above 31 or an earlier line has it, or a mask has it and no line does.
    #[error("bit {0}")]
    PlanBit(u32),
    /// The row has a group above 15, or is the one after 64 others.
    #[error("row {0}")]
    PlanRow(u32),
    /// A chunk has more than 2^20 granules, there are more than 256 chunks, or the area has more than
    /// 1048576 granules in all.
    #[error("area")]
    AreaTooLarge,
    /// The `jal` at this address doesn't reach its stub.
    #[error("site {0:08x} out of reach")]
    SiteOutOfReach(u32),
}
