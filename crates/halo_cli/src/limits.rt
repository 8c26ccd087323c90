// The most bytes of what a command reads.

/// Of a plan's text.
pub const PLAN_LIMIT: usize = 1048576;

/// Of a profile's text.
pub const PROFILE_LIMIT: usize = 33554432;

/// Of a file that is rewritten or shown.
pub const FILE_LIMIT: usize = 33554432;

/// Of a file that is run.
pub const RUN_LIMIT: usize = 34603008;
