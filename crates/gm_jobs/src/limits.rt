//! The greatest sizes and numbers of a job text.

/// The greatest number of bytes of a job text, 2^20.
pub const MAX_TEXT_BYTES: usize = 1_048_576;

/// The greatest number of jobs of a job text.
pub const MAX_JOBS: u32 = 64;

/// The greatest number of rounds that a job text may state.
pub const MAX_ROUNDS: u64 = 1_000_000;

/// The greatest number of visits that a `wait` line may state.
pub const MAX_WAIT: u64 = 1_000_000_000;

/// The greatest weight of an edge, 2^32 - 1.
pub const MAX_WEIGHT: u64 = 4_294_967_295;
