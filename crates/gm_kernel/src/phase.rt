//! The phases of a job.

/// What a job's passes do, with the number of the round, counted from 0.
#[derive(Clone, Copy, Debug, PartialEq, Eq)]
pub enum Phase {
    /// They count the out-degrees that the round needs. A rank job alone begins so.
    Counting { round: u32 },
    /// They join gifts into the round's sums.
    Round { round: u32 },
}
