//! Jobs and what became of them.

use crate::{Name, Values};

/// What a job computes. A bound is the greatest number of rounds, from 1 to 1,000,000 in a job text, n + 1 where none is stated.
#[derive(Clone, Copy, Debug, PartialEq, Eq)]
pub enum Spec {
    /// Breadth-first levels from the source.
    Bfs { source: u32, bound: u32 },
    /// Shortest distances from the source, by the edges' weights.
    Sssp { source: u32, bound: u32 },
    /// Component labels: the least vertex that is reached when edges are taken either way.
    Wcc { bound: u32 },
    /// So many rounds of fixed-point rank, in units of 1 / 1,000,000,000.
    Rank { rounds: u32 },
}

/// What a job is after a round: whether it goes on.
#[derive(Clone, Copy, Debug, PartialEq, Eq)]
pub enum Turned {
    /// It goes on, and needs a chunk in its next round.
    Owes,
    /// It is done after so many rounds.
    Done { rounds: u32 },
    /// It hadn't settled after as many rounds as its bound allows.
    Bound { bound: u32 },
}

/// What became of a job.
#[derive(Drop)]
pub enum Outcome {
    /// It ended with these values after so many rounds.
    Done { rounds: u32, values: Values },
    /// It hadn't settled after as many rounds as its bound allows.
    Rounds { bound: u32 },
    /// A chunk of a block that it needed couldn't be read.
    Read { block: u32, chunk: u32 },
    /// A chunk of a block that it needed is another than when the grid was opened.
    Changed { block: u32, chunk: u32 },
    /// It ended for want of memory.
    Memory,
}

/// A job's line of the report: its name, the version of the graph that it saw, and its outcome.
#[derive(Drop)]
pub struct JobLine {
    pub name: Name,
    pub version: u32,
    pub outcome: Outcome,
}
