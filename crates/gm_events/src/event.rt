//! What may happen in a run.

use gm_base::Key;

/// Why a chunk couldn't be loaded.
#[derive(Clone, Copy, Debug, PartialEq, Eq)]
pub enum LoadCause {
    /// It couldn't be read.
    Read,
    /// It is another than when the grid was opened.
    Changed,
    /// There was no memory for its edges.
    Memory,
}

/// What happened. Lines of the script and jobs are counted from 0, in file order, chunks through the whole grid.
#[derive(Clone, Copy, Debug, PartialEq, Eq)]
pub enum Event {
    /// A line of the script was submitted.
    Submit { line: u32 },
    /// A chunk was visited, for every job that needed it then.
    Visit { chunk: u32 },
    /// The visited chunk is in memory as the jobs of this key see it.
    Loaded { key: Key },
    /// There was no memory for the copy of this key.
    NoCopy { key: Key },
    /// The visited chunk couldn't be loaded.
    LoadFailed { chunk: u32, cause: LoadCause },
    /// A job was given its pass over the chunk.
    Given { job: u32, chunk: u32 },
    /// A job has passed the chunk.
    Passed { job: u32, chunk: u32 },
}
