//! Why bytes are no grid.

ghost use Rattle.std.specs.Prelude.{◌≡◌};
ghost use Rattle.gm_grid.specs.declared.grid_error.IndexError.TheVariants as IndexErrors;

use std::alloc::AllocError;
use thiserror::Error;

/// Why bytes are no grid. Where several apply it is the first in the order of the definition `grid_refusal`.
#[derive(Clone, Copy, Debug, PartialEq, Eq, Error)]
pub enum GridError {
    /// The first 8 bytes aren't `GGRID001`.
    #[error("bad magic")]
    BadMagic,
    /// n isn't 1 to [`gm_base::MAX_VERTICES`], or parts isn't 1 to [`gm_base::MAX_PARTS`], or parts is above n.
    #[error("bad shape n {n} parts {parts}")]
    BadShape { n: u32, parts: u32 },
    /// The blocks' numbers of edges add up to more than [`gm_base::MAX_EDGES`].
    #[error("too many edges {edges}")]
    TooManyEdges { edges: u128 },
    /// There are `found` bytes where there should be `expected`: too few for the head or the index, or not the size of the whole.
    #[error("size {found}, expected {expected}")]
    BadSize { found: u64, expected: u64 },
    /// At the chunk size that was named there are more than [`gm_base::MAX_CHUNKS`] chunks.
    #[error("too many chunks {chunks}")]
    TooManyChunks { chunks: u64 },
    /// An edge has an end from n upwards or doesn't lie in its block: the first in file order, counted from 0.
    #[error("bad edge {index}")]
    BadEdge { index: u64 },
}

/// Why an index wasn't read.
#[derive(Clone, Copy, Debug, PartialEq, Eq, Error)]
pub enum IndexError {
    /// It is no grid's.
    #[error(transparent)]
    Grid(GridError),
    /// There was no memory for it.
    #[error("out of memory")]
    Memory,
}

impl From<GridError> for IndexError {
    ghost from_gives = { λ grid error. error ≡ IndexErrors.Grid grid };

    fn from(error: GridError) -> IndexError {
        IndexError::Grid(error)
    }
}

impl From<AllocError> for IndexError {
    ghost from_gives = { λ _ error. error ≡ IndexErrors.Memory };

    fn from(_error: AllocError) -> IndexError {
        IndexError::Memory
    }
}
