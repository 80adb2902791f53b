//! Why a text is refused.

ghost use Rattle.std.specs.Prelude.{◌≡◌};
ghost use Rattle.gm_edges.specs.declared.edge_error.EdgeError.TheVariants.{Memory};

use thiserror::Error;

/// Why a text is no edge list: its first refused line, counted from 1. The count stands still at 2^64 - 1.
#[derive(Clone, Copy, Debug, PartialEq, Eq)]
pub enum EdgeListRefusal {
    /// The line is neither empty, a comment, nor two or three numbers of which the third is below 2^32.
    BadLine { line: u64 },
    /// An end of the line's edge is no vertex.
    NoVertex { line: u64 },
    /// The line's edge is one more than [`gm_base::MAX_EDGES`].
    TooManyEdges { line: u64 },
}

/// Why a reader gives no edges: the text's refusal, or want of memory.
#[derive(Clone, Copy, Debug, PartialEq, Eq, Error)]
pub enum EdgeError {
    /// As [`EdgeListRefusal::BadLine`].
    #[error("line {line}: not an edge")]
    BadLine { line: u64 },
    /// As [`EdgeListRefusal::NoVertex`].
    #[error("line {line}: no such vertex")]
    NoVertex { line: u64 },
    /// As [`EdgeListRefusal::TooManyEdges`].
    #[error("line {line}: too many edges")]
    TooManyEdges { line: u64 },
    /// There was no memory for the edges.
    #[error("out of memory")]
    Memory,
}

impl From<gm_base::Memory> for EdgeError {
    ghost from_gives = { λ _ error. error ≡ Memory };

    fn from(_error: gm_base::Memory) -> EdgeError {
        EdgeError::Memory
    }
}

impl EdgeError {
    ghost use Rattle.gm_edges.specs.EdgeErrors.{refusal_of};

    /// The text's refusal. `None` exactly where memory ran out.
    pub fn refusal(self) -> Option<EdgeListRefusal>
        ensures { result ≡ refusal_of self }
    {
        match self {
            EdgeError::BadLine { line } => Some(EdgeListRefusal::BadLine { line }),
            EdgeError::NoVertex { line } => Some(EdgeListRefusal::NoVertex { line }),
            EdgeError::TooManyEdges { line } => Some(EdgeListRefusal::TooManyEdges { line }),
            EdgeError::Memory => None,
        }
    }
}
