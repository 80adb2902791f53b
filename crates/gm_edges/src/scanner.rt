//! The reading of a text, line by line.

ghost use Rattle.std.specs.Prelude.{◌≡◌, Ok};
ghost use Rattle.std.specs.Result.{result_and};
ghost use Rattle.gm_base.specs.declared.limits.TheConstants.{MAX_EDGES};
ghost use Rattle.gm_edges.specs.EdgeText.{edges_after};
ghost use Rattle.gm_edges.specs.EdgeErrors.{IsUnlessMemory};
ghost use Rattle.gm_edges.specs.ReaderStates.{scanner_at_start, edges_at_end, after_bytes};

use crate::EdgeError;
use crate::line_state::{LineState, Meaning, WordPlace};
use gm_base::{Edge, Edges, MAX_EDGES};
use std::alloc::Global;

/// What is known of a text so far.
#[derive(Drop)]
pub(crate) struct Scanner {
    /// The number of vertices.
    pub n: u32,
    /// The number of the present line, counted from 1.
    pub number: u64,
    /// The present line so far.
    pub line: LineState,
    /// The edges of the lines before.
    pub edges: Edges,
}

/// Adds the edge of a line of this number, where its meaning is one.
fn add_line(n: u32, number: u64, edges: &mut Edges, meaning: Meaning) -> Result<(), EdgeError>
    ensures { IsUnlessMemory (result_and result (Ok edges.new)) (edges_after n MAX_EDGES number edges.old meaning) }
{
    let (from, to, weight) = match meaning {
        Meaning::Nothing => return Ok(()),
        Meaning::Refused => return Err(EdgeError::BadLine { line: number }),
        Meaning::Lists { from, to, weight } => (from, to, weight),
    };
    if from >= u64::from(n) || to >= u64::from(n) {
        return Err(EdgeError::NoVertex { line: number });
    }
    if edges.len() as u64 >= MAX_EDGES {
        return Err(EdgeError::TooManyEdges { line: number });
    }
    let edge = Edge {
        from: from as u32,
        to: to as u32,
        weight,
    };
    edges.push(edge)?;
    Ok(())
}

impl Scanner {
    /// At the beginning of a text over n vertices.
    pub fn new(alloc: Global, n: u32) -> Scanner
        ensures { result ≡ scanner_at_start n }
    {
        Scanner {
            n,
            number: 1,
            line: LineState::at(WordPlace::First),
            edges: Edges::new(alloc),
        }
    }

    /// Reads on.
    pub fn read(&mut self, piece: &[u8]) -> Result<(), EdgeError>
        ensures { IsUnlessMemory (result_and result (Ok self.new)) (after_bytes (Ok self.old) piece.now) }
    {
        let mut line = self.line;
        for &byte in piece {
            if byte == b'\n' {
                add_line(self.n, self.number, &mut self.edges, line.meaning())?;
                self.number = self.number.saturating_add(1);
                line = LineState::at(WordPlace::First);
            } else {
                line = line.after(byte);
            }
        }
        self.line = line;
        Ok(())
    }

    /// The edges, if the text ends here.
    pub fn finish(mut self) -> Result<Edges, EdgeError>
        ensures { IsUnlessMemory result (edges_at_end self) }
    {
        add_line(self.n, self.number, &mut self.edges, self.line.meaning())?;
        Ok(self.edges)
    }
}
