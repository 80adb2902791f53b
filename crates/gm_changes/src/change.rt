//! One change, and lists of them.

use gm_base::{Edge, Items};

/// A change of a graph.
#[derive(Clone, Copy, Debug, PartialEq, Eq)]
pub enum Change {
    /// The edge is added once more.
    Add(Edge),
    /// Every edge from the one vertex to the other is cut.
    Cut { from: u32, to: u32 },
}

/// A list of changes, in the order in which they are made.
pub type Changes = Items<Change>;
