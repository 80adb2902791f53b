//! Edges of a graph.

/// A directed edge from one vertex to another, with its weight. Vertices are counted from 0.
#[derive(Clone, Copy, Debug, PartialEq, Eq)]
pub struct Edge {
    pub from: u32,
    pub to: u32,
    pub weight: u32,
}
