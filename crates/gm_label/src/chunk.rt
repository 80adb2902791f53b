//! Chunks, and what is read or added of one.

use gm_base::{Edges, Items, Key, Sources};

/// A chunk: its block, the number of its first edge in the grid, counted from 0, and how many edges it has.
#[derive(Clone, Copy, Debug, PartialEq, Eq)]
pub struct Chunk {
    pub block: u32,
    pub first: u64,
    pub length: u32,
}

/// Where a chunk stands, as the catalogue keeps it: beside what [`Chunk`] tells, whether it is the last one of its block.
#[derive(Clone, Copy, Debug, PartialEq, Eq)]
pub struct Place {
    pub block: u32,
    pub first: u32,
    pub count: u32,
    pub is_last: bool,
}

/// What a job sees of a chunk that changes concern: the key of its copy, and the sources that were added to those of its label.
#[derive(Drop)]
pub struct Overlay {
    pub key: Key,
    pub added: Sources,
}

/// A list of overlays.
pub type Overlays = Items<Overlay>;

/// A chunk's edges as they were read from the grid.
#[derive(Drop)]
pub struct Raw {
    pub chunk: u32,
    pub edges: Edges,
}
