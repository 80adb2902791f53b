//! Copies of chunks: for whom one was made, which one it is, and its edges.

use crate::Edges;

/// For whom a copy of a chunk was made. Updates are counted from 1, jobs from 0, both in file order.
#[derive(Clone, Copy, Debug, PartialEq, Eq)]
pub enum Tag {
    /// For every job whose version is this update, or a later one up to the next that concerns the chunk. 0 is the grid itself.
    Update(u32),
    /// For this job alone, which changes the chunk.
    Own(u32),
}

/// Which copy of which chunk. Chunks are counted through the whole grid, from 0.
#[derive(Clone, Copy, Debug, PartialEq, Eq)]
pub struct Key {
    pub chunk: u32,
    pub tag: Tag,
}

/// A chunk's edges as the jobs of one key see them. One copy is shared by all of them.
#[derive(Drop)]
pub struct ChunkCopy {
    pub key: Key,
    pub edges: Edges,
}
