//! The words that every layer speaks in: edges and the shape of a grid, jobs and their outcomes, lists, numbers in decimal.
//! Its `specs/` define the graph and the size of a grid.
#![tactic(auto)]

mod copies;
mod edge;
mod items;
mod job;
pub mod laws;
mod limits;
mod memory;
mod name;
mod numbers;
mod shape;
#[cfg(test)]
mod tests;
mod words;

pub use copies::{ChunkCopy, Key, Tag};
pub use edge::Edge;
pub use items::{Edges, Items, Results, Sources, Values};
pub use job::{JobLine, Outcome, Spec, Turned};
pub use limits::{
    MAX_CHANGES, MAX_CHUNK_SIZE, MAX_CHUNKS, MAX_DIGITS, MAX_EDGES, MAX_NAME_BYTES, MAX_PARTS,
    MAX_VERTICES, TOP,
};
pub use memory::Memory;
pub use name::{Name, NameError};
pub use numbers::{digits, number};
pub use shape::Shape;
pub use words::Words;
