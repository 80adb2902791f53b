//! The grid's file format, GridGraph's grid: the edges of a graph block by block, behind a head and an index.
#![tactic(auto)]

pub mod examples;
mod fields;
mod grid_error;
mod index;
pub mod laws;
mod placement;
mod sizes;
#[cfg(test)]
mod tests;

pub use fields::{read_edge, read_head, write_count, write_edge, write_head};
pub use grid_error::{GridError, IndexError};
pub use index::{Index, index_size, read_index};
pub use placement::{BlockRanges, check_edge};
pub use sizes::{EDGE_SIZE, ENTRY_SIZE, HEAD_SIZE};
