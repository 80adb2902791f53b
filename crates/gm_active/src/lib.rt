//! Which vertices are active in a round, and which chunks a job needs for it.
#![tactic(auto)]

mod active;
mod bit_set;
mod chunk_set;
pub mod examples;
mod scheduling;
#[cfg(test)]
mod tests;
mod word;

pub use active::Active;
pub use chunk_set::ChunkSet;
pub use scheduling::{owed, owed_in_counting};
