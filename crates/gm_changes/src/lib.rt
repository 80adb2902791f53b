//! Changes of a graph: what a job file adds to it and cuts from it, and which of them concern a chunk.
#![tactic(auto)]

mod applying;
mod change;
mod concerning;
mod cut_sources;
pub mod examples;
mod last_cuts;
pub mod laws;
#[cfg(test)]
mod tests;

pub use applying::apply;
pub use change::{Change, Changes};
pub use concerning::{for_chunk, gather};
