//! Versions of a grid, each with one update more, and what each job sees of its chunks.
#![tactic(auto)]

mod batches;
pub mod examples;
mod histories;
mod history;
pub mod laws;
mod reached;
#[cfg(test)]
mod tests;
mod versions;

pub use reached::{added_source, reach};
pub use versions::Versions;
