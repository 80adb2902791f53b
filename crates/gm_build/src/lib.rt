//! Building a grid: the file of a list of edges, each in its block.
#![tactic(auto)]

mod blocks;
pub mod examples;
mod grid_file;
pub mod laws;
mod places;

pub use grid_file::build;

#[cfg(test)]
mod tests;
