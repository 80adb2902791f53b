//! The kernels of the jobs that look for paths from a source: breadth-first levels and shortest distances.
#![tactic(auto)]

mod paths;
#[cfg(test)]
mod tests;

pub use paths::{Bfs, Paths, Sssp};
