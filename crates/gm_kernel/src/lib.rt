//! What a graph job computes from round to round, as a trait with its laws, and the pass of edges that joins their gifts into sums.
//! Its `specs/` define the four kernels, the synchronous round, a job's lone run, and where a job stands among its phases.
#![tactic(auto)]

pub mod examples;
mod kernel;
pub mod laws;
mod pass;
mod phase;

pub use kernel::{Kernel, MAX_RANK, is_active_by_value};
pub use pass::pass_edges;
pub use phase::Phase;
