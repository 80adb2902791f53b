//! A job's own changes of the graph: what it sees of the chunks, by copies that no other job sees.
#![tactic(auto)]

mod own;
mod seen_chunks;
#[cfg(test)]
mod tests;

pub use own::Own;
