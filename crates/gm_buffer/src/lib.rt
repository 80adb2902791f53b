//! The copies of chunks that several jobs pass: one a key, held as long as a job has to pass it.
#![tactic(auto)]

mod buffer;
mod crossing;
mod slot;
#[cfg(test)]
mod tests;

pub use buffer::Buffer;
