//! Edge lists: a reader of texts that takes a text in any pieces, and the definition of the edges that a text lists.
#![tactic(auto)]

mod edge_error;
mod edge_reader;
pub mod examples;
mod line_state;
mod scanner;
#[cfg(test)]
mod tests;

pub use edge_error::{EdgeError, EdgeListRefusal};
pub use edge_reader::EdgeReader;
