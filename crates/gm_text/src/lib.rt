//! Texts that people write: their lines, and the words of a line.
#![tactic(auto)]

pub mod examples;
#[cfg(test)]
mod tests;
mod walking;

pub use walking::{means_something, next_line, next_statement, next_word};
