//! The command that the words of a command line say, read by `clap`.
#![tactic(auto)]

mod command;
pub mod examples;
mod operands;
#[cfg(test)]
mod tests;
mod usage;
mod words;

pub use command::{BuildCommand, Command, InfoCommand, RunCommand};
pub use words::read_words;
