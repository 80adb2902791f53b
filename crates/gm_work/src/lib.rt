//! One job over chunks: it owes those that an active vertex needs, passes them in any order, and turns from round to round.
#![tactic(auto)]

pub mod examples;
mod keys;
mod kinds;
pub mod laws;
mod marks;
mod needs;
mod passes;
#[cfg(test)]
mod tests;
mod work;

pub use work::Work;
