//! Which block of a grid comes next: the one that many jobs need that need little else.
#![tactic(auto)]

pub mod examples;
pub mod laws;
mod needs;
mod priority;
#[cfg(test)]
mod tests;

pub use needs::JobNeeds;
pub use priority::pick;
