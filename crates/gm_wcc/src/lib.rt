//! The kernel of the job that labels each vertex with the least vertex of its component.
#![tactic(auto)]

mod components;
#[cfg(test)]
mod tests;

pub use components::Least;
