//! The kernel of the job that ranks vertices, in fixed-point numbers, and the count of out-degrees that it needs.
#![tactic(auto)]

mod fixed_point;
pub mod laws;
mod passes;
#[cfg(test)]
mod tests;

pub use fixed_point::Rank;
pub use passes::{MAX_DEGREE, count_pass, pass_shares, take_shares};
