//! The core machine as laws: what holds of every legal journal of a run of several jobs, and the one schedule that a planned one keeps to.
#![tactic(auto)]

pub mod examples;
pub mod examples_schedules;
pub mod laws;
