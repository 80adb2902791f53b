//! The report of jobs: their lines, and below a job that is done its values.
#![tactic(auto)]

pub mod examples;
mod job_lines;
mod report;
#[cfg(test)]
mod tests;

pub use report::write;
