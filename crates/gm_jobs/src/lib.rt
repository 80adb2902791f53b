//! Job texts: a reader of job texts, and the definition of the script that a text is.
#![tactic(auto)]

pub mod examples;
mod jobs_error;
mod keyword;
pub mod laws;
mod limits;
mod line_error;
mod line_words;
mod name_set;
mod script;
mod script_reader;
#[cfg(test)]
mod tests;

pub use jobs_error::{JobsError, JobsRefusal, Why};
pub use limits::{MAX_JOBS, MAX_ROUNDS, MAX_TEXT_BYTES, MAX_WAIT, MAX_WEIGHT};
pub use script::{Line, Script};
pub use script_reader::read;
