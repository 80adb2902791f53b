//! What happens in a run of several jobs that share each chunk that is loaded, as a list of events.
#![tactic(auto)]

mod event;
pub mod examples;
mod journal;
mod tally;
#[cfg(test)]
mod tests;

pub use event::{Event, LoadCause};
pub use journal::Journal;
pub use tally::Tally;
