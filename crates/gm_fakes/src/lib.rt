//! Depots and sinks in memory, whose calls fail or find changed bytes where a test tells them to.
#![tactic(auto)]

#[cfg(test)]
mod callers;
mod drift_depot;
mod file_list;
mod mem_depot;
mod mem_sink;
mod noting_depot;

pub use drift_depot::DriftDepot;
pub use mem_depot::{Call, MemDepot};
pub use mem_sink::MemSink;
pub use noting_depot::{NotedCall, NotingDepot};
