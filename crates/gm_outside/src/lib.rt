//! The outside of the program: depots of files, sinks of bytes and the gate before a pass.
#![tactic(auto)]

mod file_depot;
mod gates;
mod reading;
mod regular_files;
mod traits;
mod write_sink;
mod writing;

pub use file_depot::FileDepot;
pub use gates::OpenGate;
pub use reading::read_whole;
pub use traits::{Depot, Gate, MAX_COUNT, Sink, Trouble};
pub use write_sink::WriteSink;
