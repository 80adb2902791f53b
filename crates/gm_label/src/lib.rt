//! The chunks of a grid and their labels.
#![tactic(auto)]

mod catalogue;
mod chunk;
pub mod examples;
mod label;
mod labels;
pub mod laws;
mod plan;
mod source_counts;
#[cfg(test)]
mod tests;

pub use catalogue::Catalogue;
pub use chunk::{Chunk, Overlay, Overlays, Raw};
pub use label::{ChunkLabel, Label};
pub use plan::PlanError;
pub use source_counts::SourceCounts;
