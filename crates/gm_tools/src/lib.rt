//! The tools beside a run: `build` makes the grid of an edge list.
#![tactic(auto)]

mod build_tool;
mod edge_reading;
pub mod examples;
mod grid_opening;
mod info_tool;
#[cfg(test)]
mod tests;
mod tool_call;

pub use build_tool::run_build;
pub use edge_reading::TEXT_PIECE;
pub use grid_opening::load_grid;
pub use info_tool::run_info;
pub use tool_call::tool;
