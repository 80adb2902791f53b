//! The jobs of a script over one grid: what each of them sees of it, and by which keys.
#![tactic(auto)]

pub mod examples;
pub mod laws;
