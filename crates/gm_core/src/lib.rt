//! The jobs of a script over one grid: what each of them sees, and the laws of its work. Until several are run in lockstep there are laws alone.
#![tactic(auto)]

pub mod examples;
pub mod laws;
pub mod lockstep;
pub mod lockstep_examples;
