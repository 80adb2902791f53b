//! The jobs of a job text over a depot's chunks, until several are run in lockstep: one job after the other, the least owed chunk is fetched and
//! passed, and where none is owed the job is turned.
#![tactic(auto)]

mod job_run;
mod script_run;
mod view;

pub use script_run::run_script;
