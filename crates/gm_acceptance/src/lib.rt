//! Rows of the whole program over files in memory: texts, statuses, and each call failing in turn. Tests alone stand here.
#![tactic(auto)]

#[cfg(test)]
mod arguments;
#[cfg(test)]
mod calls;
#[cfg(test)]
mod drifts;
#[cfg(test)]
mod failing_calls;
#[cfg(test)]
mod failing_reads;
#[cfg(test)]
mod grids;
#[cfg(test)]
mod jobs;
#[cfg(test)]
mod kinds;
#[cfg(test)]
mod limits;
#[cfg(test)]
mod mutations;
#[cfg(test)]
mod refusals;
#[cfg(test)]
mod sizes;
