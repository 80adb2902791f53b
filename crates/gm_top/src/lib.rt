//! The commands of the program, from their words to what they write and their status.
#![tactic(auto)]

mod here;
mod run_call;
mod starting;
mod top_call;

pub use here::run_here;
pub use starting::program;
pub use top_call::graphm;
