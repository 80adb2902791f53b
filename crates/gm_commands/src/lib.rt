//! What the commands have in common: the files that they read, why they end without their output, and what they say then.
#![tactic(auto)]

pub mod examples;
mod failure;
mod failure_text;
mod files;
mod standard_error;

pub use failure::{Failure, Operand, Refusal};
pub use files::{FileText, file_size, read_file};
pub use standard_error::{conclude, say_out_of_memory, say_usage};
