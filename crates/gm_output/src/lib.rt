//! Texts on their way out: lines on the stack, and pieces of 4,096 bytes.
#![tactic(auto)]

mod line;
mod pieces;

pub use line::{Line, MAX_LINE_BYTES, MAX_WIDE_DIGITS};
pub use pieces::{PIECE, Pieces, write_texts};
