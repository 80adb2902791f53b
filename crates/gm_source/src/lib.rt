//! A grid opened chunk by chunk, and one chunk fetched.
#![tactic(auto)]

mod errors;
pub mod examples;
mod fetching;
mod labelling;
pub mod laws;
mod opening;
mod reading;
#[cfg(test)]
mod tests;

pub use errors::OpenError;
pub use fetching::{FetchError, Fetcher, Found, fetch};
pub use gm_label::Raw;
pub use opening::open_grid;
