//! Why a line isn't taken.

ghost use Rattle.std.specs.Prelude.{◌≡◌};
ghost use Rattle.gm_jobs.specs.declared.line_error.LineError.TheVariants.{Bad, Memory};

use crate::Why;
use std::alloc::AllocFailed;

/// Why a line isn't taken.
#[derive(Clone, Copy)]
pub enum LineError {
    /// It is none of the lines that may stand there.
    Bad(Why),
    /// There was no memory for it.
    Memory,
}

impl From<Why> for LineError {
    ghost from_gives = { λ why error. error ≡ Bad why };

    fn from(why: Why) -> LineError {
        LineError::Bad(why)
    }
}

impl From<gm_base::Memory> for LineError {
    ghost from_gives = { λ _ error. error ≡ Memory };

    fn from(_error: gm_base::Memory) -> LineError {
        LineError::Memory
    }
}

impl<T: Drop> From<AllocFailed<T>> for LineError {
    ghost from_gives = { λ _ error. error ≡ Memory };

    fn from(_error: AllocFailed<T>) -> LineError {
        LineError::Memory
    }
}
