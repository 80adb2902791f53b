//! Why a grid isn't opened.

ghost use Rattle.std.specs.Prelude.{◌≡◌};
ghost use Rattle.gm_outside.specs.declared.traits.Trouble.TheVariants as troubles;
ghost use Rattle.gm_source.specs.Openings.{error_of_trouble, error_of_index, error_of_plan};
ghost use Rattle.gm_source.specs.declared.errors.OpenError.TheVariants as OpenErrors;

use gm_base::Memory;
use gm_grid::{GridError, IndexError};
use gm_label::PlanError;
use gm_outside::Trouble;
use std::alloc::AllocError;

/// Why a grid isn't opened.
#[derive(Clone, Copy, Debug, PartialEq, Eq)]
pub enum OpenError {
    /// There is no such file.
    Missing,
    /// The file is no grid, or has too many chunks: the first refusal.
    Grid(GridError),
    /// The depot failed.
    Fault,
    /// There was no memory.
    Memory,
}

impl From<Memory> for OpenError {
    ghost from_gives = { λ _ error. error ≡ OpenErrors.Memory };

    fn from(_error: Memory) -> OpenError {
        OpenError::Memory
    }
}

impl From<AllocError> for OpenError {
    ghost from_gives = { λ _ error. error ≡ OpenErrors.Memory };

    fn from(_error: AllocError) -> OpenError {
        OpenError::Memory
    }
}

impl From<GridError> for OpenError {
    ghost from_gives = { λ grid error. error ≡ OpenErrors.Grid grid };

    fn from(error: GridError) -> OpenError {
        OpenError::Grid(error)
    }
}

impl From<Trouble> for OpenError {
    ghost from_gives = { λ trouble error. error ≡ error_of_trouble trouble };

    fn from(trouble: Trouble) -> OpenError {
        match trouble {
            Trouble::Failed => OpenError::Fault,
            Trouble::Memory => OpenError::Memory,
        }
    }
}

impl From<IndexError> for OpenError {
    ghost from_gives = { λ index error. error ≡ error_of_index index };

    fn from(error: IndexError) -> OpenError {
        match error {
            IndexError::Grid(error) => OpenError::Grid(error),
            IndexError::Memory => OpenError::Memory,
        }
    }
}

impl From<PlanError> for OpenError {
    ghost from_gives = { λ plan error. error ≡ error_of_plan plan };

    fn from(error: PlanError) -> OpenError {
        match error {
            PlanError::TooManyChunks { chunks } => OpenError::Grid(GridError::TooManyChunks {
                chunks,
            }),
            PlanError::Memory => OpenError::Memory,
        }
    }
}
