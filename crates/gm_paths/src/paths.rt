//! Paths from a source.

use gm_base::TOP;
use gm_kernel::{Kernel, is_active_by_value};

/// Levels from a source: 0 there, and over each edge one more.
pub type Bfs = Paths<false>;

/// Distances from a source: 0 there, and over each edge its weight more.
pub type Sssp = Paths<true>;

/// The least that adds up along a path from a source, over each edge its weight or one. No sum passes `TOP`.
#[derive(Clone, Copy)]
pub struct Paths<const WEIGHTED: bool> {
    pub source: u32,
}

impl<const WEIGHTED: bool> Kernel for Paths<WEIGHTED> {
    ghost use Rattle.std.specs.Prelude.{refl};
    ghost use Rattle.gm_kernel.specs.Kernels.{kernel_of};
    ghost use Rattle.gm_paths.specs.PathJobs.{path_job};

    ghost job = { λ kernel. path_job WEIGHTED kernel.source };

    ghost functions = { λ kernel. kernel_of (path_job WEIGHTED kernel.source) };

    ghost is_of_its_job = { λ _. refl };

    fn init(&self, v: u32) -> u64 {
        if v == self.source { 0 } else { TOP }
    }

    fn start(&self, old: u64) -> u64 {
        old
    }

    fn give(&self, old: u64, _degree: u32, weight: u32) -> u64 {
        let step = if WEIGHTED { weight } else { 1 };
        old.saturating_add(u64::from(step))
    }

    fn join(&self, a: u64, b: u64) -> u64 {
        a.min(b)
    }

    fn active(&self, first: bool, older: u64, old: u64, _degree: u32) -> bool {
        is_active_by_value(first, older, old)
    }

    fn two_way(&self) -> bool {
        false
    }
}
