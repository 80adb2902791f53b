//! Component labels.

use gm_kernel::{Kernel, is_active_by_value};

/// The least label that reaches a vertex: each begins with its own, and an edge gives its ends' labels to each other.
#[derive(Clone, Copy)]
pub struct Least;

impl Kernel for Least {
    ghost use Rattle.std.specs.Prelude.{refl};
    ghost use Rattle.gm_base.specs.declared.job.Spec.TheVariants.{Wcc};
    ghost use Rattle.gm_kernel.specs.Kernels.{kernel_of};

    // No bound changes the kernel of a component job.
    ghost job = { λ _. Wcc 0 };

    ghost functions = { λ _. kernel_of (Wcc 0) };

    ghost is_of_its_job = { λ _. refl };

    fn init(&self, v: u32) -> u64 {
        u64::from(v)
    }

    fn start(&self, old: u64) -> u64 {
        old
    }

    fn give(&self, old: u64, _degree: u32, _weight: u32) -> u64 {
        old
    }

    fn join(&self, a: u64, b: u64) -> u64 {
        a.min(b)
    }

    fn active(&self, first: bool, older: u64, old: u64, _degree: u32) -> bool {
        is_active_by_value(first, older, old)
    }

    fn two_way(&self) -> bool {
        true
    }
}
