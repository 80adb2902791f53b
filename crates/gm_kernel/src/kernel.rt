//! The trait of kernels, and the test of activity that several of them share.

ghost use Rattle.std.specs.Prelude.{◌≡◌};
ghost use Rattle.gm_base.specs.declared.job.Spec.{Spec as Job};
ghost use Rattle.gm_kernel.specs.Kernels.{Kernel as Functions, kernel_of};
ghost use Rattle.gm_kernel.specs.Activity.{activity_of, is_active_by_value};

use gm_base::TOP;

/// No join of ranks passes 2^57.
pub const MAX_RANK: u64 = 144_115_188_075_855_872;

/// What a job computes from round to round. Each call is total, and means its function of `functions`.
pub trait Kernel {
    /// A job that has this kernel: what it computes and from where. Its bound or number of rounds may be any.
    ghost job: { Self → Job };

    /// The job's kernel as contracts see it.
    ghost functions: { Self → Functions };

    /// The value of a vertex before the first round.
    fn init(&self, v: u32) -> u64
        ensures { result ≡ (functions self.now).initial_value v };

    /// What a vertex carries of its value into the next round.
    fn start(&self, old: u64) -> u64
        ensures { result ≡ (functions self.now).carried_value old };

    /// What a vertex with this value and this out-degree gives over an edge of this weight.
    fn give(&self, old: u64, degree: u32, weight: u32) -> u64
        ensures { result ≡ (functions self.now).gift_along old degree weight };

    /// Two gifts joined, or a sum and a gift.
    fn join(&self, a: u64, b: u64) -> u64
        ensures { result ≡ (functions self.now).join_values a b };

    /// Whether the gifts of a vertex may change anything in a round, by the test of its job. `older` is the value one round before `old`;
    /// in the first round it isn't looked at.
    fn active(&self, first: bool, older: u64, old: u64, degree: u32) -> bool
        ensures { result ≡ activity_of (job self.now) first older old degree };

    /// Whether an edge also gives against its direction. The same answer for all kernels of a type lets a pass be built for it.
    fn two_way(&self) -> bool
        ensures { result ≡ (functions self.now).is_two_way };

    /// It is the kernel of its job. So gifts may be joined in any order, and those of inactive vertices may be left out.
    ghost is_of_its_job: { (kernel : Self) → functions kernel ≡ kernel_of (job kernel) };
}

/// Whether a vertex is active by its value: in the first round where it is reached, later where the last round changed its value.
#[inline(always)]
pub fn is_active_by_value(first: bool, older: u64, old: u64) -> bool
    ensures { result ≡ is_active_by_value first older old }
{
    if first { old != TOP } else { old != older }
}
