//! Ranks in units of 1 / 1,000,000,000.

ghost use Rattle.std.specs.Prelude.{◌≡◌, ◌+◌, ◌*◌, ◌/◌, min};
ghost use Rattle.gm_kernel.specs.Kernels.{share_of};

use gm_kernel::{Kernel, MAX_RANK};

/// What each vertex begins with: a rank of 1.
const ONE: u64 = 1_000_000_000;

/// What each vertex carries into a round: 0.15 of a rank of 1.
const CARRIED: u64 = 150_000_000;

/// 0.85 of a rank over the out-degree, rounded down, or 0 without edges. 0.85 is 17 / 20; a rank whose product with 17 wouldn't fit
/// is first divided, which rounds the same.
#[inline(always)]
#[tactic(auto, using(crate::proofs::ShareLemmas::share_reduced, crate::proofs::ShareLemmas::divided_first))]
pub(crate) fn share(rank: u64, degree: u32) -> u64
    ensures { result ≡ share_of rank degree }
{
    if degree == 0 {
        return 0;
    }
    let divisor = 20 * u64::from(degree);
    if rank <= u64::MAX / 17 {
        17 * rank / divisor
    } else {
        17 * (rank / divisor) + 17 * (rank % divisor) / divisor
    }
}

/// Two sums of shares, at most `MAX_RANK`.
#[inline(always)]
pub(crate) fn join(a: u64, b: u64) -> u64
    ensures { result ≡ min (a + b) MAX_RANK }
{
    a.saturating_add(b).min(MAX_RANK)
}

/// Ranks: over each edge a vertex gives an equal share of 0.85 of its rank. A job makes so many rounds.
#[derive(Clone, Copy)]
pub struct Rank {
    pub rounds: u32,
}

impl Kernel for Rank {
    ghost use Rattle.std.specs.Prelude.{refl};
    ghost use Rattle.gm_base.specs.declared.job.Spec.TheVariants.{Rank as RankJob};
    ghost use Rattle.gm_kernel.specs.Kernels.{kernel_of};

    ghost job = { λ kernel. RankJob kernel.rounds };

    ghost functions = { λ kernel. kernel_of (RankJob kernel.rounds) };

    ghost is_of_its_job = { λ _. refl };

    fn init(&self, _v: u32) -> u64 {
        ONE
    }

    fn start(&self, _old: u64) -> u64 {
        CARRIED
    }

    fn give(&self, old: u64, degree: u32, _weight: u32) -> u64 {
        share(old, degree)
    }

    fn join(&self, a: u64, b: u64) -> u64 {
        join(a, b)
    }

    fn active(&self, _first: bool, _older: u64, old: u64, degree: u32) -> bool {
        share(old, degree) != 0
    }

    fn two_way(&self) -> bool {
        false
    }
}
