//! A chunk's edges passed into the sums of a round, by the kernel of the job.

ghost use Rattle.std.specs.Prelude.{◌≡◌, ◌+◌, ℕ, min, true, List, length, map, slice_index, All};
ghost use Rattle.std.specs.List.{range_with_len};
ghost use Rattle.gm_base.specs.Graph.{HasEndsBelow, out_degree};
ghost use Rattle.gm_kernel.specs.Kernels.{kernel_of};
ghost use Rattle.gm_kernel.specs.Runs.{joined_at};
ghost use Rattle.gm_rank.specs.Ranks.{rank_job, AreShares};
ghost use Rattle.gm_work.specs.JobStates.{counts_degrees};

use gm_base::{Edge, Spec};
use gm_kernel::pass_edges;
use gm_paths::{Bfs, Sssp};
use gm_rank::{MAX_DEGREE, count_pass, pass_shares};
use gm_wcc::Least;

/// Counts these edges into the out-degrees of their sources. A count stops at `MAX_DEGREE`.
pub(crate) fn count_edges(edges: &[Edge], degrees: &mut [u32])
    requires { All (HasEndsBelow (length degrees.old)) edges.now }
    ensures { degrees.new
        ≡ map (λ u. min (slice_index degrees.old u + out_degree edges.now u) MAX_DEGREE) (range_with_len 0 (length degrees.old)) }
{
    count_pass(edges, degrees);
}

/// Joins what these edges give into the sums of a round. All lists have an entry for each vertex: its value as the round began, its
/// out-degree, its sum and, for a rank job alone, what each of its edges gives.
pub(crate) fn join_gifts(
    spec: Spec,
    edges: &[Edge],
    values: &[u64],
    degrees: &[u32],
    shares: &[u64],
    sums: &mut [u64],
)
    requires shares { counts_degrees spec ≡ true
        → (length shares.now ≡ length values.now)
        × AreShares (λ u. slice_index degrees.now u) values.now shares.now }
    requires ends { All (HasEndsBelow (length values.now)) edges.now }
    requires degrees { length degrees.now ≡ length values.now }
    requires sums { length sums.old ≡ length values.now }
    ensures { sums.new
        ≡ map (λ v. joined_at (kernel_of spec) (λ u. slice_index degrees.now u) values.now edges.now v (slice_index sums.old v))
        (range_with_len 0 (length values.now)) }
{
    match spec {
        Spec::Bfs { source, .. } => pass_edges(&Bfs { source }, edges, values, degrees, sums),
        Spec::Sssp { source, .. } => pass_edges(&Sssp { source }, edges, values, degrees, sums),
        Spec::Wcc { .. } => pass_edges(&Least, edges, values, degrees, sums),
        Spec::Rank { .. } => pass_shares(edges, shares, sums),
    }
}
