//! The passes of a rank job: out-degrees counted, and shares joined. Shares that are taken once a vertex spare the pass of edges its
//! divisions.

ghost use Rattle.std.specs.Prelude.{◌≡◌, ℕ, ◌+◌, ◌<◌, min, List, length, slice_index, All};
ghost use Rattle.gm_base.specs.Graph.{HasEndsBelow, out_degree};
ghost use Rattle.gm_kernel.specs.Kernels.{kernel_of};
ghost use Rattle.gm_kernel.specs.Runs.{joined_at};
ghost use Rattle.gm_rank.specs.Ranks.{rank_job, AreShares};

use crate::fixed_point::{join, share};
use gm_base::Edge;

/// Counts of out-degrees stop here. None of a version of a graph reaches it.
pub const MAX_DEGREE: u32 = u32::MAX;

/// Adds one to the source's degree for each edge. A degree stops at `MAX_DEGREE`.
pub fn count_pass(edges: &[Edge], degrees: &mut [u32])
    requires { All (λ e. e.from < length degrees.old) edges.now }
    ensures counted { (v : ℕ)
        → slice_index degrees.new v ≡ min (slice_index degrees.old v + out_degree edges.now v) MAX_DEGREE }
    ensures length { length degrees.new ≡ length degrees.old }
{
    for e in edges {
        let at = e.from as usize;
        degrees[at] = degrees[at].saturating_add(1);
    }
}

/// Writes what each edge of a vertex gives, by the vertex's rank and out-degree. The three slices have an entry for each vertex.
pub fn take_shares(ranks: &[u64], degrees: &[u32], shares: &mut [u64])
    requires degrees { length degrees.now ≡ length ranks.now }
    requires shares { length shares.old ≡ length ranks.now }
    ensures taken { AreShares (λ u. slice_index degrees.now u) ranks.now shares.new }
    ensures length { length shares.new ≡ length shares.old }
{
    for (vertex, &rank) in ranks.iter().enumerate() {
        shares[vertex] = share(rank, degrees[vertex]);
    }
}

/// Joins the share of each edge's source into the sum of its destination: the pass of a rank job, where the shares are those of its
/// ranks and out-degrees. The two slices have an entry for each vertex.
pub fn pass_shares(edges: &[Edge], shares: &[u64], sums: &mut [u64])
    requires ends { All (HasEndsBelow (length shares.now)) edges.now }
    requires sums { length sums.old ≡ length shares.now }
    ensures joined { (degree_of : ℕ → ℕ) (values : List ℕ)
        → AreShares degree_of values shares.now
        → (v : ℕ)
        → slice_index sums.new v
        ≡ joined_at (kernel_of rank_job) degree_of values edges.now v
        (slice_index sums.old v) }
    ensures length { length sums.new ≡ length sums.old }
{
    for e in edges {
        let at = e.to as usize;
        sums[at] = join(sums[at], shares[e.from as usize]);
    }
}
