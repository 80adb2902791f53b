//! Laws of rank jobs.

ghost use Rattle.std.specs.Prelude.{◌≡◌, ℕ, ◌+◌, ◌*◌, ◌<◌, ◌≤◌, List, length, sum};
ghost use Rattle.gm_base.specs.declared.edge.Edge.{Edge};
ghost use Rattle.gm_base.specs.declared.limits.TheConstants.{MAX_VERTICES, MAX_EDGES, MAX_CHANGES};
ghost use Rattle.gm_base.specs.Graph.{IsGraph, out_degree};
ghost use Rattle.gm_kernel.specs.Kernels.{kernel_of};
ghost use Rattle.gm_kernel.specs.Runs.{gifts_to, value_after_round, values_after};

use crate::MAX_DEGREE;
use gm_base::Spec;

/// A law: after every round the ranks of n vertices add up to at most n times the rank of 1,000,000,000 that each begins with.
pub fn ranks_never_grow()
    ensures { (n rounds round : ℕ) (edges : List Edge)
        → IsGraph n edges
        → sum (values_after (kernel_of (Spec.Rank rounds)) n edges round) ≤ n * 1000000000 }
{}

/// A law: on at most `MAX_VERTICES` vertices the cap on joins is never met: in every round a vertex gets what it carries plus all of
/// its gifts.
pub fn ranks_are_plain_sums()
    ensures { (n rounds round v : ℕ) (edges : List Edge)
        → n ≤ MAX_VERTICES
        → IsGraph n edges
        → v < n
        → let kernel = kernel_of (Spec.Rank rounds) in
        let values = values_after kernel n edges round in
        value_after_round kernel edges values v ≡ 150000000 + sum (gifts_to kernel (out_degree edges) values edges v) }
{}

/// A law: no out-degree of a version of a graph, which has at most so many edges, reaches `MAX_DEGREE`, where counts stop.
pub fn degrees_are_counted()
    ensures { (edges : List Edge) (v : ℕ) → length edges ≤ MAX_EDGES + MAX_CHANGES
        → out_degree edges v < MAX_DEGREE }
{}
