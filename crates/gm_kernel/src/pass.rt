//! The pass of edges: the loop that every job spends its time in.

ghost use Rattle.std.specs.Prelude.{◌≡◌, ℕ, ◌<◌, ◌≤◌, false, length, slice_index, slice_set, All};
ghost use Rattle.gm_base.specs.declared.limits.TheConstants.{TOP};
ghost use Rattle.gm_base.specs.Graph.{HasEndsBelow};
ghost use Rattle.gm_kernel.specs.Runs.{gift_from, joined_at};

use crate::Kernel;
use gm_base::{Edge, TOP};

/// Whether joining this gift may change a sum. One that leaves the greatest sum as it is, as that of an unreached vertex does, leaves
/// every sum as it is.
#[inline(always)]
fn may_change_a_sum<K: Kernel>(kernel: &K, gift: u64) -> bool
    ensures { result ≡ false → (sum : ℕ) → sum ≤ TOP → (K.functions kernel.now).join_values sum gift ≡ sum }
{
    kernel.join(TOP, gift) != TOP
}

/// Joins what one vertex gives over an edge of this weight into the sum of another, which isn't looked at where that changes nothing.
#[inline(always)]
fn give_along<K: Kernel>(
    kernel: &K,
    giver: u32,
    receiver: u32,
    weight: u32,
    values: &[u64],
    degrees: &[u32],
    sums: &mut [u64],
)
    requires giver { giver < length values.now }
    requires receiver { receiver < length values.now }
    requires degrees { length degrees.now ≡ length values.now }
    requires sums { length sums.old ≡ length values.now }
    ensures { let functions = K.functions kernel.now in
        let gift = gift_from functions (λ u. slice_index degrees.now u) values.now giver weight in
        sums.new ≡ slice_set sums.old receiver (functions.join_values (slice_index sums.old receiver) gift) }
{
    let gift = kernel.give(values[giver as usize], degrees[giver as usize], weight);
    if may_change_a_sum(kernel, gift) {
        let at = receiver as usize;
        sums[at] = kernel.join(sums[at], gift);
    }
}

/// Joins each edge's gift into the sum of its destination and, for a kernel that goes both ways, the gift of the destination's
/// value into the source's sum. The three slices have an entry for each vertex: its value, its out-degree, its sum.
pub fn pass_edges<K: Kernel>(
    kernel: &K,
    edges: &[Edge],
    values: &[u64],
    degrees: &[u32],
    sums: &mut [u64],
)
    requires ends { All (HasEndsBelow (length values.now)) edges.now }
    requires degrees { length degrees.now ≡ length values.now }
    requires sums { length sums.old ≡ length values.now }
    ensures joined { (v : ℕ) → slice_index sums.new v
        ≡ joined_at (K.functions kernel.now) (λ u. slice_index degrees.now u) values.now edges.now v
        (slice_index sums.old v) }
    ensures length { length sums.new ≡ length sums.old }
{
    for e in edges {
        give_along(kernel, e.from, e.to, e.weight, values, degrees, sums);
        if kernel.two_way() {
            give_along(kernel, e.to, e.from, e.weight, values, degrees, sums);
        }
    }
}
