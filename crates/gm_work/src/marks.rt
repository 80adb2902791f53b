//! Which vertices are active in a round, marked one by one.

ghost use Rattle.std.specs.Prelude.{◌≡◌, ◌==◌, ◌<◌, ◌≤◌, ℕ, true, not, length, slice_index};
ghost use Rattle.gm_base.specs.declared.limits.TheConstants.{MAX_VERTICES};
ghost use Rattle.gm_kernel.specs.Activity.{activity_of, active_at};
ghost use Rattle.gm_rank.specs.Ranks.{AreShares};
ghost use Rattle.gm_active.specs.Bits.{is_in};
ghost use Rattle.gm_work.specs.JobStates.{counts_degrees};

use gm_active::Active;
use gm_base::Spec;
use gm_kernel::Kernel;
use gm_paths::{Bfs, Sssp};
use gm_rank::take_shares;
use gm_wcc::Least;

/// Marks the vertices that are active by the test of the kernel's job, and no others.
fn mark_active<K: Kernel>(
    kernel: &K,
    first: bool,
    older: &[u64],
    values: &[u64],
    degrees: &[u32],
    active: &mut Active,
)
    requires few { length values.now ≤ MAX_VERTICES }
    requires older { length older.now ≡ length values.now }
    requires degrees { length degrees.now ≡ length values.now }
    requires marks { length active.old ≡ length values.now }
    ensures marked { (v : ℕ) → v < length values.now → is_in active.new v
        ≡ active_at (activity_of (K.job kernel.now)) first older.now values.now (λ u. slice_index degrees.now u) v }
    ensures length { length active.new ≡ length active.old }
{
    active.clear();
    for (vertex, &value) in values.iter().enumerate() {
        if kernel.active(first, older[vertex], value, degrees[vertex]) {
            active.mark(vertex as u32);
        }
    }
}

/// Marks the vertices that have a share, and no others.
fn mark_shares(shares: &[u64], active: &mut Active)
    requires few { length shares.now ≤ MAX_VERTICES }
    requires marks { length active.old ≡ length shares.now }
    ensures marked { (v : ℕ) → v < length shares.now
        → is_in active.new v ≡ not (slice_index shares.now v == 0) }
    ensures length { length active.new ≡ length active.old }
{
    active.clear();
    for (vertex, &share) in shares.iter().enumerate() {
        if share != 0 {
            active.mark(vertex as u32);
        }
    }
}

/// Marks the vertices that are active in a round, and no others. All lists have an entry for each vertex: its value one round earlier,
/// which the first round doesn't look at, its value, its out-degree and, for a rank job alone, what each of its edges gives in the round,
/// which is written here.
pub(crate) fn mark_round(
    spec: Spec,
    first: bool,
    older: &[u64],
    values: &[u64],
    degrees: &[u32],
    shares: &mut [u64],
    active: &mut Active,
)
    requires few { length values.now ≤ MAX_VERTICES }
    requires older { length older.now ≡ length values.now }
    requires degrees { length degrees.now ≡ length values.now }
    requires shares { counts_degrees spec ≡ true → length shares.old ≡ length values.now }
    requires marks { length active.old ≡ length values.now }
    ensures marked { (v : ℕ) → v < length values.now → is_in active.new v
        ≡ active_at (activity_of spec) first older.now values.now (λ u. slice_index degrees.now u) v }
    ensures length { length active.new ≡ length active.old }
    ensures shares { counts_degrees spec ≡ true
        → AreShares (λ u. slice_index degrees.now u) values.now shares.new }
    ensures share_count { length shares.new ≡ length shares.old }
{
    match spec {
        Spec::Bfs { source, .. } => mark_active(
            &Bfs { source },
            first,
            older,
            values,
            degrees,
            active,
        ),
        Spec::Sssp { source, .. } => mark_active(
            &Sssp { source },
            first,
            older,
            values,
            degrees,
            active,
        ),
        Spec::Wcc { .. } => mark_active(&Least, first, older, values, degrees, active),
        Spec::Rank { .. } => {
            take_shares(values, degrees, shares);
            mark_shares(shares, active);
        }
    }
}
