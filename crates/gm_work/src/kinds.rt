//! The four kinds of job: each step over all vertices, or over a chunk's edges, by the kernel of the job.

ghost use Rattle.std.specs.Prelude.{◌≡◌, ◌≤◌, true, length, map, slice_index};
ghost use Rattle.std.specs.List.{range_with_len};
ghost use Rattle.gm_base.specs.declared.limits.TheConstants.{MAX_VERTICES};
ghost use Rattle.gm_kernel.specs.Kernels.{kernel_of};
ghost use Rattle.gm_kernel.specs.Runs.{most_rounds};
ghost use Rattle.gm_work.specs.JobStates.{counts_degrees, is_done_by};

use gm_base::Spec;
use gm_kernel::Kernel;
use gm_paths::{Bfs, Sssp};
use gm_rank::Rank;
use gm_wcc::Least;

/// The greatest number of rounds of a job.
pub(crate) fn most_rounds(spec: Spec) -> u32
    ensures { result ≡ most_rounds spec }
{
    match spec {
        Spec::Bfs { bound, .. } | Spec::Sssp { bound, .. } | Spec::Wcc { bound } => bound,
        Spec::Rank { rounds } => rounds,
    }
}

/// Whether a job counts out-degrees before its first round.
pub(crate) fn counts_degrees(spec: Spec) -> bool
    ensures { result ≡ counts_degrees spec }
{
    matches!(spec, Spec::Rank { .. })
}

/// For how many of n vertices a job keeps what their edges give: a rank job for each, any other for none.
pub(crate) fn share_count(spec: Spec, n: u32) -> u32
    ensures { counts_degrees spec ≡ true → result ≡ n }
{
    if counts_degrees(spec) { n } else { 0 }
}

/// Whether the job's edges also give against their direction.
pub(crate) fn is_two_way(spec: Spec) -> bool
    ensures { result ≡ (kernel_of spec).is_two_way }
{
    matches!(spec, Spec::Wcc { .. })
}

/// Whether a job is done after a round, counted from 1, by the values before and after it.
pub(crate) fn is_done(spec: Spec, round: u32, before: &[u64], after: &[u64]) -> bool
    ensures { result ≡ is_done_by spec round before.now after.now }
{
    match spec {
        Spec::Rank { rounds } => round == rounds,
        _ => after == before,
    }
}

fn begin<K: Kernel>(kernel: &K, values: &mut [u64])
    requires { length values.old ≤ MAX_VERTICES }
    ensures { values.new
        ≡ map (K.functions kernel.now).initial_value (range_with_len 0 (length values.old)) }
{
    for (vertex, value) in values.iter_mut().enumerate() {
        *value = kernel.init(vertex as u32);
    }
}

/// Writes the value of each vertex before the first round.
pub(crate) fn begin_values(spec: Spec, values: &mut [u64])
    requires { length values.old ≤ MAX_VERTICES }
    ensures { values.new ≡ map (kernel_of spec).initial_value (range_with_len 0 (length values.old)) }
{
    match spec {
        Spec::Bfs { source, .. } => begin(&Bfs { source }, values),
        Spec::Sssp { source, .. } => begin(&Sssp { source }, values),
        Spec::Wcc { .. } => begin(&Least, values),
        Spec::Rank { rounds } => begin(&Rank { rounds }, values),
    }
}

fn carry<K: Kernel>(kernel: &K, values: &[u64], sums: &mut [u64])
    requires { length sums.old ≡ length values.now }
    ensures { sums.new
        ≡ map (λ v. (K.functions kernel.now).carried_value (slice_index values.now v)) (range_with_len 0 (length values.now)) }
{
    for (vertex, &value) in values.iter().enumerate() {
        sums[vertex] = kernel.start(value);
    }
}

/// Writes what each vertex carries of its value into the sums of the next round.
pub(crate) fn carry_values(spec: Spec, values: &[u64], sums: &mut [u64])
    requires { length sums.old ≡ length values.now }
    ensures { sums.new
        ≡ map (λ v. (kernel_of spec).carried_value (slice_index values.now v)) (range_with_len 0 (length values.now)) }
{
    match spec {
        Spec::Bfs { source, .. } => carry(&Bfs { source }, values, sums),
        Spec::Sssp { source, .. } => carry(&Sssp { source }, values, sums),
        Spec::Wcc { .. } => carry(&Least, values, sums),
        Spec::Rank { rounds } => carry(&Rank { rounds }, values, sums),
    }
}
