//! Laws of passes, rounds and lone runs: what may be reordered, what may be left out, what the same graph keeps, and when a job ends.
#![tactic(auto, using(crate::specs::PassRules::pass_laws, crate::specs::RunsRules::run_laws, crate::specs::SettlingRules::settling_laws))]

ghost use Rattle.std.specs.Prelude.{◌≡◌, ℕ, ◌+◌, ◌<◌, ◌≤◌, Bool, true, List, ◌++◌, length, slice_index, fold, flat_map, All};
ghost use Rattle.std.specs.List.Sorted.{IsPermutation};
ghost use Rattle.gm_base.specs.declared.edge.Edge.{Edge};
ghost use Rattle.gm_base.specs.declared.job.Spec.{Spec};
ghost use Rattle.gm_base.specs.Graph.{IsGraph, IsSameGraph, out_degree};
ghost use Rattle.gm_base.specs.GraphRules.{JoinLaws};
ghost use Rattle.gm_base.specs.declared.limits.TheConstants.{TOP};
ghost use Rattle.gm_kernel.specs.Kernels.{Kernel as Functions, kernel_of};
ghost use Rattle.gm_kernel.specs.Runs.{joined_at, lone_run, round_of, value_after_round, values_after, is_settled_by, settled_run, most_rounds, Settles, is_done_after, NoneBefore};
ghost use Rattle.gm_kernel.specs.Activity.{activity_of, active_in_round, IsQuiet, SkipsQuietEdges};
ghost use Rattle.gm_kernel.specs.KernelLaws.{KernelLaws, StaysWithinTop, GivesTheSame};

use gm_base::Outcome;

/// A law: the kernel of every job and the job's test of activity keep the laws of kernels, and no value of a job is above `TOP`.
pub fn jobs_keep_the_laws()
    ensures laws { (spec : Spec) → KernelLaws (kernel_of spec) (activity_of spec) }
    ensures within_top { (spec : Spec) (n : ℕ) → n ≤ TOP → StaysWithinTop (kernel_of spec) n }
{}

/// A law: over one list after another, or over many parts joined, a pass is one pass after the other.
pub fn pass_in_parts()
    ensures two { (kernel : Functions) (degree_of : ℕ → ℕ) (values : List ℕ) (xs ys : List Edge) (v sum : ℕ)
        → joined_at kernel degree_of values (xs ++ ys) v sum
        ≡ joined_at kernel degree_of values ys v (joined_at kernel degree_of values xs v sum) }
    ensures many { (kernel : Functions) (degree_of : ℕ → ℕ) (values : List ℕ) (content : ℕ
        → List Edge) (parts : List ℕ) (v sum : ℕ)
        → joined_at kernel degree_of values (flat_map content parts) v sum
        ≡ fold (λ so_far part. joined_at kernel degree_of values (content part) v so_far) sum parts }
{}

/// A law: passes over two lists that are the same graph give the same sums, of two passes either may come first, and parts that are
/// joined in another order are the same graph.
pub fn pass_in_any_order()
    ensures same_graph { (kernel : Functions) (degree_of : ℕ
        → ℕ) (values : List ℕ) (xs ys : List Edge) (v sum : ℕ)
        → JoinLaws kernel.join_values
        → IsSameGraph xs ys
        → joined_at kernel degree_of values xs v sum ≡ joined_at kernel degree_of values ys v sum }
    ensures two_passes { (kernel : Functions) (degree_of : ℕ
        → ℕ) (values : List ℕ) (xs ys : List Edge) (v sum : ℕ)
        → JoinLaws kernel.join_values
        → joined_at kernel degree_of values ys v (joined_at kernel degree_of values xs v sum)
        ≡ joined_at kernel degree_of values xs v (joined_at kernel degree_of values ys v sum) }
    ensures parts { (content : ℕ → List Edge) (parts others : List ℕ)
        → IsPermutation parts others
        → IsSameGraph (flat_map content parts) (flat_map content others) }
{}

/// A law: out-degrees count only in what vertices give, and a job that settles doesn't look at them.
pub fn degrees_count_in_gifts()
    ensures pass { (kernel : Functions) (these those : ℕ
        → ℕ) (values : List ℕ) (edges : List Edge) (v sum : ℕ)
        → GivesTheSame kernel these those
        → joined_at kernel these values edges v sum ≡ joined_at kernel those values edges v sum }
    ensures settling { (spec : Spec) (these those : ℕ → ℕ) → Settles spec
        → GivesTheSame (kernel_of spec) these those }
{}

/// A law: sums that began as what each vertex carries, and into which all edges were passed, are the values after the round.
pub fn sums_are_the_round()
    ensures { (kernel : Functions) (degree_of : ℕ → ℕ) (edges : List Edge) (values sums : List ℕ)
        → GivesTheSame kernel degree_of (out_degree edges)
        → length sums ≡ length values
        → ((v : ℕ) → v < length values → slice_index sums v
        ≡ joined_at kernel degree_of values edges v (kernel.carried_value (slice_index values v)))
        → sums ≡ round_of kernel edges values }
{}

/// A law: a round may leave out edges over which no active vertex gives. The edges that are kept give each vertex its value after the
/// round over all of them, in any round of any job.
pub fn quiet_edges_may_be_skipped()
    ensures value { (kernel : Functions) (is_active : Bool → ℕ → ℕ → ℕ → Bool) (degree_of : ℕ
        → ℕ) (first : Bool)
        (older values : List ℕ) (edges past kept skipped : List Edge) (v : ℕ)
        → KernelLaws kernel is_active
        → SkipsQuietEdges kernel is_active degree_of first older values edges past kept skipped
        → v < length values
        → value_after_round kernel edges values v
        ≡ joined_at kernel degree_of values kept v (kernel.carried_value (slice_index values v)) }
    ensures round { (kernel : Functions) (is_active : Bool → ℕ → ℕ → ℕ → Bool) (degree_of : ℕ
        → ℕ) (first : Bool)
        (older values sums : List ℕ) (edges past kept skipped : List Edge)
        → KernelLaws kernel is_active
        → SkipsQuietEdges kernel is_active degree_of first older values edges past kept skipped
        → length sums ≡ length values
        → ((v : ℕ) → v < length values → slice_index sums v
        ≡ joined_at kernel degree_of values kept v (kernel.carried_value (slice_index values v)))
        → sums ≡ round_of kernel edges values }
    ensures job { (spec : Spec) (n round : ℕ) (degree_of : ℕ
        → ℕ) (sums : List ℕ) (edges kept skipped : List Edge)
        → n ≤ TOP
        → GivesTheSame (kernel_of spec) degree_of (out_degree edges)
        → IsSameGraph edges (kept ++ skipped)
        → All (IsQuiet (kernel_of spec) (active_in_round spec n edges degree_of round)) skipped
        → length sums ≡ n
        → let values = values_after (kernel_of spec) n edges round in
        ((v : ℕ) → v < n → slice_index sums v
        ≡ joined_at (kernel_of spec) degree_of values kept v ((kernel_of spec).carried_value (slice_index values v)))
        → sums ≡ values_after (kernel_of spec) n edges (round + 1) }
{}

/// A law: there are as many values after a round as before it, and one for each vertex after any number of rounds.
pub fn rounds_keep_the_length()
    ensures round { (kernel : Functions) (edges : List Edge) (values : List ℕ)
        → length (round_of kernel edges values) ≡ length values }
    ensures rounds { (kernel : Functions) (n : ℕ) (edges : List Edge) (rounds : ℕ)
        → length (values_after kernel n edges rounds) ≡ n }
{}

/// A law: no value is above `TOP` after any number of rounds.
pub fn rounds_stay_within_top()
    ensures kernels { (kernel : Functions) (n : ℕ) (edges : List Edge) (rounds : ℕ)
        → StaysWithinTop kernel n → All (λ x. x ≤ TOP) (values_after kernel n edges rounds) }
    ensures jobs { (spec : Spec) (n : ℕ) (edges : List Edge) (rounds : ℕ)
        → n ≤ TOP → All (λ x. x ≤ TOP) (values_after (kernel_of spec) n edges rounds) }
{}

/// A law: the same graph has the same round, the same values after any number of rounds, and the same lone run of every job.
pub fn same_graph_same_run()
    ensures round { (kernel : Functions) (xs ys : List Edge) (values : List ℕ)
        → JoinLaws kernel.join_values → IsSameGraph xs ys
        → round_of kernel xs values ≡ round_of kernel ys values }
    ensures rounds { (kernel : Functions) (n : ℕ) (xs ys : List Edge) (rounds : ℕ)
        → JoinLaws kernel.join_values → IsSameGraph xs ys
        → values_after kernel n xs rounds ≡ values_after kernel n ys rounds }
    ensures run { (spec : Spec) (n : ℕ) (xs ys : List Edge) → IsSameGraph xs ys
        → lone_run spec n xs ≡ lone_run spec n ys }
{}

/// A law: a run that goes on until a round changes nothing ends with the first such round, or at its bound where there is none.
pub fn run_ends_settled()
    ensures done { (kernel : Functions) (n : ℕ) (edges : List Edge) (bound round : ℕ)
        → 1 ≤ round → round ≤ bound
        → NoneBefore (is_settled_by kernel n edges) round
        → is_settled_by kernel n edges round ≡ true
        → settled_run kernel n edges bound ≡ Outcome.Done round (values_after kernel n edges round) }
    ensures bound { (kernel : Functions) (n : ℕ) (edges : List Edge) (bound : ℕ)
        → NoneBefore (is_settled_by kernel n edges) (bound + 1)
        → settled_run kernel n edges bound ≡ Outcome.Rounds bound }
{}

/// A law: the lone run of every job ends with the first round after which it is done, a rank job's after its rounds, or at its bound
/// where there is none.
pub fn lone_run_ends()
    ensures done { (spec : Spec) (n : ℕ) (edges : List Edge) (round : ℕ)
        → 1 ≤ round → round ≤ most_rounds spec
        → NoneBefore (is_done_after spec n edges) round
        → is_done_after spec n edges round ≡ true
        → lone_run spec n edges ≡ Outcome.Done round (values_after (kernel_of spec) n edges round) }
    ensures bound { (spec : Spec) (n : ℕ) (edges : List Edge)
        → 1 ≤ most_rounds spec
        → NoneBefore (is_done_after spec n edges) (most_rounds spec + 1)
        → lone_run spec n edges ≡ Outcome.Rounds (most_rounds spec) }
{}

/// A law: on n vertices a job that goes on until a round changes nothing settles by round n. So it is done after at most n rounds, and
/// fails for want of rounds only where its bound is below n.
pub fn jobs_settle_by_round_n()
    ensures settled { (spec : Spec) (n : ℕ) (edges : List Edge) (round : ℕ)
        → Settles spec → IsGraph n edges → 1 ≤ round → n ≤ round
        → is_settled_by (kernel_of spec) n edges round ≡ true }
    ensures done { (spec : Spec) (n : ℕ) (edges : List Edge) (rounds : ℕ) (values : List ℕ)
        → Settles spec → IsGraph n edges → 1 ≤ n → lone_run spec n edges ≡ Outcome.Done rounds values
        → rounds ≤ n }
    ensures bound { (spec : Spec) (n : ℕ) (edges : List Edge) (rounds : ℕ)
        → IsGraph n edges → 1 ≤ n
        → lone_run spec n edges ≡ Outcome.Rounds rounds
        → (rounds ≡ most_rounds spec) × (most_rounds spec < n) }
{}
