//! The definitions of rounds, lone runs and activity, computed on graphs and values that were worked out by hand.
#![tactic(auto, unfolding(crate::specs::Runs::round_of, crate::specs::Runs::values_after, crate::specs::Runs::is_settled_by, crate::specs::Runs::settled_run))]

ghost use Rattle.std.specs.Prelude.{◌≡◌, ◌-◌, [], ◌∷◌, true, false};
ghost use Rattle.gm_base.specs.declared.limits.TheConstants.{TOP};
ghost use Rattle.gm_base.specs.Graph.{edge, out_degree};
ghost use Rattle.gm_base.specs.Examples.{path_with_shortcut, joined_backwards};
ghost use Rattle.gm_kernel.specs.Kernels.{kernel_of, share_of};
ghost use Rattle.gm_kernel.specs.Activity.{activity_of, active_in_round};
ghost use Rattle.gm_kernel.specs.Runs.{lone_run, value_after_round, is_done_after};

use crate::MAX_RANK;
use gm_base::{Outcome, Spec};

/// Levels from vertex 0: the fourth vertex is two steps away, over the dear edge.
pub fn breadth_first_run()
    ensures { lone_run (Spec.Bfs 0 5) 4 path_with_shortcut ≡ Outcome.Done 3 (0 ∷ 1 ∷ 1 ∷ 2 ∷ []) }
{}

/// Distances from vertex 0: a later, shorter walk replaces the dear edge.
pub fn shortest_path_run()
    ensures done { lone_run (Spec.Sssp 0 5) 4 path_with_shortcut ≡ Outcome.Done 4 (0 ∷ 1 ∷ 2 ∷ 3 ∷ []) }
    ensures bound { lone_run (Spec.Sssp 0 3) 4 path_with_shortcut ≡ Outcome.Rounds 3 }
    ensures enough { lone_run (Spec.Sssp 0 4) 4 path_with_shortcut ≡ Outcome.Done 4 (0 ∷ 1 ∷ 2 ∷ 3 ∷ []) }
{}

/// All four vertices are one component.
pub fn component_run()
    ensures { lone_run (Spec.Wcc 5) 4 path_with_shortcut ≡ Outcome.Done 3 (0 ∷ 0 ∷ 0 ∷ 0 ∷ []) }
{}

/// A label that reaches a vertex only against the direction of its edge.
pub fn component_run_by_column()
    ensures { lone_run (Spec.Wcc 5) 4 joined_backwards ≡ Outcome.Done 4 (0 ∷ 0 ∷ 0 ∷ 0 ∷ []) }
{}

/// One and two rounds of rank.
pub fn rank_run()
    ensures one { lone_run (Spec.Rank 1) 4 path_with_shortcut
        ≡ Outcome.Done 1 (150000000 ∷ 575000000 ∷ 1425000000 ∷ 1000000000 ∷ []) }
    ensures two { lone_run (Spec.Rank 2) 4 path_with_shortcut
        ≡ Outcome.Done 2 (150000000 ∷ 213750000 ∷ 702500000 ∷ 1361250000 ∷ []) }
{}

/// A graph of one vertex without edges: its level is known after one round.
pub fn breadth_first_run_of_one_vertex()
    ensures { lone_run (Spec.Bfs 0 2) 1 [] ≡ Outcome.Done 1 (0 ∷ []) }
{}

/// Without edges a vertex keeps what it carries.
pub fn rank_run_of_one_vertex()
    ensures { lone_run (Spec.Rank 3) 1 [] ≡ Outcome.Done 3 (150000000 ∷ []) }
{}

/// Before the first round a vertex is active where it is reached, whatever its older value; later where its value changed.
pub fn active_by_value()
    ensures reached { activity_of (Spec.Bfs 3 9) true 0 0 1 ≡ true }
    ensures not_reached { activity_of (Spec.Sssp 3 9) true 5 TOP 1 ≡ false }
    ensures label { activity_of (Spec.Wcc 9) true 2 2 0 ≡ true }
    ensures changed { activity_of (Spec.Bfs 3 9) false TOP 4 1 ≡ true }
    ensures kept { activity_of (Spec.Sssp 3 9) false 4 4 1 ≡ false }
{}

/// A vertex is active for ranks where it has a share, in the first round as in later ones: 85 * 1 / 100 and 85 * 7 / 600 are below 1.
pub fn active_by_share()
    ensures shares { activity_of (Spec.Rank 2) true 1000000000 1000000000 3 ≡ true }
    ensures unchanged { activity_of (Spec.Rank 2) false 2 2 1 ≡ true }
    ensures small { activity_of (Spec.Rank 2) false 9 1 1 ≡ false }
    ensures smaller { activity_of (Spec.Rank 2) true 9 7 6 ≡ false }
    ensures without_edges { activity_of (Spec.Rank 2) false 9 1000000000 0 ≡ false }
{}

/// A vertex that got its level in one round is active in the next one alone. The fourth vertex is reached in the second round.
pub fn active_by_round()
    ensures source_first { active_in_round (Spec.Bfs 0 5) 4 path_with_shortcut (out_degree path_with_shortcut) 0 0 ≡ true }
    ensures others_first { active_in_round (Spec.Bfs 0 5) 4 path_with_shortcut (out_degree path_with_shortcut) 0 2 ≡ false }
    ensures source_later { active_in_round (Spec.Bfs 0 5) 4 path_with_shortcut (out_degree path_with_shortcut) 1 0 ≡ false }
    ensures reached { active_in_round (Spec.Bfs 0 5) 4 path_with_shortcut (out_degree path_with_shortcut) 1 2
        ≡ true }
    ensures last { active_in_round (Spec.Bfs 0 5) 4 path_with_shortcut (out_degree path_with_shortcut) 2 3
        ≡ true }
{}

/// The job of levels is done once a round changes nothing, the job of ranks after its rounds.
pub fn done_after_rounds()
    ensures changing { is_done_after (Spec.Bfs 0 5) 4 path_with_shortcut 2 ≡ false }
    ensures settled { is_done_after (Spec.Bfs 0 5) 4 path_with_shortcut 3 ≡ true }
    ensures rank_goes_on { is_done_after (Spec.Rank 2) 1 [] 1 ≡ false }
    ensures rank_done { is_done_after (Spec.Rank 2) 1 [] 2 ≡ true }
{}

/// A join of ranks that would pass 2^57 is 2^57. Two vertices with that rank and one edge each give 122,497,909,864,477,491 each.
pub fn joins_of_ranks_at_the_cap()
    ensures below { (kernel_of (Spec.Rank 1)).join_values (MAX_RANK - 2) 1 ≡ MAX_RANK - 1 }
    ensures met { (kernel_of (Spec.Rank 1)).join_values (MAX_RANK - 1) 1 ≡ MAX_RANK }
    ensures passed { (kernel_of (Spec.Rank 1)).join_values (MAX_RANK - 1) 2 ≡ MAX_RANK }
    ensures share { share_of MAX_RANK 1 ≡ 122497909864477491 }
    ensures two_shares { value_after_round (kernel_of (Spec.Rank 1)) (edge 0 2 1 ∷ edge 1 2 1 ∷ []) (MAX_RANK ∷ MAX_RANK ∷ 0 ∷ []) 2
        ≡ MAX_RANK }
{}

/// A level that would be 2^64 - 1 or more is `TOP`, and one less is the greatest that there is.
pub fn levels_next_to_top()
    ensures greatest { (kernel_of (Spec.Bfs 0 9)).gift_along (TOP - 2) 1 7 ≡ TOP - 1 }
    ensures met { (kernel_of (Spec.Bfs 0 9)).gift_along (TOP - 1) 1 7 ≡ TOP }
    ensures not_reached { (kernel_of (Spec.Bfs 0 9)).gift_along TOP 1 7 ≡ TOP }
{}

/// A distance that would be 2^64 - 1 or more is `TOP`: the vertex counts as not reached.
pub fn distances_next_to_top()
    ensures greatest { (kernel_of (Spec.Sssp 0 9)).gift_along (TOP - 5) 1 4 ≡ TOP - 1 }
    ensures met { (kernel_of (Spec.Sssp 0 9)).gift_along (TOP - 5) 1 5 ≡ TOP }
    ensures passed { (kernel_of (Spec.Sssp 0 9)).gift_along (TOP - 5) 1 u32.MAX ≡ TOP }
    ensures without_weight { (kernel_of (Spec.Sssp 0 9)).gift_along (TOP - 5) 1 0 ≡ TOP - 5 }
    ensures reached { value_after_round (kernel_of (Spec.Sssp 0 9)) (edge 0 1 4 ∷ []) ((TOP - 5) ∷ TOP ∷ []) 1
        ≡ TOP - 1 }
    ensures left_unreached { value_after_round (kernel_of (Spec.Sssp 0 9)) (edge 0 1 5 ∷ []) ((TOP - 5) ∷ TOP ∷ []) 1
        ≡ TOP }
{}
