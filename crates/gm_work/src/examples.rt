//! Jobs over small graphs in chunks of one edge: how many chunks they pass, and where they stand. Worked out by hand.
#![tactic(auto, unfolding(gm_kernel::specs::Runs::round_of, gm_kernel::specs::Runs::values_after, gm_kernel::specs::Runs::is_settled_by, gm_kernel::specs::Runs::settled_run))]

ghost use Rattle.std.specs.Prelude.{◌≡◌, [], ◌∷◌, true, false};
ghost use Rattle.gm_base.specs.Examples.{path_with_shortcut, joined_backwards};
ghost use Rattle.gm_label.specs.Catalogues.{catalogue_of};
ghost use Rattle.gm_label.specs.Examples.{two_ranges, path_counts};
ghost use Rattle.gm_kernel.specs.declared.phase.Phase.{Phase as Phases};
ghost use Rattle.gm_work.specs.Examples.{over_path, over_backwards, passes_of, sums_of};
ghost use Rattle.gm_work.specs.Views.{needed_in};

use gm_base::{Spec, TOP};
use gm_kernel::Phase;

/// Levels from vertex 0 pass 0>1 and 0>2, then 1>2 and 2>3; distances pass 2>3 once more, in a round of its own.
pub fn passes_of_paths()
    ensures levels { passes_of (over_path (Spec.Bfs 0 5)) ≡ 4 }
    ensures distances { passes_of (over_path (Spec.Sssp 0 5)) ≡ 5 }
    ensures bound { passes_of (over_path (Spec.Sssp 0 3)) ≡ 5 }
{}

/// Labels pass all four edges in two rounds, and in the third no longer 0>1: neither of its ends changed. The other way round, an edge is
/// passed for its destination alone.
pub fn passes_of_labels()
    ensures path { passes_of (over_path (Spec.Wcc 5)) ≡ 11 }
    ensures backwards { passes_of (over_backwards (Spec.Wcc 5)) ≡ 10 }
{}

/// A rank job passes all edges to count, and then in each round those whose source has a share.
pub fn passes_of_ranks()
    ensures one { passes_of (over_path (Spec.Rank 1)) ≡ 8 }
    ensures two { passes_of (over_path (Spec.Rank 2)) ≡ 12 }
{}

/// The second round of levels needs 1>2 and 2>3, and the third round of labels 1>2 for its column alone.
pub fn needed_in_a_round()
    ensures levels { needed_in (over_path (Spec.Bfs 0 5)) (Phase.Round 1)
        ≡ false ∷ true ∷ false ∷ false ∷ true ∷ [] }
    ensures column { needed_in (over_backwards (Spec.Wcc 5)) (Phase.Round 2)
        ≡ false ∷ true ∷ false ∷ true ∷ [] }
    ensures counting { needed_in (over_path (Spec.Rank 2)) (Phase.Counting 0)
        ≡ true ∷ true ∷ true ∷ false ∷ true ∷ [] }
{}

/// The sums of the first round of levels, after a pass over 0>2 and then one over 0>1.
pub fn sums_in_a_round()
    ensures { sums_of (over_path (Spec.Bfs 0 5)) 0 (0 ∷ 2 ∷ []) ≡ 0 ∷ 1 ∷ 1 ∷ TOP ∷ [] }
{}
