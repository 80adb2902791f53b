//! The definitions of changes, computed on rows that were worked out by hand. The graph has four vertices in two ranges: block 0 has
//! the edge from 0 to 1, block 1 those from 1 to 2 and from 0 to 2, block 2 none, block 3 the one from 2 to 3.

ghost use Rattle.std.specs.Prelude.{◌≡◌, true, false, [], ◌∷◌};
ghost use Rattle.gm_base.specs.Graph.{edge};
ghost use Rattle.gm_base.specs.Examples.{path_with_shortcut};
ghost use Rattle.gm_changes.specs.Changes.{edges_after};
ghost use Rattle.gm_changes.specs.Concerns.{may_concern};
ghost use Rattle.gm_changes.specs.Kept.{is_cut, kept_adds};
ghost use Rattle.gm_changes.specs.Examples.{two_ranges, last_of, earlier_of, for_last, for_earlier, added_twice};

use crate::Change;

/// One cut takes all edges with its ends, whatever their weights.
pub fn cut_takes_equal_edges()
    ensures equal { edges_after (Change.Cut 0 2 ∷ []) (edge 0 2 5 ∷ edge 1 2 1 ∷ edge 0 2 5 ∷ [])
        ≡ edge 1 2 1 ∷ [] }
    ensures weights { edges_after (Change.Cut 0 2 ∷ []) (edge 0 2 5 ∷ edge 0 2 7 ∷ []) ≡ [] }
    ensures one_way { edges_after (Change.Cut 2 0 ∷ []) (edge 0 2 5 ∷ []) ≡ edge 0 2 5 ∷ [] }
{}

/// A cut takes what was there and what was added before it, not what is added later.
pub fn changes_go_in_order()
    ensures cut_then_add { edges_after (Change.Cut 0 1 ∷ Change.Add (edge 0 1 4) ∷ []) path_with_shortcut
        ≡ edge 1 2 1 ∷ edge 0 2 5 ∷ edge 2 3 1 ∷ edge 0 1 4 ∷ [] }
    ensures add_then_cut { edges_after (Change.Add (edge 0 1 4) ∷ Change.Cut 0 1 ∷ []) path_with_shortcut
        ≡ edge 1 2 1 ∷ edge 0 2 5 ∷ edge 2 3 1 ∷ [] }
    ensures add_cut_add { edges_after added_twice path_with_shortcut
        ≡ edge 0 1 1 ∷ edge 1 2 1 ∷ edge 0 2 5 ∷ edge 2 3 1 ∷ edge 3 0 2 ∷ [] }
    ensures adds { let again = Change.Add (edge 3 0 1) in
        edges_after (again ∷ Change.Add (edge 1 0 1) ∷ again ∷ []) []
        ≡ edge 3 0 1 ∷ edge 1 0 1 ∷ edge 3 0 1 ∷ [] }
{}

/// A cut of no edge changes nothing.
pub fn cut_of_none()
    ensures { edges_after (Change.Cut 3 1 ∷ []) path_with_shortcut ≡ path_with_shortcut }
{}

/// The same in one walk: what no change cuts, and the added edges that no later one cuts.
pub fn kept_of_add_cut_add()
    ensures cut { is_cut added_twice (edge 3 0 9) ≡ true }
    ensures not_cut { is_cut added_twice (edge 0 3 9) ≡ false }
    ensures kept { kept_adds added_twice ≡ edge 3 0 2 ∷ [] }
{}

/// An added edge concerns the last chunk of its block alone.
pub fn add_concerns_the_last_chunk()
    ensures last { for_last 1 (0 ∷ []) (Change.Add (edge 0 3 1) ∷ []) ≡ Change.Add (edge 0 3 1) ∷ [] }
    ensures earlier { for_earlier 1 (1 ∷ []) (Change.Add (edge 0 3 1) ∷ []) ≡ [] }
    ensures other_block { for_last 3 (2 ∷ []) (Change.Add (edge 0 3 1) ∷ []) ≡ [] }
    ensures empty_chunk { for_last 2 [] (Change.Add (edge 3 0 1) ∷ [])
        ≡ Change.Add (edge 3 0 1) ∷ [] }
{}

/// A cut concerns each chunk of its block that has the source.
pub fn cut_concerns_chunks_with_its_source()
    ensures here { for_earlier 1 (1 ∷ []) (Change.Cut 1 3 ∷ []) ≡ Change.Cut 1 3 ∷ [] }
    ensures no_source { for_last 1 (0 ∷ []) (Change.Cut 1 3 ∷ []) ≡ [] }
    ensures other_block { for_last 0 (0 ∷ []) (Change.Cut 0 2 ∷ []) ≡ [] }
    ensures by_its_block { may_concern two_ranges (last_of 1) (Change.Cut 1 3) ≡ true }
{}

/// A source counts from where an edge adds it, and stays.
pub fn sources_grow_with_added_edges()
    ensures after_the_add { for_last 1 (0 ∷ []) (Change.Add (edge 1 3 1) ∷ Change.Cut 1 2 ∷ [])
        ≡ Change.Add (edge 1 3 1) ∷ Change.Cut 1 2 ∷ [] }
    ensures before_the_add { for_last 1 (0 ∷ []) (Change.Cut 1 2 ∷ Change.Add (edge 1 3 1) ∷ [])
        ≡ Change.Add (edge 1 3 1) ∷ [] }
    ensures after_a_cut { for_last 1 (0 ∷ []) (Change.Cut 0 2 ∷ Change.Cut 0 2 ∷ [])
        ≡ Change.Cut 0 2 ∷ Change.Cut 0 2 ∷ [] }
    ensures added_elsewhere { for_earlier 1 (0 ∷ []) (Change.Add (edge 1 3 1) ∷ Change.Cut 1 2 ∷ []) ≡ [] }
{}
