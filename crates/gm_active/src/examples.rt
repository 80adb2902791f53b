//! Sets of numbers, columns, and the needed chunks of a round, computed on small grids in chunks of one edge that were worked out by hand.
#![tactic(auto, unfolding(gm_kernel::specs::Runs::round_of, gm_kernel::specs::Runs::values_after))]

ghost use Rattle.std.specs.Prelude.{◌≡◌, true, false, [], ◌∷◌};
ghost use Rattle.gm_base.specs.Examples.{path_with_shortcut, joined_backwards};
ghost use Rattle.gm_label.specs.Examples.{two_ranges, four_ranges};
ghost use Rattle.gm_active.specs.Bits.{is_in, any_between, members_of};
ghost use Rattle.gm_active.specs.Needs.{first_destination_of, end_destination_of};
ghost use Rattle.gm_active.specs.Examples.{path_chunks, backward_chunks, overlay_adding, needed_in_round, needed_to_count};

use gm_base::Spec;

/// Marks of four numbers, of which 1 and 2 are in the set. No number behind the marks is, and no number is between ends that cross.
pub fn a_set_of_two_numbers()
    ensures inside { is_in (false ∷ true ∷ true ∷ false ∷ []) 2 ≡ true }
    ensures outside { is_in (false ∷ true ∷ true ∷ false ∷ []) 3 ≡ false }
    ensures behind { is_in (false ∷ true ∷ true ∷ false ∷ []) 4 ≡ false }
    ensures some { any_between (is_in (false ∷ true ∷ true ∷ false ∷ [])) 2 4 ≡ true }
    ensures none { any_between (is_in (false ∷ true ∷ true ∷ false ∷ [])) 3 4 ≡ false }
    ensures crossed { any_between (is_in (false ∷ true ∷ true ∷ false ∷ [])) 3 1 ≡ false }
    ensures members { members_of (false ∷ true ∷ true ∷ false ∷ []) ≡ 2 }
{}

/// The columns of blocks: of four vertices in two ranges the second block has the destinations 2 and 3, and of five in four ranges
/// the third column has one destination and the last none.
pub fn columns_of_blocks()
    ensures second { (first_destination_of two_ranges 1 ≡ 2) × (end_destination_of two_ranges 1 ≡ 4) }
    ensures third { (first_destination_of two_ranges 2 ≡ 0) × (end_destination_of two_ranges 2 ≡ 2) }
    ensures short { (first_destination_of four_ranges 14 ≡ 4) × (end_destination_of four_ranges 14 ≡ 5) }
    ensures empty { (first_destination_of four_ranges 3 ≡ 6) × (end_destination_of four_ranges 3 ≡ 5) }
{}

/// Levels from vertex 0: first the chunks of its edges, then those of vertices 1 and 2, which it reached, and then none, since
/// vertex 3 has no edge. The chunk without edges is never needed.
pub fn chunks_for_levels()
    ensures first { needed_in_round path_chunks [] (Spec.Bfs 0 5) path_with_shortcut 0
        ≡ true ∷ false ∷ true ∷ false ∷ false ∷ [] }
    ensures second { needed_in_round path_chunks [] (Spec.Bfs 0 5) path_with_shortcut 1
        ≡ false ∷ true ∷ false ∷ false ∷ true ∷ [] }
    ensures last { needed_in_round path_chunks [] (Spec.Bfs 0 5) path_with_shortcut 2
        ≡ false ∷ false ∷ false ∷ false ∷ false ∷ [] }
{}

/// Distances from vertex 0: vertex 2 is reached anew by a shorter walk, so its chunk is needed once more.
pub fn chunks_for_distances()
    ensures first { needed_in_round path_chunks [] (Spec.Sssp 0 5) path_with_shortcut 0
        ≡ true ∷ false ∷ true ∷ false ∷ false ∷ [] }
    ensures second { needed_in_round path_chunks [] (Spec.Sssp 0 5) path_with_shortcut 1
        ≡ false ∷ true ∷ false ∷ false ∷ true ∷ [] }
    ensures third { needed_in_round path_chunks [] (Spec.Sssp 0 5) path_with_shortcut 2
        ≡ false ∷ false ∷ false ∷ false ∷ true ∷ [] }
    ensures last { needed_in_round path_chunks [] (Spec.Sssp 0 5) path_with_shortcut 3
        ≡ false ∷ false ∷ false ∷ false ∷ false ∷ [] }
{}

/// Component labels: first every vertex is active, and in the third round vertex 3 alone, in the column of all chunks but the
/// first.
pub fn chunks_for_labels()
    ensures first { needed_in_round path_chunks [] (Spec.Wcc 5) path_with_shortcut 0
        ≡ true ∷ true ∷ true ∷ false ∷ true ∷ [] }
    ensures second { needed_in_round path_chunks [] (Spec.Wcc 5) path_with_shortcut 1
        ≡ true ∷ true ∷ true ∷ false ∷ true ∷ [] }
    ensures third { needed_in_round path_chunks [] (Spec.Wcc 5) path_with_shortcut 2
        ≡ false ∷ true ∷ true ∷ false ∷ true ∷ [] }
    ensures last { needed_in_round path_chunks [] (Spec.Wcc 5) path_with_shortcut 3
        ≡ false ∷ false ∷ false ∷ false ∷ false ∷ [] }
{}

/// Rank needs every chunk that has edges, in each round and where it counts out-degrees.
pub fn chunks_for_rank()
    ensures counting { needed_to_count path_chunks [] ≡ true ∷ true ∷ true ∷ false ∷ true ∷ [] }
    ensures first { needed_in_round path_chunks [] (Spec.Rank 2) path_with_shortcut 0
        ≡ true ∷ true ∷ true ∷ false ∷ true ∷ [] }
    ensures second { needed_in_round path_chunks [] (Spec.Rank 2) path_with_shortcut 1
        ≡ true ∷ true ∷ true ∷ false ∷ true ∷ [] }
{}

/// In the third round of component labels vertex 2 alone is active. The chunk of the edge from 1 to 2 is needed by its column
/// alone, and so is that from 3 to 2; that from 3 to 0 isn't.
pub fn chunks_by_column()
    ensures second { needed_in_round backward_chunks [] (Spec.Wcc 5) joined_backwards 1
        ≡ false ∷ true ∷ true ∷ true ∷ [] }
    ensures third { needed_in_round backward_chunks [] (Spec.Wcc 5) joined_backwards 2
        ≡ false ∷ true ∷ false ∷ true ∷ [] }
    ensures fourth { needed_in_round backward_chunks [] (Spec.Wcc 5) joined_backwards 3
        ≡ false ∷ true ∷ true ∷ false ∷ [] }
{}

/// A chunk without edges of its own is needed for an added source, and another one is needed for its added source alone.
pub fn chunks_by_added_sources()
    ensures empty { needed_in_round path_chunks (overlay_adding 3 (3 ∷ []) ∷ []) (Spec.Bfs 0 5) path_with_shortcut 2
        ≡ false ∷ false ∷ false ∷ true ∷ false ∷ [] }
    ensures other { let overlays = overlay_adding 2 (1 ∷ []) ∷ overlay_adding 4 (3 ∷ []) ∷ [] in
        needed_in_round path_chunks overlays (Spec.Bfs 0 5) path_with_shortcut 2 ≡ false ∷ false ∷ false ∷ false ∷ true ∷ [] }
    ensures counting { needed_to_count path_chunks (overlay_adding 3 (3 ∷ []) ∷ [])
        ≡ true ∷ true ∷ true ∷ true ∷ true ∷ [] }
    ensures nothing { needed_to_count path_chunks (overlay_adding 3 [] ∷ [])
        ≡ true ∷ true ∷ true ∷ false ∷ true ∷ [] }
{}
