//! The definitions of chunks and labels, computed on small grids that were worked out by hand.

ghost use Rattle.std.specs.Prelude.{◌≡◌, true, false, [], ◌∷◌, Some, None};
ghost use Rattle.gm_base.specs.Graph.{edge};
ghost use Rattle.gm_base.specs.Examples.{path_with_shortcut};
ghost use Rattle.gm_label.specs.Chunks.{chunks_of, too_many_chunks};
ghost use Rattle.gm_label.specs.Labels.{label_of, label_of_sources};
ghost use Rattle.gm_label.specs.Counts.{pairs_of};
ghost use Rattle.gm_label.specs.Catalogues.{catalogue_of, base_at, first_source_of, end_source_of};
ghost use Rattle.gm_label.specs.Examples.{place, two_ranges, path_counts, four_ranges};

/// A path over four vertices with a shortcut, cut into chunks of one edge: the block of two edges has two, and the one without
/// edges has one.
pub fn five_chunks_of_a_path()
    ensures chunks { chunks_of 1 path_counts
        ≡ place 0 0 1 true ∷ place 1 1 1 false ∷ place 1 2 1 true ∷ place 2 3 0 true ∷ place 3 3 1 true ∷ [] }
    ensures labels { (catalogue_of two_ranges 1 path_counts path_with_shortcut).labels
        ≡ ((0, 1) ∷ []) ∷ ((1, 1) ∷ []) ∷ ((0, 1) ∷ []) ∷ [] ∷ ((2, 1) ∷ []) ∷ [] }
    ensures third { base_at (catalogue_of two_ranges 1 path_counts path_with_shortcut) path_with_shortcut 2 ≡ edge 0 2 5 ∷ [] }
{}

/// The same in chunks of two edges.
pub fn four_chunks_of_a_path()
    ensures chunks { chunks_of 2 path_counts ≡ place 0 0 1 true ∷ place 1 1 2 true ∷ place 2 3 0 true ∷ place 3 3 1 true ∷ [] }
    ensures labels { (catalogue_of two_ranges 2 path_counts path_with_shortcut).labels
        ≡ ((0, 1) ∷ []) ∷ ((0, 1) ∷ (1, 1) ∷ []) ∷ [] ∷ ((2, 1) ∷ []) ∷ [] }
{}

/// A block's last chunk has what is left, and isn't empty where full chunks hold all.
pub fn chunks_of_one_block()
    ensures rest { chunks_of 2 (5 ∷ []) ≡ place 0 0 2 false ∷ place 0 2 2 false ∷ place 0 4 1 true ∷ [] }
    ensures full { chunks_of 2 (4 ∷ []) ≡ place 0 0 2 false ∷ place 0 2 2 true ∷ [] }
    ensures empty { chunks_of 65536 (0 ∷ []) ≡ place 0 0 0 true ∷ [] }
{}

/// The most chunks that are taken, and one more.
pub fn most_chunks()
    ensures most { too_many_chunks 1 (1048576 ∷ []) ≡ None }
    ensures more { too_many_chunks 1 (1048577 ∷ []) ≡ Some 1048577 }
    ensures two { too_many_chunks 2 (1048577 ∷ []) ≡ None }
    ensures empty { too_many_chunks 1 (1048573 ∷ 0 ∷ 0 ∷ 0 ∷ []) ≡ None }
    ensures empty_too { too_many_chunks 1 (1048574 ∷ 0 ∷ 0 ∷ 0 ∷ []) ≡ Some 1048577 }
{}

/// A label counts each source's edges, equal ones too, wherever they stand.
pub fn small_labels()
    ensures equal { label_of (edge 0 1 1 ∷ edge 0 1 1 ∷ []) ≡ (0, 2) ∷ [] }
    ensures order { label_of_sources (7 ∷ 3 ∷ 7 ∷ 5 ∷ 7 ∷ 3 ∷ []) ≡ (3, 2) ∷ (5, 1) ∷ (7, 3) ∷ [] }
    ensures path { label_of path_with_shortcut ≡ (0, 2) ∷ (1, 1) ∷ (2, 1) ∷ [] }
    ensures none { label_of [] ≡ [] }
    ensures table { pairs_of 3 (2 ∷ 0 ∷ 1 ∷ 0 ∷ 3 ∷ []) ≡ (3, 2) ∷ (5, 1) ∷ (7, 3) ∷ [] }
{}

/// The sources that edges of a block may have: those of its row, which may have fewer vertices than others or none.
pub fn rows_of_blocks()
    ensures second { (first_source_of two_ranges 1 ≡ 0) × (end_source_of two_ranges 1 ≡ 2) }
    ensures third { (first_source_of two_ranges 2 ≡ 2) × (end_source_of two_ranges 2 ≡ 4) }
    ensures short { (first_source_of four_ranges 11 ≡ 4) × (end_source_of four_ranges 11 ≡ 5) }
    ensures empty { (first_source_of four_ranges 12 ≡ 6) × (end_source_of four_ranges 12 ≡ 5) }
{}
