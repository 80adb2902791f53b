//! Laws of labels and chunks.
#![tactic(auto, using(crate::specs::CataloguesRules::labelling))]

ghost use Rattle.std.specs.Prelude.{◌≡◌, ◌==◌, ◌≤◌, ◌+◌, ◌*◌, ◌<◌, ℕ, List, [], map, max, length, true, false, All, take, drop, sum, sum_by, flat_map, slice_index_or};
ghost use Rattle.std.specs.Int.{div_ceil};
ghost use Rattle.std.specs.List.{list_any};
ghost use Rattle.gm_base.specs.declared.edge.Edge.{Edge};
ghost use Rattle.gm_base.specs.Dimensions.{Dimensions, AreDimensions, block_of};
ghost use Rattle.gm_base.specs.Graph.{HasEndsBelow, out_degree};
ghost use Rattle.gm_label.specs.declared.chunk.Place.{Place};
ghost use Rattle.gm_label.specs.Chunks.{chunks_of_block, chunks_of, base_of, AreInBlocks};
ghost use Rattle.gm_base.specs.ChunkCounts.{chunk_count};
ghost use Rattle.gm_label.specs.Labels.{label_of, sources_of, count_in, counted_edges, IsLabel};
ghost use Rattle.gm_label.specs.Catalogues.{Catalogue, no_place, place_at, label_at, catalogue_of, unlabelled, with_label, labelled_up_to, IsSourceIn, FitsChunk, IsCut, IsOver};

/// A law: the label of edges ascends, and tells how many of them leave each vertex and how many there are.
pub fn label_counts_edges()
    ensures ascends { (edges : List Edge) → IsLabel (label_of edges) }
    ensures counts { (edges : List Edge) (u : ℕ) → count_in (label_of edges) u ≡ out_degree edges u }
    ensures all { (edges : List Edge) → counted_edges (label_of edges) ≡ length edges }
{}

/// A law: each edge's source stands in the label.
pub fn label_lists_sources()
    ensures { (edges : List Edge) → All (λ e. list_any (λ s. s == e.from) (sources_of (label_of edges)) ≡ true) edges }
{}

/// A law: two labels that tell the same counts are one.
pub fn one_label()
    ensures { (xs ys : List (ℕ × ℕ)) → IsLabel xs → IsLabel ys → ((u : ℕ) → count_in xs u ≡ count_in ys u) → xs ≡ ys }
{}

/// A law: the chunks of a block, joined, are its edges; those of all blocks are all edges.
pub fn chunks_joined()
    ensures block { (size block first count : ℕ) (edges : List Edge)
        → flat_map (base_of edges) (chunks_of_block size block first count) ≡ take count (drop first edges) }
    ensures all { (size : ℕ) (counts : List ℕ) (edges : List Edge) → sum counts ≡ length edges
        → flat_map (base_of edges) (chunks_of size counts) ≡ edges }
{}

/// A law: an edge's source is one of those that edges of its block may have, and so are the sources of a label of edges of one
/// block, so that the block can be passed over by its row.
pub fn labels_lie_in_rows()
    ensures edge { (d : Dimensions) (e : Edge) → AreDimensions d.n d.parts → HasEndsBelow d.n e → IsSourceIn d (block_of d e) e.from }
    ensures label { (d : Dimensions) (block : ℕ) (edges : List Edge) → AreDimensions d.n d.parts
        → All (λ e. HasEndsBelow d.n e × (block_of d e ≡ block)) edges → All (IsSourceIn d block) (sources_of (label_of edges)) }
{}

/// A law: the label of as many edges of a chunk's block as the chunk has can be its label.
pub fn label_fits_its_chunk()
    ensures { (cat : Catalogue) (c : ℕ) (edges : List Edge) → AreDimensions cat.dimensions.n cat.dimensions.parts
        → length edges ≡ (place_at cat c).count
        → All (λ e. HasEndsBelow cat.dimensions.n e × (block_of cat.dimensions e ≡ (place_at cat c).block)) edges
        → FitsChunk cat c (label_of edges) }
{}

/// A law: a catalogue of a grid has what the layers above use of chunks.
pub fn catalogue_is_over_its_edges()
    ensures { (d : Dimensions) (size : ℕ) (counts : List ℕ) (edges : List Edge) → IsCut d counts edges
        → IsOver (catalogue_of d size counts edges) edges }
{}

/// A law: all chunks of a block but its last are full, and that one isn't larger, nor empty where the block has edges.
pub fn chunks_are_full()
    ensures { (size block first count : ℕ) → 1 ≤ size
        → All (λ place. (place.count ≤ size) × (place.is_last ≡ false → place.count ≡ size) × (1 ≤ count → 1 ≤ place.count))
        (chunks_of_block size block first count) }
{}

/// A law: a block of so many edges has as many chunks as full ones are needed to hold them, and at least one.
pub fn chunks_are_counted()
    ensures { (size : ℕ) (counts : List ℕ) → 1 ≤ size → length (chunks_of size counts) ≡ chunk_count size counts }
{}

/// A law: each edge of a chunk lies in the chunk's block.
pub fn edges_in_chunks_are_in_blocks()
    ensures { (d : Dimensions) (size : ℕ) (counts : List ℕ) (edges : List Edge) → AreInBlocks d 0 counts edges
        → All (λ place. All (λ e. block_of d e ≡ place.block) (base_of edges place)) (chunks_of size counts) }
{}

/// A law: the edges of blocks, joined, and cut by the blocks' lengths lie in their blocks.
pub fn grid_edges_are_in_blocks()
    ensures { (d : Dimensions) (block : ℕ) (blocks : List (List Edge))
        → ((k : ℕ) → All (λ e. block_of d e ≡ block + k) (slice_index_or blocks k []))
        → AreInBlocks d block (map (λ edges. length edges) blocks) (flat_map (λ edges. edges) blocks) }
{}

/// A law: each chunk lies within all edges, and has as many as it counts.
pub fn chunks_have_their_edges()
    ensures within { (size : ℕ) (counts : List ℕ) → All (λ place. place.first + place.count ≤ sum counts) (chunks_of size counts) }
    ensures edges { (size : ℕ) (counts : List ℕ) (edges : List Edge) → sum counts ≡ length edges
        → All (λ place. length (base_of edges place) ≡ place.count) (chunks_of size counts) }
{}

/// A law: chunks that are given their labels one after the other, in order, make the catalogue of the grid.
pub fn labelled_chunk_by_chunk()
    ensures none { (d : Dimensions) (places : List Place) (edges : List Edge) → labelled_up_to d places edges 0 ≡ unlabelled d places }
    ensures fresh { (d : Dimensions) (places : List Place) (edges : List Edge) (k : ℕ) → k < length places
        → label_at (labelled_up_to d places edges k) k ≡ [] }
    ensures next { (d : Dimensions) (places : List Place) (edges : List Edge) (k : ℕ) → k < length places
        → with_label (labelled_up_to d places edges k) k (label_of (base_of edges (slice_index_or places k no_place)))
        ≡ labelled_up_to d places edges (k + 1) }
    ensures all { (d : Dimensions) (size : ℕ) (counts : List ℕ) (edges : List Edge) (k : ℕ) → length (chunks_of size counts) ≤ k
        → labelled_up_to d (chunks_of size counts) edges k ≡ catalogue_of d size counts edges }
{}
