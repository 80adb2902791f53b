//! Laws of the format, and of a file that is read part by part.

ghost use Rattle.std.specs.Prelude.{◌≡◌, ◌+◌, ◌*◌, ◌<◌, ◌≤◌, ◌^◌, ◌++◌, ℕ, List, [], length, take, drop, sum, map, not, slice_index, slice_index_or, IsTrue, Some, None, option_map, All};
ghost use Rattle.std.specs.List.{position};
ghost use Rattle.std.specs.Option.{option_or};
ghost use Rattle.gm_base.specs.declared.edge.Edge.{Edge};
ghost use Rattle.gm_base.specs.declared.limits.TheConstants.{MAX_EDGES, MAX_PARTS};
ghost use Rattle.gm_base.specs.Dimensions.{Dimensions};
ghost use Rattle.gm_grid.specs.declared.sizes.TheConstants.{EDGE_SIZE, HEAD_SIZE};
ghost use Rattle.gm_grid.specs.Format.{dimensions_of, edge_bytes, edges_of_grid, is_in_block, IsGrid};
ghost use Rattle.gm_grid.specs.GridBytes.{shape_of_head, edge_of_bytes, edges_of_bytes, blocks_of, placed_edges, index_end, grid_file_size, shape_in, counts_in, edges_in, blocks_in};
ghost use Rattle.gm_grid.specs.GridRefusals.{short_refusal, head_refusal, index_refusal, size_refusal, is_misplaced, refusal_by_head, refusal_by_index, refusal_by_chunks, refusal_by_edges, grid_refusal, HasGoodHead, HasGoodIndex};

use crate::GridError;

/// A law: bytes that aren't refused are a grid, and a grid is refused for nothing but too many chunks.
pub fn refused_where_no_grid()
    ensures accepted { (chunk_size : ℕ) (bytes : List ℕ)
        → All (λ byte. byte < 256) bytes
        → grid_refusal chunk_size bytes ≡ None
        → IsGrid bytes (shape_in bytes).n (shape_in bytes).parts (blocks_in bytes) }
    ensures grid { (chunk_size : ℕ) (bytes : List ℕ) (n parts : ℕ) (blocks : List (List Edge))
        → IsGrid bytes n parts blocks
        → grid_refusal chunk_size bytes ≡ refusal_by_chunks chunk_size (map (λ edges. length edges) blocks) }
{}

/// A law: from a chunk size of 32 on, there are never too many chunks.
pub fn few_chunks()
    ensures { (chunk_size : ℕ) (counts : List ℕ)
        → 32 ≤ chunk_size
        → sum counts ≤ MAX_EDGES
        → length counts ≤ MAX_PARTS * MAX_PARTS
        → refusal_by_chunks chunk_size counts ≡ None }
{}

/// A law: bytes are the file of one grid at most.
pub fn no_other_reading()
    ensures { (bytes : List ℕ) (n m parts ranges : ℕ) (blocks others : List (List Edge))
        → IsGrid bytes n parts blocks
        → IsGrid bytes m ranges others
        → ((n ≡ m) × (parts ≡ ranges) × (blocks ≡ others)) }
{}

/// A law: a grid's file tells its shape, how many edges each block has, and its edges, and has the size of all of them.
pub fn grid_reads_back()
    ensures shape { (bytes : List ℕ) (n parts : ℕ) (blocks : List (List Edge))
        → IsGrid bytes n parts blocks
        → shape_in bytes ≡ dimensions_of n parts }
    ensures counts { (bytes : List ℕ) (n parts : ℕ) (blocks : List (List Edge))
        → IsGrid bytes n parts blocks
        → counts_in bytes ≡ map (λ edges. length edges) blocks }
    ensures edges { (bytes : List ℕ) (n parts : ℕ) (blocks : List (List Edge))
        → IsGrid bytes n parts blocks
        → edges_in bytes ≡ edges_of_grid blocks }
    ensures size { (bytes : List ℕ) (n parts : ℕ) (blocks : List (List Edge))
        → IsGrid bytes n parts blocks
        → length bytes ≡ grid_file_size (length blocks) (length (edges_of_grid blocks)) }
{}

/// A law: the bytes of an edge are read as the edge.
pub fn edge_reads_back()
    ensures { (e : Edge)
        → e.from < 2 ^ 32
        → e.to < 2 ^ 32
        → e.weight < 2 ^ 32
        → edge_of_bytes (edge_bytes e) ≡ e }
{}

/// A law: a file is refused by its head, by its index, by its chunks and by its edges, in this order.
#[tactic(auto, using(crate::specs::GridRefusalsRules::refused_by_stages))]
pub fn refused_by_stages()
    ensures head { (chunk_size : ℕ) (bytes : List ℕ) (e : GridError)
        → refusal_by_head (length bytes) (take HEAD_SIZE bytes) ≡ Some e
        → grid_refusal chunk_size bytes ≡ Some e }
    ensures index { (chunk_size : ℕ) (bytes : List ℕ) (e : GridError)
        → HasGoodHead bytes
        → refusal_by_index (length bytes) (counts_in bytes) ≡ Some e
        → grid_refusal chunk_size bytes ≡ Some e }
    ensures chunks { (chunk_size : ℕ) (bytes : List ℕ) (e : GridError)
        → HasGoodHead bytes
        → HasGoodIndex bytes
        → refusal_by_chunks chunk_size (counts_in bytes) ≡ Some e
        → grid_refusal chunk_size bytes ≡ Some e }
    ensures edges { (chunk_size : ℕ) (bytes : List ℕ)
        → HasGoodHead bytes
        → HasGoodIndex bytes
        → refusal_by_chunks chunk_size (counts_in bytes) ≡ None
        → grid_refusal chunk_size bytes
        ≡ refusal_by_edges (shape_in bytes) (counts_in bytes) (edges_in bytes) }
{}

/// A law: by its head a file is refused for being too short for one, then for the head, then for being too short for the index, and by
/// its index for too many edges, then for its size.
#[tactic(auto, using(crate::specs::GridRefusalsRules::refused_by_stages))]
pub fn refused_by_steps()
    ensures short { (size : ℕ) (head : List ℕ)
        → size < HEAD_SIZE
        → refusal_by_head size head ≡ Some (GridError.BadSize size HEAD_SIZE) }
    ensures head { (size : ℕ) (head : List ℕ) (e : GridError)
        → HEAD_SIZE ≤ size
        → head_refusal head ≡ Some e
        → refusal_by_head size head ≡ Some e }
    ensures short_index { (size : ℕ) (head : List ℕ)
        → HEAD_SIZE ≤ size
        → head_refusal head ≡ None
        → refusal_by_head size head ≡ short_refusal size (index_end (shape_of_head head)) }
    ensures index { (size : ℕ) (counts : List ℕ) (e : GridError)
        → index_refusal counts ≡ Some e
        → refusal_by_index size counts ≡ Some e }
    ensures size { (size : ℕ) (counts : List ℕ)
        → index_refusal counts ≡ None
        → refusal_by_index size counts ≡ size_refusal size (grid_file_size (length counts) (sum counts)) }
{}

/// A law: bytes that neither their head nor their index refuses are a grid where each edge is in its block, and else the first
/// edge that isn't is the bad one, by its number in the file.
pub fn grid_by_parts()
    ensures grid { (bytes : List ℕ)
        → All (λ byte. byte < 256) bytes
        → HasGoodHead bytes
        → HasGoodIndex bytes
        → ((block : ℕ) → All (λ e. IsTrue (is_in_block (shape_in bytes) block e))
        (slice_index_or (blocks_in bytes) block []))
        → IsGrid bytes (shape_in bytes).n (shape_in bytes).parts (blocks_in bytes) }
    ensures edges { (bytes : List ℕ)
        → HasGoodHead bytes
        → HasGoodIndex bytes
        → edges_of_grid (blocks_in bytes) ≡ edges_in bytes }
    ensures sizes { (bytes : List ℕ)
        → HasGoodHead bytes
        → HasGoodIndex bytes
        → ((sum (counts_in bytes) ≡ length (edges_in bytes))
        × (length bytes ≡ index_end (shape_in bytes) + EDGE_SIZE * length (edges_in bytes))) }
    ensures bad_edge { (chunk_size place : ℕ) (bytes : List ℕ)
        → HasGoodHead bytes
        → HasGoodIndex bytes
        → refusal_by_chunks chunk_size (counts_in bytes) ≡ None
        → position (is_misplaced (shape_in bytes)) (placed_edges 0 (blocks_in bytes)) ≡ Some place
        → grid_refusal chunk_size bytes ≡ Some (GridError.BadEdge place) }
{}

/// A law: the edges of some of a file's bytes are those at their places, by their numbers in the file and among those of their
/// block.
pub fn edges_by_parts()
    ensures part { (first count : ℕ) (bytes : List ℕ)
        → edges_of_bytes (take (EDGE_SIZE * count) (drop (index_end (shape_in bytes) + EDGE_SIZE * first) bytes))
        ≡ take count (drop first (edges_in bytes)) }
    ensures joined { (count : ℕ) (xs ys : List ℕ)
        → length xs ≡ EDGE_SIZE * count
        → edges_of_bytes (xs ++ ys) ≡ edges_of_bytes xs ++ edges_of_bytes ys }
    ensures placed { (counts : List ℕ) (edges : List Edge) (block place count : ℕ)
        → sum counts ≡ length edges
        → block < length counts
        → place + count ≤ slice_index counts block
        → take count (drop (sum (take block counts) + place) (placed_edges 0 (blocks_of counts edges)))
        ≡ map (λ e. (block, e)) (take count (drop (sum (take block counts) + place) edges)) }
{}

/// A law: the first misplaced edge is looked for in one part after another, and within a block by its test.
#[tactic(auto, using(crate::specs::GridRefusalsRules::misplaced_by_parts))]
pub fn misplaced_by_parts()
    ensures joined { (d : Dimensions) (xs ys : List (ℕ × Edge))
        → position (is_misplaced d) (xs ++ ys)
        ≡ option_or (position (is_misplaced d) xs)
        (option_map (λ place. length xs + place) (position (is_misplaced d) ys)) }
    ensures block { (d : Dimensions) (block : ℕ) (edges : List Edge)
        → position (is_misplaced d) (map (λ e. (block, e)) edges)
        ≡ position (λ e. not (is_in_block d block e)) edges }
{}
