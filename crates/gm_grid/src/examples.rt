//! The definitions of the format, computed on small files that were worked out by hand.
#![tactic(auto, unfolding(crate::specs::GridRefusals::grid_refusal, crate::specs::GridRefusals::head_refusal, crate::specs::GridRefusals::refusal_by_edges))]

ghost use Rattle.std.specs.Prelude.{◌≡◌, Some, None, [], ◌∷◌, take};
ghost use Rattle.gm_grid.specs.Format.{IsGrid};
ghost use Rattle.gm_base.specs.ChunkCounts.{chunk_count};
ghost use Rattle.gm_grid.specs.GridRefusals.{refusal_by_chunks, grid_refusal};
ghost use Rattle.gm_grid.specs.SmallGrids.{path_file, path_blocks, one_vertex_file, head_of_another_kind, file_without_vertices, head_of_too_many_ranges, file_of_vast_blocks, file_with_second_edge, edge_of_last_block, edge_to_no_vertex};

use crate::GridError;

/// The bytes of the small file that [`grid_of_a_path`] speaks of, for tests.
pub const PATH_BYTES: [u8; 96] = *b"GGRID001\x04\0\0\0\x02\0\0\0\
    \x01\0\0\0\0\0\0\0\x02\0\0\0\0\0\0\0\0\0\0\0\0\0\0\0\x01\0\0\0\0\0\0\0\
    \0\0\0\0\x01\0\0\0\x01\0\0\0\x01\0\0\0\x02\0\0\0\x01\0\0\0\
    \0\0\0\0\x02\0\0\0\x05\0\0\0\x02\0\0\0\x03\0\0\0\x01\0\0\0";

/// A path over four vertices with a shortcut, in two ranges.
pub fn grid_of_a_path()
    ensures grid { IsGrid path_file 4 2 path_blocks }
    ensures accepted { grid_refusal 1 path_file ≡ None }
    ensures bytes { PATH_BYTES ≡ path_file }
{}

/// One vertex and no edges.
pub fn grid_of_one_vertex()
    ensures grid { IsGrid one_vertex_file 1 1 ([] ∷ []) }
    ensures accepted { grid_refusal 65536 one_vertex_file ≡ None }
{}

/// What is refused, and for what, in the order in which it is looked for.
pub fn refused_files()
    ensures no_head { grid_refusal 1 (take 10 path_file) ≡ Some (GridError.BadSize 10 16) }
    ensures another_kind { grid_refusal 1 head_of_another_kind ≡ Some GridError.BadMagic }
    ensures no_vertices { grid_refusal 1 file_without_vertices ≡ Some (GridError.BadShape 0 2) }
    ensures too_many_ranges { grid_refusal 1 head_of_too_many_ranges ≡ Some (GridError.BadShape 2 3) }
    ensures no_index { grid_refusal 1 (take 40 path_file) ≡ Some (GridError.BadSize 40 48) }
    ensures vast_blocks { grid_refusal 1 file_of_vast_blocks
        ≡ Some (GridError.TooManyEdges 18446744073709551616) }
    ensures cut { grid_refusal 1 (take 95 path_file) ≡ Some (GridError.BadSize 95 96) }
    ensures cut_with_bad_edge { grid_refusal 1 (take 95 (file_with_second_edge edge_to_no_vertex))
        ≡ Some (GridError.BadSize 95 96) }
    ensures misplaced { grid_refusal 1 (file_with_second_edge edge_of_last_block) ≡ Some (GridError.BadEdge 1) }
    ensures no_vertex { grid_refusal 1 (file_with_second_edge edge_to_no_vertex) ≡ Some (GridError.BadEdge 1) }
{}

/// A block is cut into full chunks and what is left, and one without edges is one chunk.
pub fn chunks_of_blocks()
    ensures cut { chunk_count 4 (1 ∷ 4 ∷ 5 ∷ 0 ∷ []) ≡ 5 }
    ensures enough { refusal_by_chunks 1 (1048576 ∷ []) ≡ None }
    ensures too_many { refusal_by_chunks 1 (1048577 ∷ []) ≡ Some (GridError.TooManyChunks 1048577) }
{}
