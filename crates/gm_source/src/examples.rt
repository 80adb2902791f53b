//! How often files are read that are opened, computed on small files that were worked out by hand.
#![tactic(auto, unfolding(gm_grid::specs::GridRefusals::head_refusal, crate::specs::Openings::edge_reads))]

ghost use Rattle.std.specs.Prelude.{◌≡◌, Some, None, take};
ghost use Rattle.gm_grid.specs.SmallGrids.{path_file, head_of_another_kind, file_without_vertices, file_of_vast_blocks, file_with_second_edge, edge_of_last_block};
ghost use Rattle.gm_source.specs.Openings.{file_reads};
ghost use Rattle.gm_source.specs.OpeningReads.{refusal_before_read};

use gm_grid::GridError;

/// How many reads it takes to open a file, or to come to its refusal.
pub fn reads_of_files()
    ensures no_head { file_reads 1 (take 10 path_file) ≡ 0 }
    ensures another_kind { file_reads 1 head_of_another_kind ≡ 1 }
    ensures no_vertices { file_reads 1 file_without_vertices ≡ 1 }
    ensures no_index { file_reads 1 (take 40 path_file) ≡ 1 }
    ensures vast_blocks { file_reads 1 file_of_vast_blocks ≡ 2 }
    ensures cut { file_reads 1 (take 95 path_file) ≡ 2 }
    ensures misplaced { file_reads 1 (file_with_second_edge edge_of_last_block) ≡ 4 }
    ensures four_chunks { file_reads 1 path_file ≡ 6 }
    ensures three_chunks { file_reads 4 path_file ≡ 5 }
{}

/// What is known to refuse a file before each of its reads.
pub fn refusals_before_reads()
    ensures nothing { refusal_before_read 1 (take 10 path_file) 0 ≡ None }
    ensures length { refusal_before_read 1 (take 10 path_file) 1 ≡ Some (GridError.BadSize 10 16) }
    ensures unread_head { refusal_before_read 1 head_of_another_kind 1 ≡ None }
    ensures head { refusal_before_read 1 head_of_another_kind 2 ≡ Some GridError.BadMagic }
    ensures unread_index { refusal_before_read 1 (take 95 path_file) 2 ≡ None }
    ensures index { refusal_before_read 1 (take 95 path_file) 3 ≡ Some (GridError.BadSize 95 96) }
    ensures unread_edge { refusal_before_read 1 (file_with_second_edge edge_of_last_block) 4 ≡ None }
    ensures edge { refusal_before_read 1 (file_with_second_edge edge_of_last_block) 5
        ≡ Some (GridError.BadEdge 1) }
    ensures whole { refusal_before_read 1 path_file 6 ≡ None }
{}
