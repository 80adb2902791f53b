//! The definition of the edges of a text, computed on texts that were worked out by hand.

ghost use Rattle.std.specs.Prelude.{◌≡◌, [], ◌∷◌, codes};
ghost use Rattle.gm_base.specs.Graph.{edge};
ghost use Rattle.gm_edges.specs.EdgeText.{edge_list_of, edge_list_up_to, ended_edges_of};

use crate::EdgeListRefusal;

/// A comment, line ends with CR, tabs, and no last line end.
pub fn list_with_comment_and_tabs()
    ensures { edge_list_of (codes "# Nodes: 4 Edges: 4\r\n0\t1\r\n1\t2\r\n0\t2\t5\r\n2\t3") 4
        ≡ Ok (edge 0 1 1 ∷ edge 1 2 1 ∷ edge 0 2 5 ∷ edge 2 3 1 ∷ []) }
{}

/// No line, a line of one byte, lines without words.
pub fn lists_without_edges()
    ensures no_text { edge_list_of [] 1 ≡ Ok [] }
    ensures comment { edge_list_of (codes "#") 1 ≡ Ok [] }
    ensures late_comment { edge_list_of (codes " \t#1 2 3 x") 1 ≡ Ok [] }
    ensures no_word { edge_list_of (codes "\n \r\n") 1 ≡ Ok [] }
{}

/// A CR between words is a blank, leading zeros don't count, equal edges and edges from a vertex to itself are kept.
pub fn unusual_lists()
    ensures carriage_return { edge_list_of (codes "0\r1") 2 ≡ Ok (edge 0 1 1 ∷ []) }
    ensures leading_zeros { edge_list_of (codes "007 00 01") 8 ≡ Ok (edge 7 0 1 ∷ []) }
    ensures twenty_digits { edge_list_of (codes "00000000000000000001 0") 2 ≡ Ok (edge 1 0 1 ∷ []) }
    ensures equal_loops { edge_list_of (codes "0 0\n0 0\n") 1 ≡ Ok (edge 0 0 1 ∷ edge 0 0 1 ∷ []) }
    ensures greatest_weight { edge_list_of (codes "0 0 4294967295") 1 ≡ Ok (edge 0 0 4294967295 ∷ []) }
    ensures no_weight { edge_list_of (codes "0 0 0") 1 ≡ Ok (edge 0 0 0 ∷ []) }
{}

/// Lines of none of the forms.
pub fn bad_lines()
    ensures letter { edge_list_of (codes "0 1\n1 x\n") 4 ≡ Err (EdgeListRefusal.BadLine 2) }
    ensures one_word { edge_list_of (codes "0") 4 ≡ Err (EdgeListRefusal.BadLine 1) }
    ensures four_words { edge_list_of (codes "0 1 2 3") 4 ≡ Err (EdgeListRefusal.BadLine 1) }
    ensures weight { edge_list_of (codes "0 1 4294967296") 4 ≡ Err (EdgeListRefusal.BadLine 1) }
    ensures digits { edge_list_of (codes "000000000000000000000 1") 4 ≡ Err (EdgeListRefusal.BadLine 1) }
    ensures number { edge_list_of (codes "18446744073709551616 1") 4 ≡ Err (EdgeListRefusal.BadLine 1) }
    ensures zero_byte { edge_list_of (48 ∷ 0 ∷ codes " 1") 4 ≡ Err (EdgeListRefusal.BadLine 1) }
    ensures late_comment { edge_list_of (codes "0 #1") 4 ≡ Err (EdgeListRefusal.BadLine 1) }
    ensures glued_comment { edge_list_of (codes "0#") 4 ≡ Err (EdgeListRefusal.BadLine 1) }
    ensures counted { edge_list_of (codes "#\n\n0 0\n-1 0\n") 4 ≡ Err (EdgeListRefusal.BadLine 4) }
{}

/// An end that is no vertex, and the order of judgment.
pub fn no_vertices()
    ensures to { edge_list_of (codes "0 4") 4 ≡ Err (EdgeListRefusal.NoVertex 1) }
    ensures from { edge_list_of (codes "18446744073709551615 0") 4 ≡ Err (EdgeListRefusal.NoVertex 1) }
    ensures bad_line_first { edge_list_of (codes "9 9 x") 4 ≡ Err (EdgeListRefusal.BadLine 1) }
    ensures first_line_first { edge_list_of (codes "9 9\nx") 4 ≡ Err (EdgeListRefusal.NoVertex 1) }
{}

/// Where only so many edges may be listed.
pub fn too_many_edges()
    ensures enough { edge_list_up_to 1 (codes "0 0\n#") 1 ≡ Ok (edge 0 0 1 ∷ []) }
    ensures too_many { edge_list_up_to 1 (codes "0 0\n\n0 0\nx") 1 ≡ Err (EdgeListRefusal.TooManyEdges 3) }
    ensures no_vertex_first { edge_list_up_to 1 (codes "0 0\n0 1") 1 ≡ Err (EdgeListRefusal.NoVertex 2) }
    ensures bad_line_first { edge_list_up_to 1 (codes "0 0\n0 0 x") 1 ≡ Err (EdgeListRefusal.BadLine 2) }
{}

/// The lines that have ended in a text so far.
pub fn edges_so_far()
    ensures begun { ended_edges_of (codes "0 0\n9 9") 1 ≡ Ok (edge 0 0 1 ∷ []) }
    ensures ended { ended_edges_of (codes "0 0\n9 9\n") 1 ≡ Err (EdgeListRefusal.NoVertex 2) }
    ensures nothing { ended_edges_of (codes "0 0") 1 ≡ Ok [] }
{}
