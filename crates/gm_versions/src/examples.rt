//! What jobs see, computed on a small grid that was changed by hand.

ghost use Rattle.std.specs.Prelude.{◌≡◌, [], ◌∷◌, ◌++◌};
ghost use Rattle.gm_base.specs.Graph.{edge};
ghost use Rattle.gm_base.specs.Examples.{path_with_shortcut};
ghost use Rattle.gm_versions.specs.Snapshots.{version_of};
ghost use Rattle.gm_versions.specs.Examples.{path_edges, path_content, path_sources, path_tags, path_overlays};
ghost use Rattle.gm_versions.specs.Examples.{path_content_of_tag, overlay, below, below_one, joined_ends, parted_ends};

use gm_base::Tag;
use gm_changes::Change;

/// An update adds an edge: of its block's two chunks the last one alone has another key, an edge more and a source more. The
/// version before sees nothing of it.
pub fn update_adds_an_edge()
    ensures edges { path_edges (below joined_ends) ≡ path_with_shortcut ++ edge 0 3 1 ∷ [] }
    ensures tags { path_tags (below joined_ends)
        ≡ Tag.Update 0 ∷ Tag.Update 0 ∷ Tag.Update 1 ∷ Tag.Update 0 ∷ Tag.Update 0 ∷ [] }
    ensures content { path_content (below joined_ends) 2 ≡ edge 0 2 5 ∷ edge 0 3 1 ∷ [] }
    ensures sources { path_sources (below joined_ends) 2 ≡ 0 ∷ 0 ∷ [] }
    ensures overlays { path_overlays (below joined_ends) ≡ overlay 2 (Tag.Update 1) (0 ∷ []) ∷ [] }
    ensures edges_before { path_edges (version_of joined_ends 0) ≡ path_with_shortcut }
    ensures tags_before { path_tags (version_of joined_ends 0)
        ≡ Tag.Update 0 ∷ Tag.Update 0 ∷ Tag.Update 0 ∷ Tag.Update 0 ∷ Tag.Update 0 ∷ [] }
    ensures content_before { path_content (version_of joined_ends 0) 2 ≡ edge 0 2 5 ∷ [] }
    ensures sources_before { path_sources (version_of joined_ends 0) 2 ≡ 0 ∷ [] }
    ensures no_overlays { path_overlays (version_of joined_ends 0) ≡ [] }
{}

/// An update cuts an edge: its chunk has another key and is left without edges. No source is added, and none is taken away.
pub fn update_cuts_an_edge()
    ensures last { path_overlays (below_one (Change.Cut 2 3 ∷ [])) ≡ overlay 4 (Tag.Update 1) [] ∷ [] }
    ensures last_content { path_content (below_one (Change.Cut 2 3 ∷ [])) 4 ≡ [] }
    ensures last_sources { path_sources (below_one (Change.Cut 2 3 ∷ [])) 4 ≡ 2 ∷ [] }
    ensures first { path_overlays (below_one (Change.Cut 0 1 ∷ [])) ≡ overlay 0 (Tag.Update 1) [] ∷ [] }
    ensures first_content { path_content (below_one (Change.Cut 0 1 ∷ [])) 0 ≡ [] }
{}

/// A chunk without edges is given one, and with it its only source. A number that no chunk has is given nothing.
pub fn chunk_without_edges_is_given_one()
    ensures overlays { path_overlays (below_one (Change.Add (edge 3 0 1) ∷ []))
        ≡ overlay 3 (Tag.Update 1) (3 ∷ []) ∷ [] }
    ensures content { path_content (below_one (Change.Add (edge 3 0 1) ∷ [])) 3 ≡ edge 3 0 1 ∷ [] }
    ensures no_chunk { path_content (below_one (Change.Add (edge 3 0 1) ∷ [])) 5 ≡ [] }
{}

/// An update that concerns no chunk changes no key: a cut of an edge whose source no chunk of its block lists.
pub fn update_that_concerns_no_chunk()
    ensures tags { path_tags (below_one (Change.Cut 3 1 ∷ []))
        ≡ Tag.Update 0 ∷ Tag.Update 0 ∷ Tag.Update 0 ∷ Tag.Update 0 ∷ Tag.Update 0 ∷ [] }
    ensures later { path_overlays (below (joined_ends ++ (Change.Cut 3 1 ∷ []) ∷ []))
        ≡ overlay 2 (Tag.Update 1) (0 ∷ []) ∷ [] }
{}

/// A source that an update added is there for a later one: its cut concerns the chunk, and the source stays listed.
pub fn later_update_cuts_what_was_added()
    ensures overlays { path_overlays (below ((Change.Add (edge 3 0 1) ∷ []) ∷ (Change.Cut 3 0 ∷ []) ∷ []))
        ≡ overlay 3 (Tag.Update 2) (3 ∷ []) ∷ [] }
    ensures content { let updates = (Change.Add (edge 3 0 1) ∷ []) ∷ (Change.Cut 3 0 ∷ []) ∷ [] in
        path_content (below updates) 3 ≡ [] }
{}

/// A job cuts what an update added: its key of the chunk is its own, and the others stay those of its version.
pub fn job_cuts_what_an_update_added()
    ensures tags { path_tags parted_ends
        ≡ Tag.Update 0 ∷ Tag.Update 0 ∷ Tag.Own 0 ∷ Tag.Update 0 ∷ Tag.Update 0 ∷ [] }
    ensures content { path_content parted_ends 2 ≡ edge 0 2 5 ∷ [] }
    ensures overlays { path_overlays parted_ends ≡ overlay 2 (Tag.Own 0) (0 ∷ []) ∷ [] }
    ensures edges { path_edges parted_ends ≡ path_with_shortcut }
{}

/// The chunk that the update and the job changed, by its keys: the grid's, the update's and the job's.
pub fn tags_of_a_chunk()
    ensures grid { path_content_of_tag 2 (Tag.Update 0) ≡ edge 0 2 5 ∷ [] }
    ensures update { path_content_of_tag 2 (Tag.Update 1) ≡ edge 0 2 5 ∷ edge 0 3 1 ∷ [] }
    ensures own { path_content_of_tag 2 (Tag.Own 0) ≡ edge 0 2 5 ∷ [] }
{}
