//! What the jobs of a script see of a small grid, computed for two jobs with an update between them. Worked out by hand.

ghost use Rattle.std.specs.Prelude.{◌≡◌, [], ◌∷◌};
ghost use Rattle.gm_base.specs.Graph.{edge};
ghost use Rattle.gm_scripts.specs.Examples.{edges_on_path, tags_on_path, content_on_path};

use gm_base::Tag;

/// The first job doesn't see the update below its line, and the second one not the first job's own change.
pub fn edges_of_two_jobs()
    ensures first { edges_on_path 0 ≡ edge 0 1 1 ∷ edge 1 2 1 ∷ edge 2 3 1 ∷ [] }
    ensures second { edges_on_path 1 ≡ edge 0 1 1 ∷ edge 1 2 1 ∷ edge 0 2 5 ∷ edge 2 3 1 ∷ edge 0 3 1 ∷ [] }
{}

/// Of the chunk that held the shortcut the first job has a key of its own, and the second job that of the update. All others are the grid's.
pub fn keys_of_two_jobs()
    ensures first { tags_on_path 0
        ≡ Tag.Update 0 ∷ Tag.Update 0 ∷ Tag.Own 0 ∷ Tag.Update 0 ∷ Tag.Update 0 ∷ [] }
    ensures second { tags_on_path 1
        ≡ Tag.Update 0 ∷ Tag.Update 0 ∷ Tag.Update 1 ∷ Tag.Update 0 ∷ Tag.Update 0 ∷ [] }
{}

/// The chunk without the first job's shortcut, with the update's edge, and as it is in the grid.
pub fn contents_of_keys()
    ensures first { content_on_path 2 (Tag.Own 0) ≡ [] }
    ensures second { content_on_path 2 (Tag.Update 1) ≡ edge 0 2 5 ∷ edge 0 3 1 ∷ [] }
    ensures grid { content_on_path 2 (Tag.Update 0) ≡ edge 0 2 5 ∷ [] }
{}
