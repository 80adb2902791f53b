//! Laws of what jobs see of a grid that changes.
#![tactic(auto, using(crate::specs::SnapshotsRules::snapshots))]

ghost use Rattle.std.specs.Prelude.{◌≡◌, ◌==◌, ℕ, ◌+◌, ◌<◌, ◌≤◌, ◌||◌, true, List, [], ◌++◌, length, flat_map, slice_index_or, All};
ghost use Rattle.std.specs.List.{list_any};
ghost use Rattle.gm_base.specs.declared.edge.Edge.{Edge};
ghost use Rattle.gm_base.specs.Dimensions.{AreDimensions, block_of};
ghost use Rattle.gm_base.specs.Graph.{IsSameGraph, IsGraph};
ghost use Rattle.gm_changes.specs.declared.change.Change.{Change};
ghost use Rattle.gm_changes.specs.Changes.{ChangesWithin, edges_after};
ghost use Rattle.gm_changes.specs.Concerns.{lists, concerns, IsPlaced};
ghost use Rattle.gm_label.specs.Catalogues.{Catalogue, place_at, sources_at, chunk_numbers, IsOver};
ghost use Rattle.gm_label.specs.Overlays.{added_at, key_at, sources_under, AreOverlays};
ghost use Rattle.gm_versions.specs.Contents.{site_at, next_changes_at, update_changes_at, sources_at_after, added_sources, added_at_after};
ghost use Rattle.gm_versions.specs.Contents.{content_after, changes_up_to, all_changes, last_update, is_some_change};
ghost use Rattle.gm_versions.specs.Snapshots.{Snapshot, version_of, changes_of, edges_of, content_of, added_sources_of, sources_of};
ghost use Rattle.gm_versions.specs.Snapshots.{key_of, overlays_of, IsSnapshotOver};
ghost use Rattle.gm_versions.specs.Keys.{content_of_key, IsTakenFrom, IsVersionKey};

/// A law: the chunks' edges after changes, joined, are the same graph as all edges after these changes.
pub fn contents_joined()
    ensures { (cat : Catalogue) (edges : List Edge) (changes : List Change)
        → IsOver cat edges → AreDimensions cat.dimensions.n cat.dimensions.parts
        → All (ChangesWithin cat.dimensions.n) changes
        → IsSameGraph (flat_map (content_after cat edges changes) (chunk_numbers cat))
        (edges_after changes edges) }
{}

/// A law: each edge of a chunk after changes lies in the chunk's block, with its source among the chunk's sources.
pub fn content_edges_are_placed()
    ensures { (cat : Catalogue) (edges : List Edge) (changes : List Change) (c : ℕ) → IsOver cat edges
        → All (IsPlaced cat.dimensions (site_at cat c) (sources_at_after cat c changes))
        (content_after cat edges changes c) }
{}

/// A law: a chunk's sources after changes are those of its label and those of the edges that were added to it.
pub fn sources_are_added()
    ensures { (cat : Catalogue) (changes : List Change) (c source : ℕ)
        → lists (sources_at_after cat c changes) source
        ≡ (lists (sources_at cat c) source || lists (added_at_after cat c changes) source) }
{}

/// A law: the update in a version's key is the last one that concerns the chunk: none after it does, and it does where it isn't 0.
pub fn update_of_key_is_the_last()
    ensures within { (cat : Catalogue) (updates : List (List Change)) (c version : ℕ)
        → last_update cat updates c version ≤ version }
    ensures concerns { (cat : Catalogue) (updates : List (List Change)) (c version t : ℕ)
        → last_update cat updates c version ≡ t + 1
        → is_some_change (update_changes_at cat updates c t) ≡ true }
    ensures none_later { (cat : Catalogue) (updates : List (List Change)) (c version t : ℕ)
        → last_update cat updates c version ≤ t → t < version → update_changes_at cat updates c t ≡ [] }
{}

/// A law: where a job has no changes of its own, its keys are of the updates that it has.
pub fn keys_of_a_version()
    ensures { (cat : Catalogue) (updates : List (List Change)) (job count c : ℕ) → length updates ≤ count
        → IsVersionKey count c (key_of cat (record { job = job; updates = updates; own = [] }) c) }
{}

/// A law: some of further changes concern a chunk exactly where one of them does with the sources from before all of them. And the
/// sources that are added by changes in two parts are those of the first and then those of the second part.
pub fn changes_that_come_next()
    ensures some { (cat : Catalogue) (c : ℕ) (before changes : List Change)
        → is_some_change (next_changes_at cat c before changes)
        ≡ list_any (concerns cat.dimensions (site_at cat c) (sources_at_after cat c before)) changes }
    ensures added { (cat : Catalogue) (c : ℕ) (first second : List Change)
        → added_at_after cat c (first ++ second)
        ≡ added_at_after cat c first ++ added_sources (next_changes_at cat c first second) }
{}

/// A law: later updates change nothing of what a version sees. Its changes are those of the updates up to it.
pub fn later_updates_change_nothing()
    ensures version { (updates more : List (List Change)) (version : ℕ) → version ≤ length updates
        → version_of (updates ++ more) version ≡ version_of updates version }
    ensures changes { (updates : List (List Change)) (version : ℕ) → version ≤ length updates
        → all_changes (version_of updates version).updates ≡ changes_up_to updates version }
{}

/// A law: what a job's key of a chunk stands for, whether it is defined or looked up among the job's overlays, are the chunk's edges
/// as the job sees them.
pub fn key_tells_the_content()
    ensures version { (cat : Catalogue) (edges : List Edge) (updates : List (List Change)) (c version : ℕ)
        → content_after cat edges (changes_up_to updates (last_update cat updates c version)) c
        ≡ content_after cat edges (changes_up_to updates version) c }
    ensures job { (cat : Catalogue) (edges : List Edge) (updates : List (List Change))
        (snapshot_of : ℕ → Snapshot) (s : Snapshot) (c : ℕ) → IsTakenFrom updates snapshot_of s
        → content_of_key cat edges updates snapshot_of (key_of cat s c) ≡ content_of cat edges s c }
    ensures overlays { (cat : Catalogue) (edges : List Edge) (updates : List (List Change))
        (snapshot_of : ℕ → Snapshot) (s : Snapshot) (c : ℕ) → IsTakenFrom updates snapshot_of s
        → content_of_key cat edges updates snapshot_of (key_at (overlays_of cat s) c)
        ≡ content_of cat edges s c }
{}

/// A law: two jobs that have the same key of a chunk see the same edges of it.
pub fn same_key_same_content()
    ensures versions { (cat : Catalogue) (edges : List Edge) (updates : List (List Change))
        (c version other : ℕ)
        → last_update cat updates c version ≡ last_update cat updates c other
        → content_after cat edges (changes_up_to updates version) c
        ≡ content_after cat edges (changes_up_to updates other) c }
    ensures jobs { (cat : Catalogue) (edges : List Edge) (updates : List (List Change))
        (snapshot_of : ℕ → Snapshot) (s t : Snapshot) (c : ℕ) → IsTakenFrom updates snapshot_of s
        → IsTakenFrom updates snapshot_of t
        → key_of cat s c ≡ key_of cat t c → content_of cat edges s c ≡ content_of cat edges t c }
{}

/// A law: looked up by a chunk, a job's overlays tell its key and its sources; and they are overlays of the catalogue.
pub fn overlays_tell_keys_and_sources()
    ensures key { (cat : Catalogue) (s : Snapshot) (c : ℕ) → c < length cat.places
        → key_at (overlays_of cat s) c ≡ key_of cat s c }
    ensures added { (cat : Catalogue) (s : Snapshot) (c : ℕ)
        → added_at (overlays_of cat s) c ≡ added_sources_of cat s c }
    ensures sources { (cat : Catalogue) (s : Snapshot) (c : ℕ)
        → sources_under cat (overlays_of cat s) c ≡ sources_of cat s c }
    ensures overlays { (cat : Catalogue) (s : Snapshot) → All (ChangesWithin cat.dimensions.n) (changes_of s)
        → AreOverlays cat (overlays_of cat s) }
{}

/// A law: the chunks' edges as a job sees them, joined, are the same graph as all edges that it sees. So are the contents of its keys,
/// whether these are defined or looked up among its overlays.
pub fn contents_are_the_view()
    ensures contents { (cat : Catalogue) (edges : List Edge) (s : Snapshot)
        → IsOver cat edges → AreDimensions cat.dimensions.n cat.dimensions.parts
        → All (ChangesWithin cat.dimensions.n) (changes_of s)
        → IsSameGraph (flat_map (content_of cat edges s) (chunk_numbers cat)) (edges_of edges s) }
    ensures keys { (cat : Catalogue) (edges : List Edge) (updates : List (List Change))
        (snapshot_of : ℕ → Snapshot) (s : Snapshot) → IsOver cat edges
        → AreDimensions cat.dimensions.n cat.dimensions.parts
        → All (ChangesWithin cat.dimensions.n) (changes_of s) → IsTakenFrom updates snapshot_of s
        → let content = content_of_key cat edges updates snapshot_of in
        IsSameGraph (flat_map (λ c. content (key_of cat s c)) (chunk_numbers cat)) (edges_of edges s) }
    ensures overlays { (cat : Catalogue) (edges : List Edge) (updates : List (List Change))
        (snapshot_of : ℕ → Snapshot) (s : Snapshot) → IsOver cat edges
        → AreDimensions cat.dimensions.n cat.dimensions.parts
        → All (ChangesWithin cat.dimensions.n) (changes_of s) → IsTakenFrom updates snapshot_of s
        → let content = content_of_key cat edges updates snapshot_of in
        IsSameGraph (flat_map (λ c. content (key_at (overlays_of cat s) c)) (chunk_numbers cat)) (edges_of edges s) }
{}

/// A law: the edges of a chunk as a job sees them lie in the chunk's block, their ends are vertices, and their sources are among those
/// that the job sees. A number that no chunk has gives no edge.
pub fn contents_lie_in_their_chunks()
    ensures block { (cat : Catalogue) (edges : List Edge) (s : Snapshot) (c : ℕ) → IsOver cat edges
        → All (λ e. block_of cat.dimensions e ≡ (place_at cat c).block) (content_of cat edges s c) }
    ensures ends { (cat : Catalogue) (edges : List Edge) (s : Snapshot) (c : ℕ)
        → IsGraph cat.dimensions.n edges → All (ChangesWithin cat.dimensions.n) (changes_of s)
        → IsGraph cat.dimensions.n (content_of cat edges s c) }
    ensures sources { (cat : Catalogue) (edges : List Edge) (s : Snapshot) (c : ℕ) → IsOver cat edges
        → All (λ e. list_any (λ u. u == e.from) (sources_of cat s c) ≡ true) (content_of cat edges s c) }
    ensures none { (cat : Catalogue) (edges : List Edge) (s : Snapshot) (c : ℕ) → length cat.places ≤ c
        → content_of cat edges s c ≡ [] }
{}

/// A law: what a job sees of a graph is a graph of the same vertices.
pub fn snapshots_are_graphs()
    ensures { (n : ℕ) (edges : List Edge) (s : Snapshot)
        → IsGraph n edges → IsSnapshotOver n s → IsGraph n (edges_of edges s) }
{}
