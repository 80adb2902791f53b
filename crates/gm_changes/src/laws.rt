//! Laws of changes.
#![tactic(auto, using(crate::specs::ChangesRules::changes_in_order, crate::specs::KeptRules::one_walk, crate::specs::ConcernsRules::changes_of_a_chunk))]

ghost use Rattle.std.specs.Prelude.{◌≡◌, ℕ, ◌<◌, Bool, true, false, List, [], ◌∷◌, ◌++◌, flat_map, count_by};
ghost use Rattle.std.specs.List.{AllByRecursion, filter};
ghost use Rattle.gm_base.specs.declared.edge.Edge.{Edge};
ghost use Rattle.gm_base.specs.Dimensions.{Dimensions, block_of};
ghost use Rattle.gm_base.specs.Graph.{IsSameGraph};
ghost use Rattle.gm_changes.specs.Changes.{edges_after_one, edges_after};
ghost use Rattle.gm_changes.specs.Concerns.{Site, concerns, concerning_changes, sources_after, IsPlaced, AddsWithin, takes_adds_of, is_cut_or_added_here, may_concern, HasOneLastEach};
ghost use Rattle.gm_changes.specs.Kept.{uncut_edges, kept_adds};
ghost use Rattle.gm_changes.specs.declared.change.Change.{Change as AnyChange};

use crate::Change;

/// A law: changes in two parts are the first part and then the second.
pub fn changes_in_parts()
    ensures edges { (first second : List AnyChange) (edges : List Edge)
        → edges_after (first ++ second) edges ≡ edges_after second (edges_after first edges) }
    ensures sources { (first second : List AnyChange) (sources : List ℕ)
        → sources_after (first ++ second) sources ≡ sources_after second (sources_after first sources) }
    ensures concerning { (d : Dimensions) (site : Site) (sources : List ℕ) (first second : List AnyChange)
        → concerning_changes d site sources (first ++ second)
        ≡ concerning_changes d site sources first
        ++ concerning_changes d site (sources_after (concerning_changes d site sources first) sources) second }
{}

/// A law: changes can be made in one walk. The edges that none of them cuts stay, and behind them come the added edges that no
/// later change cuts.
pub fn changes_in_one_walk()
    ensures { (changes : List AnyChange) (edges : List Edge)
        → edges_after changes edges ≡ uncut_edges changes edges ++ kept_adds changes }
{}

/// A law: the same graph, changed in the same way, is the same graph.
pub fn same_graph_after_changes()
    ensures { (changes : List AnyChange) (xs ys : List Edge) → IsSameGraph xs ys
        → IsSameGraph (edges_after changes xs) (edges_after changes ys) }
{}

/// A law: a cut that doesn't concern a chunk changes nothing in it.
pub fn cut_elsewhere_changes_nothing()
    ensures { (d : Dimensions) (site : Site) (sources : List ℕ) (from to : ℕ) (edges : List Edge)
        → AllByRecursion (IsPlaced d site sources) edges
        → concerns d site sources (Change.Cut from to) ≡ false
        → edges_after_one (Change.Cut from to) edges ≡ edges }
{}

/// A law: what concerns a chunk does to it what all changes do, but for the edges that are added elsewhere.
pub fn unconcerning_changes_left_out()
    ensures { (d : Dimensions) (site : Site) (sources : List ℕ) (changes : List AnyChange) (edges : List Edge)
        → AllByRecursion (IsPlaced d site sources) edges
        → edges_after (concerning_changes d site sources changes) edges
        ≡ edges_after (filter (is_cut_or_added_here d site) changes) edges }
{}

/// A law: the same holds where cuts in other blocks are left out too.
pub fn changes_in_other_blocks_left_out()
    ensures { (d : Dimensions) (site : Site) (sources : List ℕ) (changes : List AnyChange) (edges : List Edge)
        → AllByRecursion (IsPlaced d site sources) edges
        → edges_after (concerning_changes d site sources changes) edges
        ≡ edges_after (filter (may_concern d site) changes) edges }
{}

/// A law: a chunk's edges stay in its block, with their sources listed.
pub fn edges_in_place_after_changes()
    ensures { (d : Dimensions) (site : Site) (sources : List ℕ) (changes : List AnyChange) (edges : List Edge)
        → AllByRecursion (IsPlaced d site sources) edges
        → AllByRecursion (IsPlaced d site (sources_after (concerning_changes d site sources changes) sources))
        (edges_after (concerning_changes d site sources changes) edges) }
{}

/// A law: where each block has one last chunk, an added edge concerns exactly one chunk.
pub fn add_concerns_one_chunk()
    ensures { (d : Dimensions) (site : ℕ → Site) (sources : ℕ → List ℕ) (chunks : List ℕ) (e : Edge)
        → count_by (λ c. takes_adds_of (block_of d e) (site c)) chunks ≡ 1
        → count_by (λ c. concerns d (site c) (sources c) (Change.Add e)) chunks ≡ 1 }
{}

/// A law: the chunks' edges after the changes that concern them, joined, are the edges of all chunks after all changes.
pub fn changes_joined_over_chunks()
    ensures { (d : Dimensions) (blocks : ℕ) (site : ℕ → Site) (sources : ℕ → List ℕ) (base : ℕ → List Edge)
        (chunks : List ℕ) (changes : List AnyChange)
        → ((c : ℕ) → AllByRecursion (IsPlaced d (site c) (sources c)) (base c))
        → HasOneLastEach blocks site chunks
        → AllByRecursion (AddsWithin d blocks) changes
        → let content = λ (c : ℕ). edges_after (concerning_changes d (site c) (sources c) changes) (base c) in
        IsSameGraph (flat_map content chunks) (edges_after changes (flat_map base chunks)) }
{}
