//! Changes, applied to a list of edges.

ghost use Rattle.std.specs.Prelude.{◌≡◌, ◌+◌, ◌≤◌, ◌∷◌, ◌++◌, List, drop, if◌then◌else◌, count_by, OnOk, OnErr};
ghost use Rattle.std.specs.Vec.{vec_len, vec_capacity};
ghost use Rattle.gm_changes.specs.declared.change.Change.{Change as AnyChange};
ghost use Rattle.gm_changes.specs.Changes.{edges_after};
ghost use Rattle.gm_changes.specs.Kept.{uncut_edges, kept_adds, is_add};
ghost use Rattle.gm_changes.specs.LastCuts.{AreLastCuts};

use crate::Change;
use crate::last_cuts::LastCuts;
use gm_base::{Edge, Edges, Memory};
use std::alloc::Global;
use std::mem;

/// How many of the changes add an edge.
fn count_adds(changes: &[Change]) -> usize
    ensures { result ≡ count_by is_add changes.now }
{
    let mut count = 0;
    for change in changes {
        if let Change::Add(_) = change {
            count += 1;
        }
    }
    count
}

/// Drops the edges that are cut. Where none is, the edges aren't looked at.
fn drop_cut(cuts: &LastCuts, edges: &mut Vec<Edge>)
    ensures items { (changes : List AnyChange) → AreLastCuts changes cuts.now
        → edges.new.items ≡ uncut_edges changes edges.old.items }
    ensures less { vec_len edges.new ≤ vec_len edges.old }
    ensures room { vec_capacity edges.new ≡ vec_capacity edges.old }
{
    if !cuts.is_empty() {
        edges.retain(|e| !cuts.cut_from(0, e));
    }
}

/// Adds the edge of the change at a place, unless there is none or a later change cuts it.
fn push_uncut(place: usize, change: &Change, cuts: &LastCuts, edges: &mut Vec<Edge>)
    requires { vec_len edges.old + (if is_add change.now then 1 else 0) ≤ vec_capacity edges.old }
    ensures items { (changes : List AnyChange) (rest : List AnyChange) → AreLastCuts changes cuts.now
        → drop place changes ≡ change.now ∷ rest
        → edges.new.items ++ kept_adds rest ≡ edges.old.items ++ kept_adds (change.now ∷ rest) }
    ensures more { vec_len edges.new ≤ vec_len edges.old + (if is_add change.now then 1 else 0) }
    ensures room { vec_capacity edges.old ≤ vec_capacity edges.new }
{
    if let Change::Add(e) = *change
        && !cuts.cut_from(place, &e)
    {
        let _pushed = edges.push(e);
    }
}

/// Adds the edges that no later change cuts, each in its order.
fn push_kept(changes: &[Change], cuts: &LastCuts, edges: &mut Vec<Edge>)
    requires cuts { AreLastCuts changes.now cuts.now }
    requires room { vec_len edges.old + count_by is_add changes.now ≤ vec_capacity edges.old }
    ensures { edges.new.items ≡ edges.old.items ++ kept_adds changes.now }
{
    for (place, change) in changes.iter().enumerate() {
        push_uncut(place, change, cuts, edges);
    }
}

/// Makes the changes, whose last cuts these are, in one walk over the edges.
fn apply_cuts(changes: &[Change], cuts: &LastCuts, edges: &mut Vec<Edge>) -> Result<(), Memory>
    requires { AreLastCuts changes.now cuts.now }
    ensures ok { OnOk result (edges.new.items ≡ edges_after changes.now edges.old.items) }
    ensures err { OnErr result (edges.new.items ≡ edges.old.items) }
{
    edges.reserve_exact(count_adds(changes))?;
    drop_cut(cuts, edges);
    push_kept(changes, cuts, edges);
    Ok(())
}

/// Applies the changes in order: an added edge goes to the end, and a cut takes every edge with these two ends away, where there
/// are any. After `Memory` the edges are as before: the room is taken first. However many cuts there are, the edges are gone through
/// once, and without cuts not at all.
pub fn apply(alloc: Global, changes: &[Change], edges: &mut Edges) -> Result<(), Memory>
    ensures ok { OnOk result (edges.new ≡ edges_after changes.now edges.old) }
    ensures err { OnErr result (edges.new ≡ edges.old) }
{
    let cuts = LastCuts::of(alloc, changes)?;
    let mut list = mem::replace(edges, Edges::new(alloc)).into_vec();
    let applied = apply_cuts(changes, &cuts, &mut list);
    *edges = Edges::from_vec(list);
    applied
}
