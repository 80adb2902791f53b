//! Which edges a list of changes cuts, and where last.

ghost use Rattle.std.specs.Prelude.{◌≡◌, ◌<◌, ◌==◌, List, [], ◌∷◌, ◌++◌, length, drop, IfOk, OnOk};
ghost use Rattle.gm_changes.specs.declared.change.Change.{Change as AnyChange};
ghost use Rattle.std.specs.BTreeMap.{get, btree_map_len};
ghost use Rattle.gm_changes.specs.Kept.{is_cut};
ghost use Rattle.gm_changes.specs.LastCuts.{ends_cmp, is_from, mark_of, HasNoted, AreLastCuts};

use crate::Change;
use gm_base::{Edge, Memory};
use std::alloc::Global;
use std::collections::BTreeMap;

/// How many marks there are. With a few cuts hardly another edge has one of theirs.
const MARKS: usize = 1024;

/// For each pair of ends that is cut, the place of its last cut in the list of changes. Most edges aren't looked up: they have none
/// of the marks that the cuts set.
#[derive(Drop)]
pub struct LastCuts {
    places: BTreeMap<(u32, u32), usize>,
    marks: [bool; MARKS],
}

/// The mark of a pair of ends. Others may have the same.
fn mark_of(from: u32, to: u32) -> usize
    ensures value { result ≡ mark_of from to }
    ensures within { result < MARKS }
{
    (from as usize + to as usize) % MARKS
}

impl LastCuts {
    /// The last cuts of a list of changes. Without a cut it takes no memory.
    pub fn of(alloc: Global, changes: &[Change]) -> Result<LastCuts, Memory>
        ensures { IfOk result (λ cuts. AreLastCuts changes.now cuts) }
    {
        let mut cuts = LastCuts {
            places: BTreeMap::new(alloc),
            marks: [false; MARKS],
        };
        for (place, change) in changes.iter().enumerate() {
            cuts.add(place, change)?;
        }
        Ok(cuts)
    }

    /// Notes the change that comes next.
    fn add(&mut self, place: usize, change: &Change) -> Result<(), Memory>
        ensures { OnOk result ((changes : List AnyChange) → length changes ≡ place
            → HasNoted changes self.old → HasNoted (changes ++ change.now ∷ []) self.new) }
    {
        if let Change::Cut { from, to } = *change {
            self.marks[mark_of(from, to)] = true;
            self.places.insert((from, to), place)?;
        }
        Ok(())
    }

    /// Whether no edge is cut.
    pub fn is_empty(&self) -> bool
        ensures { result ≡ (btree_map_len self.now.places == 0) }
    {
        self.places.is_empty()
    }

    /// Whether the ends of the edge have their last cut at a place or later.
    fn is_placed_from(&self, place: usize, e: &Edge) -> bool
        ensures { result ≡ is_from place (get ends_cmp self.now.places (e.now.from, e.now.to)) }
    {
        match self.places.get(&(e.from, e.to)) {
            Some(&last) => place <= last,
            None => false,
        }
    }

    /// Whether the change at a place or a later one cuts the edge.
    pub fn cut_from(&self, place: usize, e: &Edge) -> bool
        ensures { (changes : List AnyChange) → AreLastCuts changes self.now
            → result ≡ is_cut (drop place changes) e.now }
    {
        self.marks[mark_of(e.from, e.to)] && self.is_placed_from(place, e)
    }
}
