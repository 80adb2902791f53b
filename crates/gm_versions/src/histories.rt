//! The histories of the chunks that some change concerns.

ghost use Rattle.std.specs.Prelude.{◌≡◌, ℕ, ◌<◌, ◌≤◌, ◌==◌, if◌then◌else◌, ◌++◌, length, map, option_to_list, All, IfOk, OnOk};
ghost use Rattle.std.specs.Ordering.{nat_cmp};
ghost use Rattle.std.specs.BTreeMap.{IsOrdered};
ghost use Rattle.gm_label.specs.Catalogues.{sources_at};
ghost use Rattle.gm_changes.specs.Concerns.{lists, concerns};
ghost use Rattle.gm_changes.specs.Changes.{ChangesWithin};
ghost use Rattle.gm_versions.specs.Contents.{site_at};
ghost use Rattle.gm_versions.specs.Histories.{no_history, last_of, updates_up_to, history_up_to, sources_in, with_touch, with_change};
ghost use Rattle.gm_versions.specs.Histories.{overlay_in, overlays_in};
ghost use Rattle.gm_versions.specs.Kept.{history_in, AreUpTo, IsLogged, IsLoggedAt, IsKeptBefore, IsNotedFor, AreNotedFor};

use crate::history::{AddedSource, History};
use crate::reached::{added_source, reach};
use gm_base::{Edge, Key, Memory, Sources, Tag};
use gm_changes::Change;
use gm_label::{Catalogue, Overlay, Overlays};
use std::alloc::Global;
use std::collections::BTreeMap;

/// The history of each chunk that some change concerns, and the chunks that an update concerns which isn't kept yet.
#[derive(Drop)]
pub(crate) struct Histories {
    alloc: Global,
    by_chunk: BTreeMap<u32, History>,
    undo_log: Vec<u32>,
}

/// The sources alone.
fn sources_of(alloc: Global, added: &[AddedSource]) -> Result<Sources, Memory>
    ensures { IfOk result (λ sources. sources ≡ map (λ a. a.source) added.now) }
{
    let mut sources = Sources::new(alloc);
    for a in added {
        sources.push(a.source)?;
    }
    Ok(sources)
}

/// Adds what a version sees of a chunk, if an update up to the version concerns it.
fn push_overlay(
    overlays: &mut Overlays,
    alloc: Global,
    version: u32,
    chunk: u32,
    history: &History,
) -> Result<(), Memory>
    ensures { OnOk result (overlays.new ≡ overlays.old ++ overlay_in version chunk history.now) }
{
    let last = last_of(history.updates_up_to(version));
    if last != 0 {
        let tag = Tag::Update(last);
        let added = sources_of(alloc, history.added_up_to(version))?;
        let key = Key { chunk, tag };
        overlays.push(Overlay { key, added })?;
    }
    Ok(())
}

/// The last of the updates, and 0 where there is none.
pub(crate) fn last_of(updates: &[u32]) -> u32
    ensures { result ≡ last_of updates.now }
{
    updates.last().copied().unwrap_or(0)
}

impl Histories {
    /// No chunk is changed.
    pub(crate) fn new(alloc: Global) -> Histories
        ensures { (q : ℕ) → history_in result q ≡ no_history }
    {
        Histories {
            alloc,
            by_chunk: BTreeMap::new(alloc),
            undo_log: Vec::new(alloc),
        }
    }

    /// The updates up to a version that concern a chunk, ascending.
    pub(crate) fn updates_up_to(&self, version: u32, chunk: u32) -> &[u32]
        ensures { result.now ≡ updates_up_to version (history_in self.now chunk).updates }
    {
        match self.by_chunk.get(&chunk) {
            Some(history) => history.updates_up_to(version),
            None => &[],
        }
    }

    /// Whether an update up to a version added a source to a chunk.
    fn has_added(&self, version: u32, chunk: u32, source: u32) -> bool
        ensures { result ≡ lists (sources_in (history_up_to version (history_in self.now chunk))) source }
    {
        match self.by_chunk.get(&chunk) {
            Some(history) => history.has_added(version, source),
            None => false,
        }
    }

    /// Whether a source stands in a chunk's label, or was added to the chunk by an update up to a version.
    pub(crate) fn has_source(&self, cat: &Catalogue, version: u32, chunk: u32, source: u32) -> bool
        requires { chunk < length cat.now.places }
        ensures { let h = history_up_to version (history_in self.now chunk) in
            result ≡ lists (sources_at cat.now chunk ++ sources_in h) source }
    {
        cat.lists(chunk, source) || self.has_added(version, chunk, source)
    }

    /// Whether a change that comes next after the updates up to a version concerns a chunk.
    pub(crate) fn concerns(&self, cat: &Catalogue, version: u32, chunk: u32, change: Change) -> bool
        requires chunk { chunk < length cat.now.places }
        requires ends { ChangesWithin cat.now.dimensions.n change }
        ensures { let h = history_up_to version (history_in self.now chunk) in
            result ≡ concerns cat.now.dimensions (site_at cat.now chunk) (sources_at cat.now chunk ++ sources_in h) change }
    {
        let here = cat.chunk(chunk).block;
        match change {
            Change::Add(edge) => cat.is_last(chunk) && cat.shape().block_of(&edge) == here,
            Change::Cut { from, to } => {
                let weight = 0;
                cat.shape().block_of(&Edge { from, to, weight }) == here
                    && self.has_source(cat, version, chunk, from)
            }
        }
    }

    /// The last update that concerns a chunk, and 0 where none does.
    fn last(&self, chunk: u32) -> u32
        ensures { result ≡ last_of (history_in self.now chunk).updates }
    {
        match self.by_chunk.get(&chunk) {
            Some(history) => history.last(),
            None => 0,
        }
    }

    /// Notes a change of an update for a chunk, and which source it adds there. It doesn't log the chunk.
    fn put(&mut self, chunk: u32, number: u32, added: Option<u32>) -> Result<(), Memory>
        requires { AreUpTo number self.old }
        ensures ok { OnOk result ((q : ℕ) → history_in self.new q
            ≡ (if q == chunk then with_touch number (option_to_list added) (history_in self.old q) else history_in self.old q)) }
        ensures before { (q version : ℕ) → version < number
            → history_up_to version (history_in self.new q) ≡ history_up_to version (history_in self.old q) }
        ensures up_to { AreUpTo number self.new }
        ensures others { (q : ℕ) → (q ≡ chunk → ⊥) → history_in self.new q ≡ history_in self.old q }
        ensures undo_log { self.new.undo_log.items ≡ self.old.undo_log.items }
    {
        match self.by_chunk.get_mut(&chunk) {
            Some(history) => history.note(number, added),
            None => {
                let mut history = History::new(self.alloc);
                history.note(number, added)?;
                self.by_chunk.insert(chunk, history)?;
                Ok(())
            }
        }
    }

    /// Logs that an update concerns a chunk, unless it is logged already.
    fn log(&mut self, chunk: u32, number: u32) -> Result<(), Memory>
        ensures at { (q : ℕ) → history_in self.new q ≡ history_in self.old q }
        ensures logged { (version : ℕ) → IsLogged version self.old → IsLogged version self.new }
        ensures here { OnOk result (IsLoggedAt number chunk self.new) }
    {
        if self.last(chunk) < number {
            self.undo_log.push(chunk)?;
        }
        Ok(())
    }

    /// Notes a change of an update for a chunk, and which source it adds there.
    fn note(&mut self, chunk: u32, number: u32, added: Option<u32>) -> Result<(), Memory>
        requires { AreUpTo number self.old }
        ensures ok { OnOk result ((q : ℕ) → history_in self.new q
            ≡ (if q == chunk then with_touch number (option_to_list added) (history_in self.old q) else history_in self.old q)) }
        ensures kept { IsKeptBefore number self.old self.new }
    {
        self.log(chunk, number)?;
        self.put(chunk, number, added)
    }

    /// Notes a change of an update for a chunk, if it concerns the chunk.
    fn note_at(
        &mut self,
        cat: &Catalogue,
        number: u32,
        chunk: u32,
        change: Change,
    ) -> Result<(), Memory>
        requires up_to { AreUpTo number self.old }
        requires chunk { chunk < length cat.now.places }
        requires ends { ChangesWithin cat.now.dimensions.n change }
        ensures ok { OnOk result ((q : ℕ) → history_in self.new q
            ≡ (if q == chunk then with_change cat.now q number (history_in self.old q) change else history_in self.old q)) }
        ensures kept { IsKeptBefore number self.old self.new }
    {
        if self.concerns(cat, number, chunk, change) {
            self.note(chunk, number, added_source(change))?;
        }
        Ok(())
    }

    /// Notes a change of an update for each chunk that it concerns.
    fn note_change(&mut self, cat: &Catalogue, number: u32, change: Change) -> Result<(), Memory>
        requires up_to { AreUpTo number self.old }
        requires ends { ChangesWithin cat.now.dimensions.n change }
        ensures ok { OnOk result (IsNotedFor cat.now number change self.old self.new) }
        ensures kept { IsKeptBefore number self.old self.new }
    {
        let reached = reach(cat, change);
        for chunk in reached.start..reached.end {
            self.note_at(cat, number, chunk, change)?;
        }
        Ok(())
    }

    /// Notes the changes of an update, one after the other.
    pub(crate) fn note_all(
        &mut self,
        cat: &Catalogue,
        number: u32,
        batch: &[Change],
    ) -> Result<(), Memory>
        requires up_to { AreUpTo number self.old }
        requires ends { All (ChangesWithin cat.now.dimensions.n) batch.now }
        ensures ok { OnOk result (AreNotedFor cat.now number batch.now self.old self.new) }
        ensures kept { IsKeptBefore number self.old self.new }
    {
        for change in batch {
            self.note_change(cat, number, *change)?;
        }
        Ok(())
    }

    /// Takes back what later updates than this version brought to a chunk.
    fn roll_back_at(&mut self, version: u32, chunk: u32)
        ensures at { (q : ℕ) → history_in self.new q
            ≡ (if q == chunk then history_up_to version (history_in self.old q) else history_in self.old q) }
        ensures undo_log { self.new.undo_log.items ≡ self.old.undo_log.items }
    {
        if let Some(history) = self.by_chunk.get_mut(&chunk) {
            history.roll_back(version);
        }
    }

    /// Takes back what later updates than this version brought.
    pub(crate) fn roll_back(&mut self, version: u32)
        ensures { IsLogged version self.old
            → (q : ℕ) → history_in self.new q ≡ history_up_to version (history_in self.old q) }
    {
        while let Some(chunk) = self.undo_log.pop() {
            self.roll_back_at(version, chunk);
        }
    }

    /// Keeps what was noted.
    pub(crate) fn commit(&mut self)
        ensures { (q : ℕ) → history_in self.new q ≡ history_in self.old q }
    {
        self.undo_log.clear();
    }

    /// What a version sees of each chunk that an update up to the version concerns, by their numbers.
    pub(crate) fn overlays(&self, alloc: Global, version: u32) -> Result<Overlays, Memory>
        ensures value { IfOk result (λ overlays. overlays ≡ overlays_in version self.now.by_chunk.entries) }
        ensures ordered { IsOrdered nat_cmp self.now.by_chunk }
    {
        let mut overlays = Overlays::new(alloc);
        for (chunk, history) in &self.by_chunk {
            push_overlay(&mut overlays, alloc, version, *chunk, history)?;
        }
        Ok(overlays)
    }
}
