//! What is kept of a chunk that updates concern.

ghost use Rattle.std.specs.Prelude.{◌≡◌, ℕ, ◌<◌, ◌≤◌, ◌∷◌, [], ◌++◌, length, map, take, option_to_list, OnOk, OnErr};
ghost use Rattle.std.specs.List.Sorted.{IsNonDecreasingBy};
ghost use Rattle.std.specs.Ordering.{nat_cmp};
ghost use Rattle.std.specs.BTreeMap.{get};
ghost use Rattle.gm_changes.specs.Concerns.{lists};
ghost use Rattle.gm_versions.specs.Histories.{no_history, last_of, updates_up_to, added_up_to, history_up_to};
ghost use Rattle.gm_versions.specs.Histories.{sources_in, with_number, with_touch, IsUpTo, HasFirstPlaces};

use gm_base::Memory;
use std::alloc::Global;
use std::collections::BTreeMap;
use std::marker::Model;

/// The source of an edge that an update added to a chunk.
#[derive(Clone, Copy)]
pub(crate) struct AddedSource {
    pub update: u32,
    pub source: u32,
}

/// The updates that concern a chunk, ascending, and the sources of the edges that they added there, in order. A map tells where a
/// source was added first; such a place may be out of date, and is looked at before it is believed.
#[derive(Drop)]
pub(crate) struct History {
    updates: Vec<u32>,
    added: Vec<AddedSource>,
    first_places: BTreeMap<u32, usize>,
}

impl Model for History {
    ghost use Rattle.std.specs.Prelude.{◌≡◌, map};
    ghost use Rattle.std.specs.Ordering.{nat_cmp};
    ghost use Rattle.std.specs.BTreeMap.{get};
    ghost use Rattle.gm_versions.specs.Histories.{ChunkHistory, IsHistory};

    ghost Value = { ChunkHistory };

    ghost view = { λ a. record { updates = a.updates.items; added = a.added.items } };

    ghost invariant = { λ a. IsHistory a.updates.items a.added.items (get nat_cmp a.first_places) };
}

/// How many of the updates come no later than a version.
fn count_updates(updates: &[u32], version: u32) -> usize
    requires { IsNonDecreasingBy (λ update. update) updates.now }
    ensures value { take result updates.now ≡ updates_up_to version updates.now }
    ensures within { result ≤ length updates.now }
{
    updates.partition_point(|update| *update <= version)
}

/// How many of the sources were added no later.
fn count_added(added: &[AddedSource], version: u32) -> usize
    requires { IsNonDecreasingBy (λ a. a.update) added.now }
    ensures value { take result added.now ≡ added_up_to version added.now }
    ensures within { result ≤ length added.now }
{
    added.partition_point(|a| a.update <= version)
}

/// Whether a source was added.
fn is_added(first_places: &BTreeMap<u32, usize>, added: &[AddedSource], source: u32) -> bool
    requires { HasFirstPlaces (map (λ a. a.source) added.now) (get nat_cmp first_places.now) }
    ensures { result ≡ lists (map (λ a. a.source) added.now) source }
{
    match first_places.get(&source) {
        Some(&place) => place < added.len() && added[place].source == source,
        None => false,
    }
}

/// Keeps where a source will stand that is put behind the others, if it isn't among them.
fn keep_place(
    first_places: &mut BTreeMap<u32, usize>,
    added: &[AddedSource],
    source: u32,
) -> Result<(), Memory>
    requires { HasFirstPlaces (map (λ a. a.source) added.now) (get nat_cmp first_places.old) }
    ensures before { HasFirstPlaces (map (λ a. a.source) added.now) (get nat_cmp first_places.new) }
    ensures after { let more = map (λ a. a.source) added.now ++ source ∷ [] in
        OnOk result (HasFirstPlaces more (get nat_cmp first_places.new)) }
{
    if !is_added(first_places, added, source) {
        first_places.insert(source, added.len())?;
    }
    Ok(())
}

impl History {
    /// A chunk that no update concerns yet.
    pub(crate) fn new(alloc: Global) -> History
        ensures { result ≡ no_history }
    {
        History {
            updates: Vec::new(alloc),
            added: Vec::new(alloc),
            first_places: BTreeMap::new(alloc),
        }
    }

    /// The last update that concerns the chunk, and 0 where none does.
    pub(crate) fn last(&self) -> u32
        ensures { result ≡ last_of self.now.updates }
    {
        self.updates.last().copied().unwrap_or(0)
    }

    /// The updates up to a version that concern the chunk, ascending.
    pub(crate) fn updates_up_to(&self, version: u32) -> &[u32]
        ensures { result.now ≡ updates_up_to version self.now.updates }
    {
        let count = count_updates(self.updates.as_slice(), version);
        &self.updates[..count]
    }

    /// The sources that updates up to a version added to the chunk.
    pub(crate) fn added_up_to(&self, version: u32) -> &[AddedSource]
        ensures { result.now ≡ added_up_to version self.now.added }
    {
        let count = count_added(self.added.as_slice(), version);
        &self.added[..count]
    }

    /// Whether an update up to a version added a source to the chunk.
    pub(crate) fn has_added(&self, version: u32, source: u32) -> bool
        ensures { result ≡ lists (sources_in (history_up_to version self.now)) source }
    {
        let count = count_added(self.added.as_slice(), version);
        is_added(&self.first_places, &self.added[..count], source)
    }

    /// Notes that a change of an update concerns the chunk, and which source it adds. A refusal leaves what was there before the
    /// update.
    pub(crate) fn note(&mut self, number: u32, added: Option<u32>) -> Result<(), Memory>
        requires { IsUpTo number self.old }
        ensures ok { OnOk result (self.new ≡ with_touch number (option_to_list added) self.old) }
        ensures before { (version : ℕ) → version < number
            → history_up_to version self.new ≡ history_up_to version self.old }
        ensures up_to { IsUpTo number self.new }
    {
        self.note_update(number)?;
        match added {
            Some(source) => self.note_source(number, source),
            None => Ok(()),
        }
    }

    /// Keeps an update, unless it is kept already. A refusal leaves all as it was.
    fn note_update(&mut self, number: u32) -> Result<(), Memory>
        ensures ok { OnOk result (self.new ≡ with_touch number [] self.old) }
        ensures err { OnErr result (self.new ≡ self.old) }
    {
        if self.last() < number {
            self.updates.push(number)?;
        }
        Ok(())
    }

    /// Keeps a source that an update added. A refusal leaves all as it was.
    fn note_source(&mut self, update: u32, source: u32) -> Result<(), Memory>
        requires { IsUpTo update self.old }
        ensures ok { OnOk result (self.new ≡ record {
          updates = self.old.updates;
          added = self.old.added ++ record { update = update; source = source } ∷ [];
        }) }
        ensures err { OnErr result (self.new ≡ self.old) }
    {
        keep_place(&mut self.first_places, self.added.as_slice(), source)?;
        self.added.push(AddedSource { update, source })?;
        Ok(())
    }

    /// Takes back what later updates than this version brought.
    pub(crate) fn roll_back(&mut self, version: u32)
        ensures { self.new ≡ history_up_to version self.old }
    {
        let updates = count_updates(self.updates.as_slice(), version);
        self.updates.truncate(updates);
        let added = count_added(self.added.as_slice(), version);
        self.added.truncate(added);
    }
}
