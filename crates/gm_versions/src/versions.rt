//! Versions of a grid.

ghost use Rattle.std.specs.Vec.{vec_len};
ghost use Rattle.std.specs.Prelude.{take, ◌≡◌, ◌+◌, ◌<◌, ◌≤◌, [], ◌∷◌, ◌++◌, length, All, IfOk, OnOk, OnErr};
ghost use Rattle.std.specs.List.{filter};
ghost use Rattle.gm_base.specs.declared.limits.TheConstants.{MAX_CHANGES};
ghost use Rattle.gm_changes.specs.Changes.{ChangesWithin, edges_after};
ghost use Rattle.gm_changes.specs.Concerns.{lists, concerns, may_concern};
ghost use Rattle.gm_label.specs.Catalogues.{Catalogue as Known};
ghost use Rattle.gm_label.specs.Overlays.{AreOverlays};
ghost use Rattle.gm_versions.specs.Contents.{concerns_next, possible_changes_at, sources_at_after, changes_up_to, changes_near};
ghost use Rattle.gm_versions.specs.Snapshots.{version_of, key_of, overlays_of};
ghost use Rattle.gm_versions.specs.Keys.{IsVersionKey, update_of};
ghost use Rattle.gm_versions.specs.Kept.{IsOf, AreSame, AreUpTo, IsKeptBefore, AreNotedFor, IsCopy};

use crate::batches::Batches;
use crate::histories::{Histories, last_of};
use gm_base::{ChunkCopy, Edges, Key, Memory, Tag};
use gm_changes::{Change, Changes, apply, gather};
use gm_label::{Catalogue, Overlays, Raw};
use std::alloc::Global;

/// The updates of a grid, each a list of changes, and for each chunk that some of them concern which they are and which sources
/// they added there. Nothing is kept of chunks that no update concerns.
#[derive(Drop)]
pub struct Versions {
    alloc: Global,
    batches: Batches,
    histories: Histories,
}

/// Notes for each chunk which changes of the next update concern it, and then adds the update.
fn add_batch(
    batches: &mut Batches,
    histories: &mut Histories,
    cat: &Catalogue,
    batch: Changes,
) -> Result<(), Memory>
    requires few { length batches.old < MAX_CHANGES }
    requires up_to { AreUpTo (length batches.old + 1) histories.old }
    requires ends { All (ChangesWithin cat.now.dimensions.n) batch }
    ensures noted { let number = length batches.old + 1 in
        OnOk result (AreNotedFor cat.now number batch histories.old histories.new) }
    ensures kept { IsKeptBefore (length batches.old + 1) histories.old histories.new }
    ensures ok { OnOk result (batches.new ≡ batches.old ++ batch ∷ []) }
    ensures err { OnErr result (batches.new ≡ batches.old) }
{
    let number = batches.len() + 1;
    histories.note_all(cat, number, batch.as_slice())?;
    batches.push(batch)
}

/// The number of a tag's update.
fn update_of(tag: Tag) -> u32
    ensures { result ≡ update_of tag }
{
    match tag {
        Tag::Update(update) => update,
        Tag::Own(_) => 0,
    }
}

impl Versions {
    /// No updates yet.
    pub fn new(alloc: Global) -> Versions
        ensures batches { result.batches ≡ [] }
        ensures catalogue { (cat : Known) → IsOf cat result }
    {
        Versions {
            alloc,
            batches: Batches::new(alloc),
            histories: Histories::new(alloc),
        }
    }

    /// How many updates there are.
    pub fn count(&self) -> u32
        ensures value { result ≡ length self.now.batches }
        ensures few { result ≤ MAX_CHANGES }
    {
        self.batches.len()
    }

    /// Adds the next update. A refusal leaves all as it was.
    pub fn update(&mut self, cat: &Catalogue, batch: &[Change]) -> Result<(), Memory>
        requires catalogue { IsOf cat.now self.old }
        requires few { length self.old.batches < MAX_CHANGES }
        requires ends { All (ChangesWithin cat.now.dimensions.n) batch.now }
        ensures ok { OnOk result (self.new.batches ≡ self.old.batches ++ batch.now ∷ []) }
        ensures err { OnErr result (AreSame self.old self.new) }
        ensures catalogue { IsOf cat.now self.new }
    {
        let batch = Vec::from_slice(self.alloc, batch)?;
        self.take_update(cat, Changes::from_vec(batch))
    }

    /// The same, of changes that are handed over: they aren't copied.
    #[tactic(auto, using(crate::proofs::Answering::updates_kept))]
    pub fn take_update(&mut self, cat: &Catalogue, batch: Changes) -> Result<(), Memory>
        requires catalogue { IsOf cat.now self.old }
        requires few { length self.old.batches < MAX_CHANGES }
        requires ends { All (ChangesWithin cat.now.dimensions.n) batch }
        ensures ok { OnOk result (self.new.batches ≡ self.old.batches ++ batch ∷ []) }
        ensures err { OnErr result (AreSame self.old self.new) }
        ensures catalogue { IsOf cat.now self.new }
    {
        let version = self.batches.len();
        match add_batch(&mut self.batches, &mut self.histories, cat, batch) {
            Ok(()) => {
                self.histories.commit();
                Ok(())
            }
            Err(refusal) => {
                self.histories.roll_back(version);
                Err(refusal)
            }
        }
    }

    /// A chunk's key in a version: the last update up to the version that concerns the chunk.
    pub fn key(&self, cat: &Catalogue, version: u32, chunk: u32) -> Key
        requires catalogue { IsOf cat.now self.now }
        requires version { version ≤ length self.now.batches }
        requires chunk { chunk < length cat.now.places }
        ensures value { result ≡ key_of cat.now (version_of self.now.batches version) chunk }
        ensures names { IsVersionKey (length self.now.batches) chunk result }
    {
        let tag = Tag::Update(last_of(self.histories.updates_up_to(version, chunk)));
        Key { chunk, tag }
    }

    /// Whether a source stands in a chunk's label, or was added to the chunk by an update up to a version.
    #[tactic(auto, using(crate::proofs::Answering::updates_kept))]
    pub fn has_source(&self, cat: &Catalogue, version: u32, chunk: u32, source: u32) -> bool
        requires catalogue { IsOf cat.now self.now }
        requires version { version ≤ length self.now.batches }
        requires chunk { chunk < length cat.now.places }
        ensures { let before = changes_up_to self.now.batches version in
            result ≡ lists (sources_at_after cat.now chunk before) source }
    {
        self.histories.has_source(cat, version, chunk, source)
    }

    /// Whether a change that comes next after the updates up to a version concerns a chunk.
    #[tactic(auto, using(crate::proofs::Answering::updates_kept))]
    pub fn concerns(&self, cat: &Catalogue, version: u32, chunk: u32, change: Change) -> bool
        requires catalogue { IsOf cat.now self.now }
        requires version { version ≤ length self.now.batches }
        requires chunk { chunk < length cat.now.places }
        requires ends { ChangesWithin cat.now.dimensions.n change }
        ensures { result ≡ concerns_next cat.now chunk (changes_up_to self.now.batches version) change }
    {
        self.histories.concerns(cat, version, chunk, change)
    }

    /// Adds the changes of the updates that concern a chunk. After `Memory` some of them may be in the list.
    fn gather_updates(
        &self,
        cat: &Catalogue,
        version: u32,
        chunk: u32,
        into: &mut Vec<Change>,
    ) -> Result<(), Memory>
        requires catalogue { IsOf cat.now self.now }
        requires version { version ≤ length self.now.batches }
        requires chunk { chunk < length cat.now.places }
        ensures added { let near = changes_near cat.now self.now.batches chunk version in
            OnOk result (into.new.items ≡ into.old.items ++ possible_changes_at cat.now chunk near) }
        ensures front { take (vec_len into.old) into.new.items ≡ into.old.items }
    {
        let block = cat.chunk(chunk).block;
        let last = cat.is_last(chunk);
        for update in self.histories.updates_up_to(version, chunk) {
            gather(self.batches.get(*update), cat.shape(), block, last, into)?;
        }
        Ok(())
    }

    /// Adds to the list the changes of those updates up to a version that concern a chunk, as far as they may concern it whatever
    /// its sources are. To apply these to the chunk's edges is to apply those that concern it. Updates that don't concern the chunk
    /// aren't looked at. A refusal leaves the list as it was.
    pub fn gather(
        &self,
        cat: &Catalogue,
        version: u32,
        chunk: u32,
        into: &mut Vec<Change>,
    ) -> Result<(), Memory>
        requires catalogue { IsOf cat.now self.now }
        requires version { version ≤ length self.now.batches }
        requires chunk { chunk < length cat.now.places }
        ensures ok { let near = changes_near cat.now self.now.batches chunk version in
            OnOk result (into.new.items ≡ into.old.items ++ possible_changes_at cat.now chunk near) }
        ensures err { OnErr result (into.new.items ≡ into.old.items) }
    {
        let before = into.len();
        match self.gather_updates(cat, version, chunk, into) {
            Ok(()) => Ok(()),
            Err(refusal) => {
                into.truncate(before);
                Err(refusal)
            }
        }
    }

    /// The copy of a chunk for all jobs of a key that isn't a job's own. It takes over the chunk's edges as they were read from the
    /// grid; where no update concerns the chunk they are passed on untouched.
    pub fn into_copy(
        &self,
        alloc: Global,
        cat: &Catalogue,
        raw: Raw,
        key: Key,
    ) -> Result<ChunkCopy, Memory>
        requires catalogue { IsOf cat.now self.now }
        requires chunk { raw.chunk < length cat.now.places }
        requires key { IsVersionKey (length self.now.batches) raw.chunk key }
        ensures { IfOk result (IsCopy cat.now self.now raw.chunk raw.edges key) }
    {
        let Raw { chunk, mut edges } = raw;
        let mut near = Vec::new(alloc);
        self.gather(cat, update_of(key.tag), chunk, &mut near)?;
        apply(alloc, near.as_slice(), &mut edges)?;
        Ok(ChunkCopy { key, edges })
    }

    /// The same, of edges that are used further: they are copied first.
    pub fn copy(
        &self,
        alloc: Global,
        cat: &Catalogue,
        raw: &Raw,
        key: &Key,
    ) -> Result<ChunkCopy, Memory>
        requires catalogue { IsOf cat.now self.now }
        requires chunk { raw.now.chunk < length cat.now.places }
        requires key { IsVersionKey (length self.now.batches) raw.now.chunk key.now }
        ensures { IfOk result (IsCopy cat.now self.now raw.now.chunk raw.now.edges key.now) }
    {
        let edges = Vec::from_slice(alloc, raw.edges.as_slice())?;
        let copied = Raw {
            chunk: raw.chunk,
            edges: Edges::from_vec(edges),
        };
        self.into_copy(alloc, cat, copied, *key)
    }

    /// What a version sees of each chunk that an update up to the version concerns, ascending: the chunk's key and the sources that
    /// were added to its label. Other chunks aren't looked at.
    pub fn overlays(&self, alloc: Global, cat: &Catalogue, version: u32) -> Result<Overlays, Memory>
        requires catalogue { IsOf cat.now self.now }
        requires version { version ≤ length self.now.batches }
        ensures value { let s = version_of self.now.batches version in
            IfOk result (λ overlays. overlays ≡ overlays_of cat.now s) }
        ensures fit { IfOk result (AreOverlays cat.now) }
    {
        self.histories.overlays(alloc, version)
    }
}
