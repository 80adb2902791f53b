//! A job's own changes.

ghost use Rattle.std.specs.Prelude.{◌≡◌, ◌<◌, ◌++◌, length, IfOk, OnOk};
ghost use Rattle.std.specs.List.{filter, list_any};
ghost use Rattle.gm_changes.specs.Changes.{edges_after};
ghost use Rattle.gm_changes.specs.Concerns.{concerns, may_concern};
ghost use Rattle.gm_label.specs.Overlays.{AreOverlays};
ghost use Rattle.gm_versions.specs.Contents.{concerns_next, possible_changes_at, changes_up_to, changes_near};
ghost use Rattle.gm_versions.specs.Snapshots.{key_of, overlays_of};
ghost use Rattle.gm_private.specs.OwnChanges.{snapshot_in, IsOwnOver, IsSnapshotCopy};

use crate::seen_chunks::SeenChunks;
use gm_base::{ChunkCopy, Edges, Key, Memory, Tag};
use gm_changes::{Changes, apply, gather};
use gm_label::{Catalogue, Overlays, Raw};
use gm_versions::Versions;
use std::alloc::Global;
use std::marker::Model;

/// A job's number, how many updates stand above its line, and the changes that it makes to its own view of the graph. Its calls are
/// given the updates, of which there may be more by then.
#[derive(Drop)]
pub struct Own {
    /// In file order, from 0.
    job: u32,
    version: u32,
    changes: Changes,
}

impl Own {
    /// The changes of a job below so many updates.
    pub fn new(job: u32, version: u32, changes: Changes) -> Own
        ensures { result ≡ record { job = job; version = version; changes = changes } }
    {
        Own {
            job,
            version,
            changes,
        }
    }

    /// Whether one of the changes concerns a chunk.
    fn concerns(&self, cat: &Catalogue, versions: &Versions, chunk: u32) -> bool
        requires over { IsOwnOver cat.now versions.now self.now }
        requires chunk { chunk < length cat.now.places }
        ensures { let before = changes_up_to versions.now.batches self.now.version in
            result ≡ list_any (concerns_next cat.now chunk before) self.now.changes }
    {
        for change in self.changes.as_slice() {
            if versions.concerns(cat, self.version, chunk, *change) {
                return true;
            }
        }
        false
    }

    /// The job's key of a chunk: its own, where a change of its own concerns the chunk, else the key of its version.
    pub fn key(&self, cat: &Catalogue, versions: &Versions, chunk: u32) -> Key
        requires over { IsOwnOver cat.now versions.now self.now }
        requires chunk { chunk < length cat.now.places }
        ensures { result ≡ key_of cat.now (snapshot_in versions.now.batches self.now) chunk }
    {
        if self.concerns(cat, versions, chunk) {
            let tag = Tag::Own(self.job);
            Key { chunk, tag }
        } else {
            versions.key(cat, self.version, chunk)
        }
    }

    /// The job's number, in file order.
    pub fn job(&self) -> u32
        ensures { result ≡ self.now.job }
    {
        self.job
    }

    /// What the job sees of each chunk that an update up to its version or a change of its own concerns, ascending: its key, and the
    /// sources that were added to the chunk's label. Without own changes these are the overlays of its version.
    pub fn overlays(
        &self,
        alloc: Global,
        cat: &Catalogue,
        versions: &Versions,
    ) -> Result<Overlays, Memory>
        requires over { IsOwnOver cat.now versions.now self.now }
        ensures value { let s = snapshot_in versions.now.batches self.now in
            IfOk result (λ overlays. overlays ≡ overlays_of cat.now s) }
        ensures fit { IfOk result (AreOverlays cat.now) }
    {
        let shared = versions.overlays(alloc, cat, self.version)?;
        if self.changes.is_empty() {
            return Ok(shared);
        }
        let mut seen = SeenChunks::of(alloc, shared)?;
        seen.note_all(cat, versions, self, self.changes.as_slice())?;
        seen.into_overlays(alloc)
    }

    /// Makes the changes of the version and then the job's own, those that concern a chunk, in one walk over its edges.
    fn change(
        &self,
        alloc: Global,
        cat: &Catalogue,
        versions: &Versions,
        chunk: u32,
        edges: &mut Edges,
    ) -> Result<(), Memory>
        requires over { IsOwnOver cat.now versions.now self.now }
        requires chunk { chunk < length cat.now.places }
        ensures { let near = changes_near cat.now versions.now.batches chunk self.now.version in
            let possible = possible_changes_at cat.now chunk (near ++ self.now.changes) in
            OnOk result (edges.new ≡ edges_after possible edges.old) }
    {
        let block = cat.chunk(chunk).block;
        let last = cat.is_last(chunk);
        let own = self.changes.as_slice();
        let mut near = Vec::new(alloc);
        versions.gather(cat, self.version, chunk, &mut near)?;
        gather(own, cat.shape(), block, last, &mut near)?;
        apply(alloc, near.as_slice(), edges)
    }

    /// The job's copy of a chunk, for its key of it. It takes over the chunk's edges as they were read from the grid.
    pub fn into_copy(
        &self,
        alloc: Global,
        cat: &Catalogue,
        versions: &Versions,
        raw: Raw,
        key: Key,
    ) -> Result<ChunkCopy, Memory>
        requires over { IsOwnOver cat.now versions.now self.now }
        requires chunk { raw.chunk < length cat.now.places }
        requires key { key ≡ key_of cat.now (snapshot_in versions.now.batches self.now) raw.chunk }
        ensures { let s = snapshot_in versions.now.batches self.now in
            IfOk result (IsSnapshotCopy cat.now s raw.chunk raw.edges key) }
    {
        match key.tag {
            Tag::Update(_) => versions.into_copy(alloc, cat, raw, key),
            Tag::Own(_) => {
                let Raw { chunk, mut edges } = raw;
                self.change(alloc, cat, versions, chunk, &mut edges)?;
                Ok(ChunkCopy { key, edges })
            }
        }
    }

    /// The same, of edges that are used further: they are copied first.
    pub fn copy(
        &self,
        alloc: Global,
        cat: &Catalogue,
        versions: &Versions,
        raw: &Raw,
        key: Key,
    ) -> Result<ChunkCopy, Memory>
        requires over { IsOwnOver cat.now versions.now self.now }
        requires chunk { raw.now.chunk < length cat.now.places }
        requires key { key ≡ key_of cat.now (snapshot_in versions.now.batches self.now) raw.now.chunk }
        ensures { let s = snapshot_in versions.now.batches self.now in
            IfOk result (IsSnapshotCopy cat.now s raw.now.chunk raw.now.edges key) }
    {
        let edges = Vec::from_slice(alloc, raw.edges.as_slice())?;
        let copied = Raw {
            chunk: raw.chunk,
            edges: Edges::from_vec(edges),
        };
        self.into_copy(alloc, cat, versions, copied, key)
    }

    /// How many updates the job sees.
    pub fn version(&self) -> u32
        ensures { result ≡ self.now.version }
    {
        self.version
    }
}

impl Model for Own {
    ghost use Rattle.gm_private.specs.OwnChanges.{OwnChanges};

    ghost Value = { OwnChanges };

    ghost view = { λ a. record { job = a.job; version = a.version; changes = a.changes } };
}
