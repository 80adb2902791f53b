//! What a job sees of the chunks that changes concern, while it is made.

ghost use Rattle.std.specs.Prelude.{◌≡◌, ℕ, ◌==◌, ◌<◌, ◌≤◌, if◌then◌else◌, [], ◌∷◌, length, option_to_list, All, None, Some, IfOk, OnOk};
ghost use Rattle.std.specs.Ordering.{nat_cmp};
ghost use Rattle.std.specs.BTreeMap.{IsOrdered};
ghost use Rattle.gm_changes.specs.Changes.{ChangesWithin};
ghost use Rattle.gm_label.specs.Overlays.{AscendByChunk};
ghost use Rattle.gm_versions.specs.WalksRules.{told_in};
ghost use Rattle.gm_private.specs.OwnChanges.{IsOwnOver};
ghost use Rattle.gm_private.specs.SeenChunks.{seen_at, seen_among, overlay_with, with_own, after_own, AreNoted};

use crate::own::Own;
use gm_base::{Key, Memory, Sources, Tag};
use gm_changes::Change;
use gm_label::{Catalogue, Overlay, Overlays};
use gm_versions::{Versions, added_source, reach};
use std::alloc::Global;
use std::collections::BTreeMap;

/// The tag of a job's key of a chunk, and the sources that were added to the chunk's label.
#[derive(Drop)]
pub(crate) struct SeenChunk {
    pub tag: Tag,
    pub added: Sources,
}

/// What a job sees of each chunk that some change concerns, by the chunk's number.
#[derive(Drop)]
pub(crate) struct SeenChunks {
    alloc: Global,
    chunks: BTreeMap<u32, SeenChunk>,
}

/// The job's tag takes the place of the chunk's, and a source that is added goes behind the others.
fn make_own(seen: &mut SeenChunk, job: u32, added: Option<u32>) -> Result<(), Memory>
    ensures { OnOk result (seen.new ≡ with_own job (option_to_list added) (Some seen.old)) }
{
    seen.tag = Tag::Own(job);
    if let Some(source) = added {
        seen.added.push(source)?;
    }
    Ok(())
}

/// What a job sees of a chunk that its own changes alone concern.
fn first_own(alloc: Global, job: u32, added: Option<u32>) -> Result<SeenChunk, Memory>
    ensures { IfOk result (λ seen. seen ≡ with_own job (option_to_list added) None) }
{
    let mut seen = SeenChunk {
        tag: Tag::Own(job),
        added: Sources::new(alloc),
    };
    make_own(&mut seen, job, added)?;
    Ok(seen)
}

impl SeenChunks {
    /// What overlays tell.
    pub(crate) fn of(alloc: Global, overlays: Overlays) -> Result<SeenChunks, Memory>
        requires { AscendByChunk 0 overlays }
        ensures { IfOk result (λ seen. (c : ℕ) → seen_at seen c ≡ seen_among overlays c) }
    {
        let mut chunks = BTreeMap::new(alloc);
        for overlay in overlays.into_vec() {
            let Overlay { key, added } = overlay;
            chunks.insert(
                key.chunk,
                SeenChunk {
                    tag: key.tag,
                    added,
                },
            )?;
        }
        Ok(SeenChunks { alloc, chunks })
    }

    /// Notes that a change of a job's own concerns a chunk, and which source it adds there.
    fn put(&mut self, chunk: u32, job: u32, added: Option<u32>) -> Result<(), Memory>
        ensures { OnOk result ((c : ℕ) → seen_at self.new c
            ≡ (if c == chunk then Some (with_own job (option_to_list added) (seen_at self.old c)) else seen_at self.old c)) }
    {
        match self.chunks.get_mut(&chunk) {
            Some(seen) => make_own(seen, job, added),
            None => {
                let seen = first_own(self.alloc, job, added)?;
                self.chunks.insert(chunk, seen)?;
                Ok(())
            }
        }
    }

    /// Notes a change of a job's own for a chunk, if it concerns the chunk.
    fn note_at(
        &mut self,
        cat: &Catalogue,
        versions: &Versions,
        own: &Own,
        chunk: u32,
        change: Change,
    ) -> Result<(), Memory>
        requires over { IsOwnOver cat.now versions.now own.now }
        requires chunk { chunk < length cat.now.places }
        requires ends { ChangesWithin cat.now.dimensions.n change }
        ensures { let updates = versions.now.batches in
            OnOk result ((c : ℕ) → seen_at self.new c
            ≡ (if c == chunk then after_own cat.now updates own.now c (seen_at self.old c) change else seen_at self.old c)) }
    {
        if versions.concerns(cat, own.version(), chunk, change) {
            self.put(chunk, own.job(), added_source(change))?;
        }
        Ok(())
    }

    /// Notes a change of a job's own for each chunk that it concerns.
    fn note(
        &mut self,
        cat: &Catalogue,
        versions: &Versions,
        own: &Own,
        change: Change,
    ) -> Result<(), Memory>
        requires over { IsOwnOver cat.now versions.now own.now }
        requires ends { ChangesWithin cat.now.dimensions.n change }
        ensures { let updates = versions.now.batches in
            OnOk result (AreNoted cat.now updates own.now (change ∷ []) self.old self.new) }
    {
        let reached = reach(cat, change);
        for chunk in reached.start..reached.end {
            self.note_at(cat, versions, own, chunk, change)?;
        }
        Ok(())
    }

    /// Notes all changes of a job's own.
    pub(crate) fn note_all(
        &mut self,
        cat: &Catalogue,
        versions: &Versions,
        own: &Own,
        changes: &[Change],
    ) -> Result<(), Memory>
        requires over { IsOwnOver cat.now versions.now own.now }
        requires ends { All (ChangesWithin cat.now.dimensions.n) changes.now }
        ensures { OnOk result (AreNoted cat.now versions.now.batches own.now changes.now self.old self.new) }
    {
        for change in changes {
            self.note(cat, versions, own, *change)?;
        }
        Ok(())
    }

    /// The overlays of the chunks, ascending.
    pub(crate) fn into_overlays(self, alloc: Global) -> Result<Overlays, Memory>
        ensures value { let told = told_in (λ c seen. overlay_with c seen ∷ []) self.chunks.entries in
            IfOk result (λ overlays. overlays ≡ told) }
        ensures ordered { IsOrdered nat_cmp self.chunks }
    {
        let mut overlays = Overlays::new(alloc);
        for (chunk, seen) in self.chunks {
            let SeenChunk { tag, added } = seen;
            let key = Key { chunk, tag };
            overlays.push(Overlay { key, added })?;
        }
        Ok(overlays)
    }
}
