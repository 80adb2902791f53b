//! Labelling the chunks of a grid that is opened.

ghost use Rattle.std.specs.Prelude.{◌≡◌, ◌+◌, ◌<◌, ◌≤◌, ℕ, [], length, All, IfErr, OnOk, OnErr, sum_by};
ghost use Rattle.gm_base.specs.declared.limits.TheConstants.{MAX_CHUNK_SIZE};
ghost use Rattle.gm_outside.specs.Frames.{OnlyReads};
ghost use Rattle.gm_label.specs.Catalogues.{place_at, label_at, with_label};
ghost use Rattle.gm_label.specs.Labels.{label_of};
ghost use Rattle.gm_source.specs.Fetches.{LiesInChunk};
ghost use Rattle.gm_source.specs.Openings.{OpensBy, ReadsJust, IsTold, HasLabelled, IsSameCut, IsSetAt, IsFreshFrom, IsPlanned, LabelsBy, LabelsJust, chunk_reads};
ghost use Rattle.gm_source.specs.OpeningReads.{HasStray, IsVerdict};

use crate::OpenError;
use crate::fetching::{Fetcher, count_sources, read_chunk};
use crate::reading::widen;
use gm_base::{Edge, Memory};
use gm_grid::GridError;
use gm_grid::laws::grid_by_parts;
use gm_label::{Catalogue, SourceCounts};
use gm_outside::Depot;

/// Gives a chunk the label of its edges.
#[tactic(auto, using(gm_label::specs::CataloguesRules::labelling))]
fn set_label_of(
    cat: &mut Catalogue,
    chunk: u32,
    edges: &[Edge],
    counts: &mut SourceCounts,
) -> Result<(), Memory>
    requires within { chunk < length cat.old.places }
    requires fresh { label_at cat.old chunk ≡ [] }
    requires count { length edges.now ≡ (place_at cat.old chunk).count }
    requires placed { All (LiesInChunk cat.old chunk) edges.now }
    ensures ok { OnOk result (cat.new ≡ with_label cat.old chunk (label_of edges.now)) }
    ensures err { OnErr result (cat.new ≡ cat.old) }
{
    let (_vertices, _length) = (cat.shape().n(), cat.chunk(chunk).length);
    count_sources(cat, chunk, edges, counts)?;
    cat.set_label(chunk, counts)
}

impl Fetcher {
    /// Reads a chunk's edges by one read, or by none where it has none, and labels it. `Grid(BadEdge)` where one lies
    /// outside its block.
    fn label_chunk<D: Depot>(
        &mut self,
        depot: &mut D,
        name: &str,
        chunk: u32,
        cat: &mut Catalogue,
    ) -> Result<(), OpenError>
        requires within { chunk < length cat.old.places }
        requires fresh { label_at cat.old chunk ≡ [] }
        ensures cut { IsSameCut cat.old cat.new }
        ensures set { OnOk result (IsSetAt chunk cat.old cat.new) }
        ensures labelled { (size : ℕ)
            → IsTold (D.state depot.old).files name.now (HasLabelled size chunk cat.old)
            → OnOk result (IsTold (D.state depot.old).files name.now (HasLabelled size (chunk + 1) cat.new)) }
        ensures opens { (size : ℕ)
            → IsTold (D.state depot.old).files name.now (HasLabelled size chunk cat.old)
            → OpensBy 0 (chunk_reads (place_at cat.old chunk)) size name.now
            (D.state depot.old) (D.state depot.new) result }
        ensures served { OnOk result ((D.state depot.new).faults ≡ (D.state depot.old).faults) }
        ensures frame { OnlyReads 0 (chunk_reads (place_at cat.old chunk))
            (D.state depot.old) (D.state depot.new) }
        ensures read { OnOk result
            (ReadsJust (chunk_reads (place_at cat.old chunk)) (D.state depot.old) (D.state depot.new)) }
        ensures refused_read { IfErr result (λ error. IsVerdict error
            → ReadsJust (chunk_reads (place_at cat.old chunk)) (D.state depot.old) (D.state depot.new)) }
        ensures refused { (size : ℕ)
            → IsTold (D.state depot.old).files name.now (HasLabelled size chunk cat.old)
            → IfErr result (λ error. IsVerdict error
            → IsTold (D.state depot.old).files name.now (HasStray size chunk)) }
    {
        grid_by_parts();
        let first = cat.chunk(chunk).first;
        let (buffer, edges) = (&mut self.buffer, &mut self.edges);
        let stray = read_chunk(depot, name, cat, chunk, buffer, edges)?;
        if stray.is_some() {
            let index = first + self.edges.len() as u64;
            return Err(OpenError::Grid(GridError::BadEdge { index }));
        }
        let edges = self.edges.as_slice();
        set_label_of(cat, chunk, edges, &mut self.counts)?;
        Ok(())
    }

    /// Labels the chunks of a catalogue, one after the other.
    fn label_chunks<D: Depot>(
        &mut self,
        depot: &mut D,
        name: &str,
        cat: &mut Catalogue,
    ) -> Result<(), OpenError>
        requires fresh { IsFreshFrom 0 cat.old }
        ensures cut { IsSameCut cat.old cat.new }
        ensures labelled { (size : ℕ) → IsTold (D.state depot.old).files name.now (HasLabelled size 0 cat.old)
            → OnOk result (IsTold (D.state depot.old).files name.now
            (HasLabelled size (length cat.old.places) cat.new)) }
        ensures opens { (size : ℕ) → IsTold (D.state depot.old).files name.now (HasLabelled size 0 cat.old)
            → OpensBy 0 (sum_by chunk_reads cat.old.places) size name.now
            (D.state depot.old) (D.state depot.new) result }
        ensures read { OnOk result
            (ReadsJust (sum_by chunk_reads cat.old.places) (D.state depot.old) (D.state depot.new)) }
        ensures few_reads { (size : ℕ)
            → IsTold (D.state depot.old).files name.now (HasLabelled size 0 cat.old)
            → IsTold (D.state depot.old).files name.now
            (LabelsBy cat.old.places (D.state depot.old) (D.state depot.new)) }
        ensures refused { (size : ℕ)
            → IsTold (D.state depot.old).files name.now (HasLabelled size 0 cat.old)
            → IfErr result (λ error. IsVerdict error → IsTold (D.state depot.old).files name.now
            (LabelsJust cat.old.places (D.state depot.old) (D.state depot.new))) }
    {
        for chunk in 0..cat.chunks() {
            self.label_chunk(depot, name, chunk, cat)?;
        }
        Ok(())
    }

    /// Labels the chunks of a plan, in room that is taken once for all of them.
    pub(crate) fn label_plan<D: Depot>(
        &mut self,
        depot: &mut D,
        name: &str,
        chunk_size: u32,
        cat: &mut Catalogue,
    ) -> Result<(), OpenError>
        requires planned { IsPlanned chunk_size cat.old }
        requires short { chunk_size ≤ MAX_CHUNK_SIZE }
        ensures cut { IsSameCut cat.old cat.new }
        ensures labelled { IsTold (D.state depot.old).files name.now (HasLabelled chunk_size 0 cat.old)
            → OnOk result (IsTold (D.state depot.old).files name.now
            (HasLabelled chunk_size (length cat.old.places) cat.new)) }
        ensures opens { IsTold (D.state depot.old).files name.now (HasLabelled chunk_size 0 cat.old)
            → OpensBy 0 (sum_by chunk_reads cat.old.places) chunk_size name.now
            (D.state depot.old) (D.state depot.new) result }
        ensures read { OnOk result
            (ReadsJust (sum_by chunk_reads cat.old.places) (D.state depot.old) (D.state depot.new)) }
        ensures few_reads { IsTold (D.state depot.old).files name.now (HasLabelled chunk_size 0 cat.old)
            → IsTold (D.state depot.old).files name.now
            (LabelsBy cat.old.places (D.state depot.old) (D.state depot.new)) }
        ensures refused { IsTold (D.state depot.old).files name.now (HasLabelled chunk_size 0 cat.old)
            → IfErr result (λ error. IsVerdict error → IsTold (D.state depot.old).files name.now
            (LabelsJust cat.old.places (D.state depot.old) (D.state depot.new))) }
    {
        widen(&mut self.buffer, 12 * chunk_size as usize)?;
        self.label_chunks(depot, name, cat)
    }
}
