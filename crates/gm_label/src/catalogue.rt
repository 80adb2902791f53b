//! What is known of a grid without its edges.

ghost use Rattle.std.specs.Prelude.{◌≡◌, ◌==◌, ◌*◌, ◌+◌, ◌<◌, ◌≤◌, ◌↔◌, ℕ, [], length, sum, sum_by, All, IfOk, OnOk, OnErr, Some, None};
ghost use Rattle.std.specs.List.{list_any};
ghost use Rattle.gm_base.specs.declared.limits.TheConstants.{MAX_EDGES, MAX_CHUNKS, MAX_CHUNK_SIZE};
ghost use Rattle.gm_label.specs.Chunks.{chunks_of, too_many_chunks};
ghost use Rattle.gm_label.specs.Labels.{sources_of, IsLabel};
ghost use Rattle.gm_label.specs.Catalogues.{place_at, label_at, sources_at, unlabelled, with_label, FitsChunk, AreChunksOf, IsFirstOf, IsLastOf, first_source_of, end_source_of, IsSourceIn, AreInRows};

use crate::chunk::{Chunk, Place};
use crate::label::{ChunkLabel, lists};
use crate::labels::Labels;
use crate::plan::{PlanError, chunk_count, cut_blocks};
use gm_base::{MAX_CHUNKS, Memory, Shape};
use std::alloc::Global;
use std::marker::Model;
use std::ops::Range;

/// The chunks of a grid and their labels.
#[derive(Drop)]
pub struct Catalogue {
    shape: Shape,
    places: Vec<Place>,
    firsts: Vec<u32>,
    labels: Labels,
}

impl Model for Catalogue {
    ghost use Rattle.gm_label.specs.Catalogues.{Catalogue as Known};
    ghost use Rattle.gm_label.specs.Stored.{IsIndexed, AreLabelled};

    ghost Value = { Known };

    ghost view = { λ a. record { dimensions = a.shape; places = a.places.items; labels = a.labels.lists } };

    ghost invariant = { λ a. IsIndexed a.shape a.places.items a.firsts.items × AreLabelled a.shape a.places.items a.labels };
}

impl Catalogue {
    /// Cuts the chunks of a grid whose blocks have so many edges. All labels are empty. `TooManyChunks` exactly where there are
    /// more than [`MAX_CHUNKS`].
    pub fn plan(
        alloc: Global,
        shape: Shape,
        counts: &[u64],
        chunk_size: u32,
    ) -> Result<Catalogue, PlanError>
        requires blocks { length counts.now ≡ shape.parts * shape.parts }
        requires few { sum counts.now ≤ MAX_EDGES }
        requires some { 1 ≤ chunk_size }
        requires short { chunk_size ≤ MAX_CHUNK_SIZE }
        ensures ok { IfOk result (λ cat. cat ≡ unlabelled shape (chunks_of chunk_size counts.now)) }
        ensures taken { OnOk result (too_many_chunks chunk_size counts.now ≡ None) }
        ensures refused { (chunks : ℕ) → (result ≡ Err (PlanError.TooManyChunks chunks)) ↔ (too_many_chunks chunk_size counts.now ≡ Some chunks) }
    {
        let chunks = chunk_count(counts, chunk_size);
        if chunks > u64::from(MAX_CHUNKS) {
            return Err(PlanError::TooManyChunks { chunks });
        }
        let (places, firsts) = cut_blocks(alloc, counts, chunk_size, chunks as usize)?;
        let edges = counts.iter().sum::<u64>() as u32;
        let labels = Labels::empty(alloc, places.len(), edges)?;
        Ok(Catalogue {
            shape,
            places,
            firsts,
            labels,
        })
    }

    /// Gives a chunk that has none its label. A refusal leaves the catalogue as it was.
    pub fn set_label<L: ChunkLabel>(&mut self, chunk: u32, label: &L) -> Result<(), Memory>
        requires within { chunk < length self.old.places }
        requires fresh { label_at self.old chunk ≡ [] }
        requires fits { FitsChunk self.old chunk (L.pairs label.now) }
        ensures ok { OnOk result (self.new ≡ with_label self.old chunk (L.pairs label.now)) }
        ensures err { OnErr result (self.new ≡ self.old) }
    {
        let at = chunk as usize;
        let edges = self.places[at].count;
        self.labels.set(at, label, edges)
    }

    /// The number of vertices and of ranges.
    pub fn shape(&self) -> &Shape
        ensures { result.now ≡ self.now.dimensions }
    {
        &self.shape
    }

    /// How many chunks there are.
    pub fn chunks(&self) -> u32
        ensures value { result ≡ length self.now.places }
        ensures few { result ≤ MAX_CHUNKS }
    {
        self.places.len() as u32
    }

    /// A chunk by its number.
    pub fn chunk(&self, c: u32) -> Chunk
        requires { c < length self.now.places }
        ensures value { result ≡ record { block = (place_at self.now c).block; first = (place_at self.now c).first; length = (place_at self.now c).count } }
        ensures block { result.block < self.now.dimensions.parts * self.now.dimensions.parts }
        ensures end { result.first + result.length ≤ MAX_EDGES }
        ensures short { result.length ≤ MAX_CHUNK_SIZE }
    {
        let place = self.places[c as usize];
        Chunk {
            block: place.block,
            first: u64::from(place.first),
            length: place.count,
        }
    }

    /// Whether a chunk is the last one of its block.
    pub fn is_last(&self, c: u32) -> bool
        requires { c < length self.now.places }
        ensures { result ≡ (place_at self.now c).is_last }
    {
        self.places[c as usize].is_last
    }

    /// The numbers of a block's chunks, which follow one another. Each block has a chunk.
    pub fn chunks_of(&self, block: u32) -> Range<u32>
        requires { block < self.now.dimensions.parts * self.now.dimensions.parts }
        ensures chunks { AreChunksOf self.now block result.start result.end }
        ensures within { result.end ≤ length self.now.places }
    {
        let at = block as usize;
        self.firsts[at]..self.firsts[at + 1]
    }

    /// The number of the first chunk of a block.
    pub fn first_of(&self, block: u32) -> u32
        requires { block < self.now.dimensions.parts * self.now.dimensions.parts }
        ensures { IsFirstOf self.now block result }
    {
        self.chunks_of(block).start
    }

    /// The number of the last chunk of a block.
    pub fn last_of(&self, block: u32) -> u32
        requires { block < self.now.dimensions.parts * self.now.dimensions.parts }
        ensures { IsLastOf self.now block result }
    {
        self.chunks_of(block).end - 1
    }

    /// The first source that edges of a block may have. No label of a chunk has others than its block's.
    pub fn first_source(&self, block: u32) -> u32
        requires { block < self.now.dimensions.parts * self.now.dimensions.parts }
        ensures value { result ≡ first_source_of self.now.dimensions block }
        ensures in_rows { AreInRows self.now }
    {
        block / self.shape.parts() * self.shape.width()
    }

    /// The end of the sources that edges of a block may have: the first one behind them.
    pub fn end_source(&self, block: u32) -> u32
        requires { block < self.now.dimensions.parts * self.now.dimensions.parts }
        ensures value { result ≡ end_source_of self.now.dimensions block }
        ensures within { result ≤ self.now.dimensions.n }
    {
        let n = self.shape.n();
        (self.first_source(block) + self.shape.width()).min(n)
    }

    /// The label of a chunk. Its sources are those that edges of the chunk's block may have.
    pub fn label(&self, c: u32) -> &[(u32, u32)]
        requires { c < length self.now.places }
        ensures value { result.now ≡ label_at self.now c }
        ensures is_label { IsLabel result.now }
        ensures in_rows { All (IsSourceIn self.now.dimensions (place_at self.now c).block) (sources_of result.now) }
    {
        self.labels.get(c as usize)
    }

    /// Whether the label of a chunk has a source.
    pub fn lists(&self, c: u32, source: u32) -> bool
        requires { c < length self.now.places }
        ensures { result ≡ list_any (λ s. s == source) (sources_at self.now c) }
    {
        lists(self.label(c), source)
    }

    /// How many pairs the labels of all chunks have.
    pub fn pairs(&self) -> usize
        ensures { result ≡ sum_by (λ label. length label) self.now.labels }
    {
        self.labels.pairs()
    }
}
