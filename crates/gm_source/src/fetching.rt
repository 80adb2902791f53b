//! Fetching one chunk.

ghost use Rattle.std.specs.Prelude.{◌≡◌, ◌+◌, ◌*◌, ◌<◌, ◌≤◌, ℕ, List, length, All, IsTrue, IsErrOf, IfSome, IfOk, OnOk};
ghost use Rattle.gm_base.specs.declared.limits.TheConstants.{MAX_EDGES};
ghost use Rattle.gm_outside.specs.Frames.{OnlyReads, CountsFaults};
ghost use Rattle.gm_grid.specs.GridBytes.{index_end};
ghost use Rattle.gm_label.specs.Labels.{label_of};
ghost use Rattle.gm_label.specs.Catalogues.{place_at, label_at};
ghost use Rattle.gm_source.specs.declared.fetching.FetchError.TheVariants as FetchErrors;
ghost use Rattle.gm_source.specs.Openings.{ReadsJust, chunk_reads};
ghost use Rattle.gm_source.specs.Fetches.{TellsGrid, Fetches, HoldsChunk, LiesInChunk, Differs, ReadsChunk, IsUnchanged, fetch_error_of};

use crate::reading::{read_edges, widen};
use gm_base::{Edge, Edges, Memory, Shape};
use gm_grid::laws::grid_reads_back;
use gm_grid::{BlockRanges, index_size};
use gm_label::{Catalogue, Label, Raw, SourceCounts};
use gm_outside::{Depot, Trouble};
use std::alloc::Global;
use std::mem;

/// What was found in place of a chunk's edges.
#[derive(Drop)]
pub enum Found {
    /// An edge that doesn't lie in the chunk's block, the first one. The index is its number in the file, counted from 0.
    Stray { index: u64, edge: Edge },
    /// Edges of the block with another label than the catalogue has of the chunk.
    Labels { kept: Label, found: Label },
}

/// Why a chunk isn't fetched.
#[derive(Drop)]
pub enum FetchError {
    /// The depot failed.
    Fault,
    /// The chunk isn't what it was when the grid was opened.
    Changed { found: Found },
    /// There was no memory.
    Memory,
}

impl From<Trouble> for FetchError {
    ghost from_gives = { λ trouble error. error ≡ fetch_error_of trouble };

    fn from(trouble: Trouble) -> FetchError {
        match trouble {
            Trouble::Failed => FetchError::Fault,
            Trouble::Memory => FetchError::Memory,
        }
    }
}

impl From<Memory> for FetchError {
    ghost from_gives = { λ _ error. error ≡ FetchErrors.Memory };

    fn from(_error: Memory) -> FetchError {
        FetchError::Memory
    }
}

/// Where an edge stands in the file of a grid, by its number.
fn edge_start(shape: &Shape, index: u64) -> u64
    requires { index ≤ MAX_EDGES }
    ensures { result ≡ index_end shape.now + 12 * index }
{
    16 + index_size(shape) as u64 + 12 * index
}

/// Reads a chunk's edges up to the first that isn't in its block, which is answered.
pub(crate) fn read_chunk<D: Depot>(
    depot: &mut D,
    name: &str,
    cat: &Catalogue,
    chunk: u32,
    buffer: &mut Vec<u8>,
    edges: &mut Vec<Edge>,
) -> Result<Option<Edge>, Trouble>
    requires { chunk < length cat.now.places }
    ensures frame { OnlyReads 0 (chunk_reads (place_at cat.now chunk))
        (D.state depot.old) (D.state depot.new) }
    ensures reads { IfOk result (λ stray.
        ReadsChunk (D.state depot.old).files name.now cat.now chunk edges.new.items stray) }
    ensures told { (bytes : List ℕ) → TellsGrid (D.state depot.old).files name.now cat.now bytes
        → IfOk result (λ stray. IsUnchanged bytes cat.now chunk edges.new.items stray) }
    ensures cause { CountsFaults (D.state depot.old) (D.state depot.new) result }
    ensures calm { (bytes : List ℕ) → IsTrue (D.state depot.old).calm
        → TellsGrid (D.state depot.old).files name.now cat.now bytes
        → IsErrOf result Trouble.Failed → ⊥ }
    ensures calm_range { IsTrue (D.state depot.old).calm
        → IfSome (D.state depot.old).files (λ held. HoldsChunk held name.now cat.now chunk
        → IsErrOf result Trouble.Failed → ⊥) }
    ensures read { (IsErrOf result Trouble.Memory → ⊥)
        → ReadsJust (chunk_reads (place_at cat.now chunk)) (D.state depot.old) (D.state depot.new) }
{
    grid_reads_back();
    let place = cat.chunk(chunk);
    let count = 12 * place.length as usize;
    widen(buffer, count)?;
    let ranges = BlockRanges::of(cat.shape(), place.block);
    let start = edge_start(cat.shape(), place.first);
    read_edges(depot, name, start, &ranges, &mut buffer[..count], edges)
}

/// Two labels of a chunk that differ: the catalogue's, and that of these edges.
fn two_labels(alloc: Global, cat: &Catalogue, chunk: u32, edges: &[Edge]) -> Result<Found, Memory>
    requires within { chunk < length cat.now.places }
    requires few { length edges.now ≤ MAX_EDGES }
    requires placed { All (LiesInChunk cat.now chunk) edges.now }
    requires other { label_of edges.now ≡ label_at cat.now chunk → ⊥ }
    ensures { IfOk result (λ found. Differs cat.now chunk edges.now found) }
{
    let kept = Label::from_slice(alloc, cat.label(chunk))?;
    let found = Label::of(alloc, edges)?;
    Ok(Found::Labels { kept, found })
}

/// Counts the sources of edges of a chunk's block.
#[tactic(auto, using(gm_label::specs::CataloguesRules::labelling))]
pub(crate) fn count_sources(
    cat: &Catalogue,
    chunk: u32,
    edges: &[Edge],
    counts: &mut SourceCounts,
) -> Result<(), Memory>
    requires within { chunk < length cat.now.places }
    requires few { length edges.now ≤ MAX_EDGES }
    requires placed { All (LiesInChunk cat.now chunk) edges.now }
    ensures { OnOk result (counts.new ≡ label_of edges.now) }
{
    let _vertices = cat.shape().n();
    let block = cat.chunk(chunk).block;
    let (first, end) = (cat.first_source(block), cat.end_source(block));
    counts.count(first, end, edges)
}

/// Whether these edges of a chunk's block have the label that the catalogue has of the chunk.
#[tactic(auto, using(gm_label::specs::CataloguesRules::labelling))]
fn has_label(
    cat: &Catalogue,
    chunk: u32,
    edges: &[Edge],
    counts: &mut SourceCounts,
) -> Result<bool, Memory>
    requires within { chunk < length cat.now.places }
    requires few { length edges.now ≤ MAX_EDGES }
    requires placed { All (LiesInChunk cat.now chunk) edges.now }
    ensures yes { IfOk result (λ has. IsTrue has → label_of edges.now ≡ label_at cat.now chunk) }
    ensures no { IfOk result (λ has. label_of edges.now ≡ label_at cat.now chunk → IsTrue has) }
{
    count_sources(cat, chunk, edges, counts)?;
    Ok(counts.matches(cat.label(chunk)))
}

/// Refuses edges of a chunk's block that have another label than the catalogue has of it.
fn check_label(
    alloc: Global,
    cat: &Catalogue,
    chunk: u32,
    edges: &[Edge],
    counts: &mut SourceCounts,
) -> Result<(), FetchError>
    requires within { chunk < length cat.now.places }
    requires few { length edges.now ≤ MAX_EDGES }
    requires placed { All (LiesInChunk cat.now chunk) edges.now }
    ensures ok { OnOk result (label_of edges.now ≡ label_at cat.now chunk) }
    ensures changed { (found : Found) → IsErrOf result (FetchError.Changed found)
        → Differs cat.now chunk edges.now found }
    ensures no_fault { IsErrOf result FetchError.Fault → ⊥ }
{
    if has_label(cat, chunk, edges, counts)? {
        return Ok(());
    }
    let found = two_labels(alloc, cat, chunk, edges)?;
    Err(FetchError::Changed { found })
}

/// Opens a grid and fetches its chunks, one after the other, each in the room of the one before.
#[derive(Drop)]
pub struct Fetcher {
    pub(crate) alloc: Global,
    pub(crate) buffer: Vec<u8>,
    pub(crate) edges: Vec<Edge>,
    pub(crate) counts: SourceCounts,
}

impl Fetcher {
    /// One that has no room yet.
    pub fn new(alloc: Global) -> Fetcher {
        Fetcher {
            alloc,
            buffer: Vec::new(alloc),
            edges: Vec::new(alloc),
            counts: SourceCounts::new(alloc),
        }
    }

    /// The same as [`fetch`], in the room of the fetches before.
    pub fn fetch<D: Depot>(
        &mut self,
        cat: &Catalogue,
        chunk: u32,
        depot: &mut D,
        name: &str,
    ) -> Result<Raw, FetchError>
        requires { chunk < length cat.now.places }
        ensures { Fetches name.now cat.now chunk (D.state depot.old) (D.state depot.new) result }
    {
        let first = cat.chunk(chunk).first;
        let (buffer, edges) = (&mut self.buffer, &mut self.edges);
        if let Some(edge) = read_chunk(depot, name, cat, chunk, buffer, edges)? {
            let index = first + self.edges.len() as u64;
            let found = Found::Stray { index, edge };
            return Err(FetchError::Changed { found });
        }
        let edges = self.edges.as_slice();
        check_label(self.alloc, cat, chunk, edges, &mut self.counts)?;
        let edges = mem::replace(&mut self.edges, Vec::new(self.alloc));
        Ok(Raw {
            chunk,
            edges: Edges::from_vec(edges),
        })
    }

    /// Takes a list of edges that isn't needed any more, as room for those of the next chunk.
    pub fn give_back(&mut self, edges: Edges) {
        self.edges = edges.into_vec();
    }
}

/// Brings the edges of a chunk of the grid that this catalogue is of, by one read, or by none where it has none. `Changed` says what
/// was found where they don't lie in the chunk's block or don't have its label.
pub fn fetch<D: Depot>(
    alloc: Global,
    depot: &mut D,
    name: &str,
    cat: &Catalogue,
    chunk: u32,
) -> Result<Raw, FetchError>
    requires { chunk < length cat.now.places }
    ensures { Fetches name.now cat.now chunk (D.state depot.old) (D.state depot.new) result }
{
    Fetcher::new(alloc).fetch(cat, chunk, depot, name)
}
