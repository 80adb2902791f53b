//! Opening a grid.

ghost use Rattle.std.specs.Prelude.{◌≡◌, ◌+◌, ◌<◌, ◌≤◌, ◌*◌, ℕ, length, IfSome, IfOk, OnOk, Some, None, IfErr, sum};
ghost use Rattle.std.specs.FinMap.{get};
ghost use Rattle.std.specs.Result.{result_err};
ghost use Rattle.gm_base.specs.declared.limits.TheConstants.{MAX_CHUNKS, MAX_CHUNK_SIZE, MAX_EDGES};
ghost use Rattle.gm_outside.specs.Causes.{counted_times};
ghost use Rattle.gm_grid.specs.GridBytes.{counts_in, counts_of_index, index_end, index_size, shape_of_head};
ghost use Rattle.gm_grid.specs.GridRefusals.{refusal_by_head, refusal_by_index, refusal_by_chunks};
ghost use Rattle.gm_label.specs.Chunks.{chunks_of};
ghost use Rattle.gm_label.specs.Catalogues.{unlabelled};
ghost use Rattle.gm_source.specs.Openings.{OpensBy, ReadsJust, ReadsUpTo, IsTold, HasHead, HasIndex, HasLabelled, IsPlanned, IsRefusedByIndex, IsRefusedByChunks, IsCatalogueOf, opening_reads, file_reads};
ghost use Rattle.gm_source.specs.OpeningReads.{IsVerdict, ReadsFile, reads_to_open, reads_to_plan};

use crate::OpenError;
use crate::fetching::Fetcher;
use crate::reading::{are_bytes, zeros};
use gm_base::Shape;
use gm_grid::laws::{grid_by_parts, grid_reads_back, refused_where_no_grid};
use gm_grid::{GridError, Index, IndexError, index_size, read_head, read_index};
use gm_label::{Catalogue, PlanError};
use gm_outside::Depot;
use std::alloc::Global;

/// How many bytes the file has.
#[tactic(auto, using(crate::specs::OpeningsRules::openings))]
fn file_size<D: Depot>(depot: &mut D, name: &str) -> Result<u64, OpenError>
    ensures size { IfOk result (λ size.
        IsTold (D.state depot.old).files name.now (λ bytes. length bytes ≡ size)) }
    ensures unread { (D.state depot.new).reads ≡ (D.state depot.old).reads }
    ensures missing { IfErr result (λ error. IsVerdict error
        → IfSome (D.state depot.old).files (λ held. get held name.now ≡ None)) }
    ensures opens { (chunk_size : ℕ) → OpensBy 1 0 chunk_size name.now
        (D.state depot.old) (D.state depot.new) result }
{
    match depot.size(name) {
        Ok(Some(size)) => Ok(size),
        Ok(None) => Err(OpenError::Missing),
        Err(trouble) => Err(trouble.into()),
    }
}

/// The shape that a head tells in a file of so many bytes, where the index fits behind it.
fn check_head(head: &[u8; 16], size: u64) -> Result<Shape, GridError>
    requires { 16 ≤ size }
    ensures refused { result_err result ≡ refusal_by_head size head.now }
    ensures shape { IfOk result (λ shape. (shape ≡ shape_of_head head.now) × (index_end shape ≤ size)) }
{
    let shape = read_head(head)?;
    let expected = 16 + index_size(&shape) as u64;
    if size < expected {
        return Err(GridError::BadSize {
            found: size,
            expected,
        });
    }
    Ok(shape)
}

/// The shape that the head of a file of so many bytes tells.
fn read_shape<D: Depot>(depot: &mut D, name: &str, size: u64) -> Result<Shape, OpenError>
    requires size { IsTold (D.state depot.old).files name.now (λ bytes. length bytes ≡ size) }
    ensures head { IfOk result (λ shape. IsTold (D.state depot.old).files name.now (HasHead shape)) }
    ensures long { IfOk result (λ shape. index_end shape ≤ size) }
    ensures read { OnOk result (ReadsJust 1 (D.state depot.old) (D.state depot.new)) }
    ensures short { size < 16 → (D.state depot.new).reads ≡ (D.state depot.old).reads }
    ensures refused { (chunk_size : ℕ) → IfErr result (λ error. IsVerdict error
        → IsTold (D.state depot.old).files name.now
        (λ bytes. ReadsJust (file_reads chunk_size bytes) (D.state depot.old) (D.state depot.new))) }
    ensures opens { (chunk_size : ℕ) → OpensBy 0 1 chunk_size name.now
        (D.state depot.old) (D.state depot.new) result }
{
    if size < 16 {
        return Err(OpenError::Grid(GridError::BadSize {
            found: size,
            expected: 16,
        }));
    }
    let mut head = [0; 16];
    depot.read_at(name, 0, &mut head)?;
    are_bytes(&head);
    match check_head(&head, size) {
        Ok(shape) => Ok(shape),
        Err(error) => Err(OpenError::Grid(error)),
    }
}

/// The index of these bytes in a file of so many bytes, which has the size that the index tells.
fn check_index(alloc: Global, shape: &Shape, bytes: &[u8], size: u64) -> Result<Index, IndexError>
    requires { length bytes.now ≡ index_size shape.now }
    ensures counts { IfOk result (λ index.
        (index ≡ counts_of_index bytes.now) × (length index ≡ shape.now.parts * shape.now.parts)) }
    ensures taken { OnOk result (refusal_by_index size (counts_of_index bytes.now) ≡ None) }
    ensures refused { IfErr result (λ error. IsRefusedByIndex size (counts_of_index bytes.now) error) }
{
    let index = match read_index(alloc, shape, bytes) {
        Ok(index) => index,
        Err(error) => return Err(error),
    };
    let expected = index.expected_size();
    if size != expected {
        return Err(IndexError::Grid(GridError::BadSize {
            found: size,
            expected,
        }));
    }
    Ok(index)
}

/// How many edges each block has, by the index of a file of so many bytes.
#[tactic(auto, using(crate::specs::OpeningsRules::openings))]
fn read_counts<D: Depot>(
    alloc: Global,
    depot: &mut D,
    name: &str,
    shape: &Shape,
    size: u64,
) -> Result<Index, OpenError>
    requires size { IsTold (D.state depot.old).files name.now (λ bytes. length bytes ≡ size) }
    requires head { IsTold (D.state depot.old).files name.now (HasHead shape.now) }
    ensures index { IfOk result (λ index.
        IsTold (D.state depot.old).files name.now (HasIndex shape.now index)) }
    ensures blocks { IfOk result (λ index. length index ≡ shape.now.parts * shape.now.parts) }
    ensures read { OnOk result (ReadsJust 1 (D.state depot.old) (D.state depot.new)) }
    ensures one_read { IfErr result (λ error. IsVerdict error
        → ReadsJust 1 (D.state depot.old) (D.state depot.new)) }
    ensures refused { (chunk_size : ℕ) → IfErr result (λ error. IsVerdict error
        → IsTold (D.state depot.old).files name.now (λ bytes. file_reads chunk_size bytes ≡ 2)) }
    ensures opens { (chunk_size : ℕ) → OpensBy 0 1 chunk_size name.now
        (D.state depot.old) (D.state depot.new) result }
{
    let mut bytes = zeros(alloc, index_size(shape))?;
    depot.read_at(name, 16, &mut bytes)?;
    are_bytes(&bytes);
    match check_index(alloc, shape, &bytes, size) {
        Ok(index) => Ok(index),
        Err(error) => Err(error.into()),
    }
}

/// The chunks of the grid in a file, without labels.
fn read_plan<D: Depot>(
    alloc: Global,
    depot: &mut D,
    name: &str,
    chunk_size: u32,
) -> Result<Catalogue, OpenError>
    requires { (1 ≤ chunk_size) × (chunk_size ≤ MAX_CHUNK_SIZE) }
    ensures planned { IfOk result (λ cat.
        IsTold (D.state depot.old).files name.now (HasLabelled chunk_size 0 cat)) }
    ensures chunks { IfOk result (IsPlanned chunk_size) }
    ensures read { OnOk result (ReadsJust 2 (D.state depot.old) (D.state depot.new)) }
    ensures few_reads { IfSome (D.state depot.old).files (λ held.
        ReadsUpTo (reads_to_plan (get held name.now)) (D.state depot.old) (D.state depot.new)) }
    ensures refused { IfErr result (λ error. IsVerdict error → IfSome (D.state depot.old).files (λ held.
        ReadsJust (reads_to_open chunk_size (get held name.now)) (D.state depot.old) (D.state depot.new))) }
    ensures opens { OpensBy 1 2 chunk_size name.now (D.state depot.old) (D.state depot.new) result }
{
    let size = file_size(depot, name)?;
    let shape = read_shape(depot, name, size)?;
    let index = read_counts(alloc, depot, name, &shape, size)?;
    let _edges = index.edges();
    match Catalogue::plan(alloc, shape, index.counts(), chunk_size) {
        Ok(cat) => Ok(cat),
        Err(error) => Err(error.into()),
    }
}

impl Fetcher {
    /// Opens the grid in a file, cut into chunks of this size: its head, its index and each chunk with edges are read once, in this order, and
    /// the chunks' places and labels are kept.
    ///
    /// `Missing` where there is no such file. `Grid` where it is no grid, or has too many chunks, with its first refusal: too short for a head,
    /// magic, shape, too short for the index, too many edges, size, too many chunks, first bad edge. `Fault` only where the depot failed.
    pub fn open<D: Depot>(
        &mut self,
        depot: &mut D,
        name: &str,
        chunk_size: u32,
    ) -> Result<Catalogue, OpenError>
        requires some { 1 ≤ chunk_size }
        requires short { chunk_size ≤ MAX_CHUNK_SIZE }
        ensures catalogue { IfOk result (λ cat.
            IsTold (D.state depot.old).files name.now (λ bytes. IsCatalogueOf bytes chunk_size cat)) }
        ensures opens { OpensBy 1 (2 + MAX_CHUNKS) chunk_size name.now
            (D.state depot.old) (D.state depot.new) result }
        ensures read { IfOk result (λ cat.
            ReadsJust (opening_reads cat.places) (D.state depot.old) (D.state depot.new)) }
        ensures file { ReadsFile chunk_size name.now (D.state depot.old) (D.state depot.new) result }
    {
        refused_where_no_grid();
        grid_reads_back();
        grid_by_parts();
        let mut cat = read_plan(self.alloc, depot, name, chunk_size)?;
        self.label_plan(depot, name, chunk_size, &mut cat)?;
        Ok(cat)
    }
}

/// The same as [`Fetcher::open`], in room of its own.
pub fn open_grid<D: Depot>(
    alloc: Global,
    depot: &mut D,
    name: &str,
    chunk_size: u32,
) -> Result<Catalogue, OpenError>
    requires some { 1 ≤ chunk_size }
    requires short { chunk_size ≤ MAX_CHUNK_SIZE }
    ensures catalogue { IfOk result (λ cat.
        IsTold (D.state depot.old).files name.now (λ bytes. IsCatalogueOf bytes chunk_size cat)) }
    ensures opens { OpensBy 1 (2 + MAX_CHUNKS) chunk_size name.now
        (D.state depot.old) (D.state depot.new) result }
    ensures read { IfOk result (λ cat.
        ReadsJust (opening_reads cat.places) (D.state depot.old) (D.state depot.new)) }
    ensures file { ReadsFile chunk_size name.now (D.state depot.old) (D.state depot.new) result }
{
    Fetcher::new(alloc).open(depot, name, chunk_size)
}
