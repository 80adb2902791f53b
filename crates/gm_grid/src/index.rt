//! The index of a grid's file: how many edges each block has.

ghost use Rattle.std.specs.Prelude.{◌≡◌, ◌*◌, ◌≤◌, ◌↔◌, length, map, sum, IfOk, OnOk, Some, None};
ghost use Rattle.byteorder.specs.Endian.{little_number};
ghost use Rattle.gm_base.specs.declared.limits.TheConstants.{MAX_EDGES, MAX_PARTS};
ghost use Rattle.gm_grid.specs.GridBytes.{counts_of_index, index_size, grid_file_size};
ghost use Rattle.gm_grid.specs.GridRefusals.{index_refusal};

use crate::{EDGE_SIZE, ENTRY_SIZE, GridError, HEAD_SIZE, IndexError};
use byteorder::{ByteOrder, LittleEndian};
use gm_base::{MAX_EDGES, Shape};
use std::alloc::{AllocError, Global};
use std::marker::Model;

/// How many edges each block of a grid has, row by row: at most [`MAX_EDGES`] in all. Contracts see the list of the numbers.
#[derive(Drop)]
pub struct Index {
    counts: Vec<u64>,
    edges: u64,
}

impl Model for Index {
    ghost use Rattle.std.specs.Prelude.{◌≡◌, ◌*◌, ◌≤◌, ℕ, List, length, sum};
    ghost use Rattle.gm_base.specs.declared.limits.TheConstants.{MAX_EDGES, MAX_PARTS};

    ghost Value = { List ℕ };

    ghost view = { λ a. a.counts.items };

    ghost invariant = { λ a. (a.edges ≡ sum a.counts.items)
        × (sum a.counts.items ≤ MAX_EDGES)
        × (length a.counts.items ≤ MAX_PARTS * MAX_PARTS) };
}

/// How many bytes the index behind a head of this shape has.
pub fn index_size(shape: &Shape) -> usize
    ensures value { result ≡ index_size shape.now }
    ensures most { result ≤ ENTRY_SIZE * (MAX_PARTS * MAX_PARTS) }
{
    let parts = shape.parts() as usize;
    ENTRY_SIZE * (parts * parts)
}

/// How many edges the blocks have in all.
fn edges_in_all(counts: &[[u8; ENTRY_SIZE]]) -> u128
    requires { length counts.now ≤ MAX_PARTS * MAX_PARTS }
    ensures { result ≡ sum (map (little_number ENTRY_SIZE) counts.now) }
{
    counts
        .iter()
        .map(|count| u128::from(LittleEndian::read_u64(count)))
        .sum()
}

/// The numbers of these bytes.
fn read_counts(alloc: Global, counts: &[[u8; ENTRY_SIZE]]) -> Result<Vec<u64>, AllocError>
    ensures { IfOk result (λ read. read.items ≡ map (little_number ENTRY_SIZE) counts.now) }
{
    counts
        .iter()
        .map(|count| LittleEndian::read_u64(count))
        .collect(alloc)
}

/// The index behind a head of this shape. `TooManyEdges` exactly where the blocks have more than [`MAX_EDGES`] edges in all; else
/// `Memory`.
pub fn read_index(alloc: Global, shape: &Shape, bytes: &[u8]) -> Result<Index, IndexError>
    requires { length bytes.now ≡ index_size shape.now }
    ensures ok { IfOk result (λ index.
        (index ≡ counts_of_index bytes.now) × (length index ≡ shape.now.parts * shape.now.parts)) }
    ensures taken { OnOk result (index_refusal (counts_of_index bytes.now) ≡ None) }
    ensures refused { (e : GridError)
        → (result ≡ Err (IndexError.Grid e)) ↔ (index_refusal (counts_of_index bytes.now) ≡ Some e) }
{
    let size = index_size(shape);
    prove!(bytes.len() == size);
    let (numbers, _) = bytes.as_chunks::<ENTRY_SIZE>();
    let edges = edges_in_all(numbers);
    if edges > u128::from(MAX_EDGES) {
        return Err(GridError::TooManyEdges { edges }.into());
    }
    let counts = read_counts(alloc, numbers)?;
    Ok(Index {
        counts,
        edges: edges as u64,
    })
}

impl Index {
    /// How many edges each block has, row by row.
    pub fn counts(&self) -> &[u64]
        ensures { result.now ≡ self.now }
    {
        self.counts.as_slice()
    }

    /// How many edges there are in all.
    pub fn edges(&self) -> u64
        ensures value { result ≡ sum self.now }
        ensures most { result ≤ MAX_EDGES }
    {
        self.edges
    }

    /// How many bytes the whole file has.
    pub fn expected_size(&self) -> u64
        ensures { result ≡ grid_file_size (length self.now) (sum self.now) }
    {
        HEAD_SIZE as u64
            + ENTRY_SIZE as u64 * self.counts.len() as u64
            + EDGE_SIZE as u64 * self.edges
    }
}
