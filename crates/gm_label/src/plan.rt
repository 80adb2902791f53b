//! Cutting a grid into chunks.

ghost use Rattle.std.specs.Prelude.{◌≡◌, ◌+◌, ◌-◌, ◌/◌, ◌*◌, ◌<◌, ◌≤◌, ◌++◌, length, sum, IfOk, OnOk};
ghost use Rattle.gm_base.specs.declared.limits.TheConstants.{MAX_EDGES, MAX_PARTS, MAX_CHUNKS};
ghost use Rattle.gm_base.specs.ChunkCounts.{chunk_count};
ghost use Rattle.gm_label.specs.Chunks.{chunks_of_block, chunks_of};
ghost use Rattle.gm_label.specs.Stored.{firsts_from};
ghost use Rattle.gm_label.specs.declared.plan.PlanError.TheVariants as PlanErrors;

use crate::chunk::Place;
use gm_base::Memory;
use std::alloc::Global;

/// Why a grid has no catalogue.
#[derive(Clone, Copy, Debug, PartialEq, Eq)]
pub enum PlanError {
    /// It would have so many chunks, more than [`gm_base::MAX_CHUNKS`].
    TooManyChunks { chunks: u64 },
    /// There was no memory for it.
    Memory,
}

impl From<Memory> for PlanError {
    ghost from_gives = { λ _ error. error ≡ PlanErrors.Memory };

    fn from(_error: Memory) -> PlanError {
        PlanError::Memory
    }
}

/// How many chunks blocks of so many edges have.
pub(crate) fn chunk_count(counts: &[u64], chunk_size: u32) -> u64
    requires blocks { length counts.now ≤ MAX_PARTS * MAX_PARTS }
    requires few { sum counts.now ≤ MAX_EDGES }
    requires size { 1 ≤ chunk_size }
    ensures { result ≡ chunk_count chunk_size counts.now }
{
    let mut chunks = 0;
    for &count in counts {
        chunks += count.saturating_sub(1) / u64::from(chunk_size) + 1;
    }
    chunks
}

/// Cuts a block of so many edges into chunks. Its first edge has this number in the grid.
pub(crate) fn push_block(
    places: &mut Vec<Place>,
    chunk_size: u32,
    block: u32,
    first: u32,
    count: u32,
) -> Result<(), Memory>
    requires size { 1 ≤ chunk_size }
    requires few { first + count ≤ MAX_EDGES }
    ensures { OnOk result (places.new.items ≡ places.old.items ++ chunks_of_block chunk_size block first count) }
{
    let before = count.saturating_sub(1) / chunk_size;
    let rest = count - chunk_size * before;
    let mut at = first;
    for full in 0..before {
        places.push(Place {
            block,
            first: at,
            count: chunk_size,
            is_last: false,
        })?;
        at += chunk_size;
    }
    places.push(Place {
        block,
        first: at,
        count: rest,
        is_last: true,
    })?;
    Ok(())
}

/// Cuts blocks of so many edges into chunks, of which there are so many, and tells where each block's chunks begin and where all
/// end.
pub(crate) fn cut_blocks(
    alloc: Global,
    counts: &[u64],
    chunk_size: u32,
    chunks: usize,
) -> Result<(Vec<Place>, Vec<u32>), Memory>
    requires blocks { length counts.now ≤ MAX_PARTS * MAX_PARTS }
    requires few { sum counts.now ≤ MAX_EDGES }
    requires size { 1 ≤ chunk_size }
    requires chunks { chunks ≡ length (chunks_of chunk_size counts.now) }
    requires most { chunks ≤ MAX_CHUNKS }
    ensures places { IfOk result (λ cut. cut.0.items ≡ chunks_of chunk_size counts.now) }
    ensures firsts { IfOk result (λ cut. cut.1.items ≡ firsts_from chunk_size 0 counts.now) }
{
    let mut places = Vec::with_capacity(alloc, chunks)?;
    let mut firsts = Vec::with_capacity(alloc, counts.len() + 1)?;
    let mut at = 0u32;
    for (block, &count) in counts.iter().enumerate() {
        firsts.push(places.len() as u32)?;
        push_block(&mut places, chunk_size, block as u32, at, count as u32)?;
        at += count as u32;
    }
    firsts.push(places.len() as u32)?;
    Ok((places, firsts))
}
