//! Sets of chunks.

ghost use Rattle.std.specs.Prelude.{◌≡◌, ◌<◌, ◌≤◌, ℕ, true, false, not, length, slice_set, replicate, IsTrue, IfOk, IfSome, IfNone};
ghost use Rattle.gm_active.specs.Bits.{is_in, any_between, NoneBetween, IsLeastBetween, members_of};

use crate::bit_set::BitSet;
use gm_base::Memory;
use std::alloc::Global;
use std::marker::Model;

/// A set of chunks of a grid, as those that a job owes in a round. Contracts see a mark for each chunk.
#[derive(Drop)]
pub struct ChunkSet {
    chunks: BitSet,
}

impl Model for ChunkSet {
    ghost use Rattle.std.specs.Prelude.{Bool, List};

    ghost Value = { List Bool };

    ghost view = { λ a. a.chunks };
}

impl ChunkSet {
    /// None of so many chunks.
    pub fn new(alloc: Global, chunks: u32) -> Result<ChunkSet, Memory>
        ensures { IfOk result (λ set. set ≡ replicate chunks false) }
    {
        let chunks = BitSet::new(alloc, chunks)?;
        Ok(ChunkSet { chunks })
    }

    /// Removes all chunks.
    pub fn clear(&mut self)
        ensures { self.new ≡ replicate (length self.old) false }
    {
        self.chunks.clear();
    }

    /// Adds a chunk.
    pub fn add(&mut self, c: u32)
        requires { c < length self.old }
        ensures { self.new ≡ slice_set self.old c true }
    {
        self.chunks.insert(c);
    }

    /// Removes a chunk.
    pub fn remove(&mut self, c: u32)
        requires { c < length self.old }
        ensures { self.new ≡ slice_set self.old c false }
    {
        self.chunks.remove(c);
    }

    /// Whether a chunk is in the set.
    pub fn has(&self, c: u32) -> bool
        requires { c < length self.now }
        ensures { result ≡ is_in self.now c }
    {
        self.chunks.has(c)
    }

    /// How many chunks the set has.
    pub fn count(&self) -> u32
        ensures { result ≡ members_of self.now }
    {
        self.chunks.count()
    }

    /// Whether the set has no chunk.
    pub fn is_empty(&self) -> bool
        ensures value { result ≡ not (any_between (is_in self.now) 0 (length self.now)) }
        ensures none { IsTrue result → (c : ℕ) → is_in self.now c ≡ false }
    {
        self.chunks.is_empty()
    }

    /// The least chunk of the set, of those from this one on and below the end. `None` exactly where there is none.
    pub fn least(&self, from: u32, to: u32) -> Option<u32>
        requires { to ≤ length self.now }
        ensures some { IfSome result (IsLeastBetween (is_in self.now) from to) }
        ensures none { IfNone result (NoneBetween (is_in self.now) from to) }
    {
        self.chunks.least(from, to)
    }
}
