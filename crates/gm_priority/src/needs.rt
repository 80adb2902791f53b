//! The blocks that a job needs.

ghost use Rattle.std.specs.Prelude.{◌≡◌, ◌<◌, false, true, length, replicate, slice_set, IfOk};
ghost use Rattle.gm_priority.specs.Priority.{has, blocks_in};

use gm_base::Memory;
use std::alloc::Global;
use std::marker::Model;

/// The blocks in which a job needs a chunk. Contracts see whether it does, for each block.
#[derive(Drop)]
pub struct JobNeeds {
    blocks: Vec<bool>,
    count: u64,
}

impl Model for JobNeeds {
    ghost use Rattle.std.specs.Prelude.{◌≡◌, Bool, List};
    ghost use Rattle.gm_priority.specs.Priority.{blocks_in};

    ghost Value = { List Bool };

    ghost view = { λ a. a.blocks.items };

    ghost invariant = { λ a. a.count ≡ blocks_in a.blocks.items };
}

impl JobNeeds {
    /// None of so many blocks.
    pub fn new(alloc: Global, blocks: u32) -> Result<JobNeeds, Memory>
        ensures { IfOk result (λ row. row ≡ replicate blocks false) }
    {
        let blocks = vec![in alloc; false; blocks as usize]?;
        Ok(JobNeeds { blocks, count: 0 })
    }

    /// Adds a block.
    pub fn mark(&mut self, block: u32)
        requires { block < length self.old }
        ensures { self.new ≡ slice_set self.old block true }
    {
        if !self.has(block) {
            self.blocks[block as usize] = true;
            self.count += 1;
        }
    }

    /// Removes all blocks.
    pub fn clear(&mut self)
        ensures { self.new ≡ replicate (length self.old) false }
    {
        self.blocks.as_mut_slice().fill(false);
        self.count = 0;
    }

    /// Whether the job needs a block.
    pub fn has(&self, block: u32) -> bool
        requires { block < length self.now }
        ensures { result ≡ has block self.now }
    {
        self.blocks[block as usize]
    }

    /// How many blocks the job needs.
    pub fn count(&self) -> u64
        ensures { result ≡ blocks_in self.now }
    {
        self.count
    }
}
