//! One copy and its riders.

ghost use Rattle.std.specs.Prelude.{◌≡◌, ◌==◌, length, IfOk, IfSome};
ghost use Rattle.std.specs.Arc.{arc_value};
ghost use Rattle.gm_buffer.specs.Holdings.{without};

use gm_base::{ChunkCopy, Edges, Key, Memory};
use std::alloc::Global;
use std::marker::Model;
use std::sync::Arc;

/// A copy, and the jobs that still have to pass it.
#[derive(Drop)]
pub(crate) struct Slot {
    copy: Arc<ChunkCopy>,
    riders: Vec<u32>,
}

impl Model for Slot {
    ghost use Rattle.std.specs.Arc.{arc_value};
    ghost use Rattle.gm_buffer.specs.Holdings.{Held};

    ghost Value = { Held };

    ghost view = { λ a. record { copy = arc_value a.copy; riders = a.riders.items } };
}

impl Slot {
    /// A copy with its riders.
    pub fn new(alloc: Global, copy: ChunkCopy, riders: Vec<u32>) -> Result<Slot, Memory>
        ensures { IfOk result (λ slot. slot ≡ record { copy = copy; riders = riders.items }) }
    {
        let copy = Arc::new(alloc, copy)?;
        Ok(Slot { copy, riders })
    }

    /// The copy's key.
    pub fn key(&self) -> Key
        ensures { result ≡ self.now.copy.key }
    {
        self.copy.key
    }

    /// A share of the copy.
    pub fn share(&self) -> Result<Arc<ChunkCopy>, Memory>
        ensures { IfOk result (λ share. arc_value share ≡ self.now.copy) }
    {
        Ok(Arc::try_clone(&self.copy)?)
    }

    /// Takes a job off the riders, and says whether there is none left.
    pub fn leave(&mut self, job: u32) -> bool
        ensures left { self.new ≡ record { copy = self.old.copy; riders = without job self.old.riders } }
        ensures last { result ≡ (length self.new.riders == 0) }
    {
        self.riders.retain(|&rider| rider != job);
        self.riders.is_empty()
    }

    /// The copy's edges, unless a share is out.
    pub fn into_edges(self) -> Option<Edges>
        ensures { IfSome result (λ edges. edges ≡ self.copy.edges) }
    {
        let copy = Arc::into_inner(self.copy)?;
        Some(copy.edges)
    }
}
