//! The updates of a grid.

ghost use Rattle.std.specs.Prelude.{◌≡◌, ◌-◌, ◌<◌, ◌≤◌, [], ◌∷◌, ◌++◌, length, slice_index_or, OnOk, OnErr};
ghost use Rattle.gm_base.specs.declared.limits.TheConstants.{MAX_CHANGES};

use gm_base::Memory;
use gm_changes::{Change, Changes};
use std::alloc::Global;
use std::marker::Model;

/// The changes of each update, in order: not more updates than a job file has changes.
#[derive(Drop)]
pub(crate) struct Batches {
    list: Vec<Changes>,
}

impl Model for Batches {
    ghost use Rattle.std.specs.Prelude.{◌≤◌, List, length};
    ghost use Rattle.gm_base.specs.declared.limits.TheConstants.{MAX_CHANGES};
    ghost use Rattle.gm_changes.specs.declared.change.Change.{Change as AnyChange};

    ghost Value = { List (List AnyChange) };

    ghost view = { λ a. a.list.items };

    ghost invariant = { λ a. length a.list.items ≤ MAX_CHANGES };
}

impl Batches {
    /// No updates.
    pub(crate) fn new(alloc: Global) -> Batches
        ensures { result ≡ [] }
    {
        Batches {
            list: Vec::new(alloc),
        }
    }

    /// How many updates there are.
    pub(crate) fn len(&self) -> u32
        ensures value { result ≡ length self.now }
        ensures few { result ≤ MAX_CHANGES }
    {
        self.list.len() as u32
    }

    /// Adds the next update. A refusal leaves all as it was.
    pub(crate) fn push(&mut self, batch: Changes) -> Result<(), Memory>
        requires { length self.old < MAX_CHANGES }
        ensures ok { OnOk result (self.new ≡ self.old ++ batch ∷ []) }
        ensures err { OnErr result (self.new ≡ self.old) }
    {
        self.list.push(batch)?;
        Ok(())
    }

    /// The changes of one update, counted from 1.
    pub(crate) fn get(&self, update: u32) -> &[Change]
        requires some { 1 ≤ update }
        requires within { update ≤ length self.now }
        ensures { result.now ≡ slice_index_or self.now (update - 1) [] }
    {
        self.list[update as usize - 1].as_slice()
    }
}
