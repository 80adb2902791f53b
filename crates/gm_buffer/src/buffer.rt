//! The copies that are held, each with its riders.

ghost use Rattle.std.specs.Prelude.{◌≡◌, ◌<◌, ◌↔◌, [], length, Some, IfOk, IfSome, IsTrue, OnOk, OnErr};
ghost use Rattle.std.specs.List.{position};
ghost use Rattle.std.specs.Arc.{arc_value};
ghost use Rattle.gm_buffer.specs.Holdings.{riders_under, copy_under, is_under, Puts, Passes};

use crate::slot::Slot;
use gm_base::{ChunkCopy, Edges, Key, Memory};
use std::alloc::Global;
use std::marker::Model;
use std::sync::Arc;

/// At most one copy a key, each with the jobs that still have to pass it, its riders.
#[derive(Drop)]
pub struct Buffer {
    alloc: Global,
    slots: Vec<Slot>,
}

impl Model for Buffer {
    ghost use Rattle.std.specs.Prelude.{List};
    ghost use Rattle.gm_buffer.specs.Holdings.{Held, IsKept};

    ghost Value = { List Held };

    ghost view = { λ a. a.slots.items };

    ghost invariant = { λ a. IsKept a.slots.items };
}

impl Buffer {
    /// No copies. It takes no memory yet.
    pub fn new(alloc: Global) -> Buffer
        ensures { result ≡ [] }
    {
        Buffer {
            alloc,
            slots: Vec::new(alloc),
        }
    }

    /// Whether the copy of this key is held.
    pub fn holds(&self, key: Key) -> bool
        ensures { IsTrue result ↔ (0 < length (riders_under key self.now)) }
    {
        place_of(&self.slots, key).is_some()
    }

    /// Holds a copy for its riders. A refusal leaves the buffer as it was.
    pub fn put(&mut self, copy: ChunkCopy, riders: Vec<u32>) -> Result<(), Memory>
        requires fresh { riders_under copy.key self.old ≡ [] }
        requires ridden { 0 < length riders.items }
        ensures ok { OnOk result (Puts copy riders.items self.old self.new) }
        ensures err { OnErr result (self.new ≡ self.old) }
    {
        let slot = Slot::new(self.alloc, copy, riders)?;
        self.slots.insert(0, slot)?;
        Ok(())
    }

    /// A share of the copy of this key.
    pub fn give(&self, key: Key) -> Result<Arc<ChunkCopy>, Memory>
        requires { 0 < length (riders_under key self.now) }
        ensures { IfOk result (λ share. copy_under key self.now ≡ Some (arc_value share)) }
    {
        let place = place_of(&self.slots, key).unwrap();
        self.slots[place].share()
    }

    /// Takes a job off the riders of the copy of this key, and the copy out with its last rider.
    pub fn passed(&mut self, key: Key, job: u32)
        ensures { Passes key job self.old self.new }
    {
        let _room = self.reclaim(key, job);
    }

    /// Does the same, and hands the copy's edges out where it went with its last rider and no share of it is out, so that the
    /// next load can use their room. While a share is out, or another job still has to pass the copy, it hands out none.
    pub fn reclaim(&mut self, key: Key, job: u32) -> Option<Edges>
        ensures passes { Passes key job self.old self.new }
        ensures room { IfSome result (λ edges.
            copy_under key self.old ≡ Some (record { key = key; edges = edges })) }
        ensures last { IfSome result (λ edges. riders_under key self.new ≡ []) }
    {
        let place = place_of(&self.slots, key)?;
        if self.slots[place].leave(job) {
            self.slots.remove(place).into_edges()
        } else {
            None
        }
    }
}

/// The place of the copy of a key.
fn place_of(slots: &[Slot], key: Key) -> Option<usize>
    ensures { result ≡ position (is_under key) slots.now }
{
    slots.iter().position(|slot| slot.key() == key)
}
