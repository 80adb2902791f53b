//! The events of a run, in their order.

ghost use Rattle.std.specs.Prelude.{◌≡◌, ◌+◌, ◌-◌, ◌<◌, ◌≤◌, ◌==◌, [], ◌∷◌, ◌++◌, length, max, OnOk, OnErr};
ghost use Rattle.gm_events.specs.Journals.{tally_of};

use crate::{Event, Tally};
use gm_base::Memory;
use std::alloc::Global;
use std::marker::Model;

/// The events of a run. Contracts see them as a list, and for how many more there is room.
#[derive(Drop)]
pub struct Journal {
    events: Vec<Event>,
    tally: Tally,
}

impl Model for Journal {
    ghost use Rattle.std.specs.Prelude.{◌≡◌, ◌-◌, vec_len, vec_capacity};
    ghost use Rattle.gm_events.specs.Journals.{EventLog, tally_of};

    ghost Value = { EventLog };

    ghost view = { λ a. record { events = a.events.items; room = vec_capacity a.events - vec_len a.events } };

    ghost invariant = { λ a. a.tally ≡ tally_of a.events.items };
}

impl Journal {
    /// No events, and no room. It takes no memory yet.
    pub fn new(alloc: Global) -> Journal
        ensures events { result.events ≡ [] }
        ensures room { result.room ≡ 0 }
    {
        Journal {
            events: Vec::new(alloc),
            tally: Tally::none(),
        }
    }

    /// Makes room for so many events, where there is less. A refusal leaves the journal as it was.
    pub fn reserve(&mut self, events: usize) -> Result<(), Memory>
        ensures events { self.new.events ≡ self.old.events }
        ensures enough { OnOk result (events ≤ self.new.room) }
        ensures no_less { self.old.room ≤ self.new.room }
        ensures err { OnErr result (self.new ≡ self.old) }
    {
        self.events.reserve(events)?;
        Ok(())
    }

    /// Adds the event at the end. It takes no memory.
    pub fn add(&mut self, event: Event)
        requires { 1 ≤ self.old.room }
        ensures events { self.new.events ≡ self.old.events ++ event ∷ [] }
        ensures room { self.new.room + 1 ≡ self.old.room }
    {
        self.events.push_reserved(event);
        self.tally.count(&event);
    }

    /// How many visits, passes and copies there were.
    pub fn tally(&self) -> Tally
        ensures { result ≡ tally_of self.now.events }
    {
        self.tally
    }

    /// The events, in their order.
    pub fn as_slice(&self) -> &[Event]
        ensures { result.now ≡ self.now.events }
    {
        self.events.as_slice()
    }

    /// How many events there are.
    pub fn len(&self) -> usize
        ensures { result ≡ length self.now.events }
    {
        self.events.len()
    }

    /// Whether there are none.
    pub fn is_empty(&self) -> bool
        ensures { result ≡ (length self.now.events == 0) }
    {
        self.events.is_empty()
    }
}
