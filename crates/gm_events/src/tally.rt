//! How much was done in a run.

ghost use Rattle.std.specs.Prelude.{◌≡◌, ◌+◌, ◌^◌, ◌<◌, []};
ghost use Rattle.gm_events.specs.Journals.{tally_of, with_event};

use crate::Event;

/// How many visits there were, how many passes over chunks, and how many copies came into memory.
#[derive(Clone, Copy, Debug, PartialEq, Eq)]
pub struct Tally {
    pub visits: u64,
    pub passes: u64,
    pub copies: u64,
}

impl Tally {
    /// Nothing was done.
    pub(crate) fn none() -> Tally
        ensures { result ≡ tally_of [] }
    {
        Tally {
            visits: 0,
            passes: 0,
            copies: 0,
        }
    }

    /// Counts one event more.
    pub(crate) fn count(&mut self, event: &Event)
        requires visits { self.old.visits + 1 < 2 ^ 64 }
        requires passes { self.old.passes + 1 < 2 ^ 64 }
        requires copies { self.old.copies + 1 < 2 ^ 64 }
        ensures { self.new ≡ with_event self.old event.now }
    {
        match event {
            Event::Visit { .. } => self.visits += 1,
            Event::Passed { .. } => self.passes += 1,
            Event::Loaded { .. } => self.copies += 1,
            _ => {}
        }
    }
}
