//! A journal by real calls with ample memory.

use crate::{Event, Journal, LoadCause, Tally};
use gm_base::{Key, Tag};
use std::test::Fail;

#[test]
fn a_journal_of_four_events(rt: HostRuntime) -> Result<(), Fail> {
    let mut journal = Journal::new(rt.alloc());
    assert!(rt; journal.is_empty());
    journal.reserve(4)?;
    let key = Key {
        chunk: 2,
        tag: Tag::Update(0),
    };
    let failed = Event::LoadFailed {
        chunk: 3,
        cause: LoadCause::Read,
    };
    journal.add(Event::Visit { chunk: 2 });
    journal.add(Event::Loaded { key });
    journal.add(Event::Passed { job: 0, chunk: 2 });
    journal.add(failed);
    assert!(rt; journal.len() == 4);
    assert!(rt; journal.as_slice()[3] == failed);
    let tally = Tally {
        visits: 1,
        passes: 1,
        copies: 1,
    };
    assert!(rt; journal.tally() == tally);
    Ok(())
}
