//! Words and files that are refused, and exactly which calls are made.
use crate::calls::{
    NotedAs, PATH, USAGE, call_over, check_calls, check_end, depot_of, padded, run_over,
};
use crate::grids::cut_at;
use crate::jobs::TWO_JOBS;
use gm_fakes::{Call, NotingDepot};
use std::test::Fail;

/// Words, the status that they end with, and their line.
const REFUSED: [(&str, u8, &[u8]); 12] = [
    ("run b.grid j.txt 1 1", 3, b"graphm: b.grid: no such file\n"),
    (
        "run a.grid b.txt 1 65536",
        3,
        b"graphm: b.txt: no such file\n",
    ),
    (
        "run a.grid a.grid 1 1",
        5,
        b"graphm: a.grid: line 1: unknown word\n",
    ),
    (
        "run j.txt j.txt 1 1",
        4,
        b"graphm: j.txt: size 12, expected 16\n",
    ),
    ("run a.grid j.txt 0 1", 2, USAGE),
    ("run a.grid j.txt 2 1", 2, USAGE),
    ("run a.grid j.txt 1 0", 2, USAGE),
    ("run a.grid j.txt 1 65537", 2, USAGE),
    ("run  j.txt 1 1", 2, USAGE),
    ("run a.grid -j.txt 1 1", 2, USAGE),
    ("ruN a.grid j.txt 1 1", 2, USAGE),
    ("", 2, USAGE),
];

#[test]
fn words_and_files_are_refused(rt: HostRuntime) -> Result<(), Fail> {
    for (words, status, line) in REFUSED {
        let end = run_over(&rt, words, PATH)?;
        check_end(&rt, &end, (status, b"", line), words);
    }
    Ok(())
}

/// Words, a job text in `t.txt`, the calls that are made of them, and the status.
const EXACT_CALLS: [(&str, &[u8], &[NotedAs], u8); 9] = [
    (
        "run b.grid t.txt 1 1",
        b"",
        &[(Call::Size, "b.grid", 0, 0)],
        3,
    ),
    (
        "run cut.grid t.txt 1 1",
        b"",
        &[
            (Call::Size, "cut.grid", 0, 0),
            (Call::Read, "cut.grid", 0, 16),
            (Call::Read, "cut.grid", 16, 32),
        ],
        4,
    ),
    (
        "run a.grid b.txt 1 65536",
        b"",
        &[
            (Call::Size, "a.grid", 0, 0),
            (Call::Read, "a.grid", 0, 16),
            (Call::Read, "a.grid", 16, 32),
            (Call::Read, "a.grid", 48, 12),
            (Call::Read, "a.grid", 60, 24),
            (Call::Read, "a.grid", 84, 12),
            (Call::Size, "b.txt", 0, 0),
        ],
        3,
    ),
    (
        "run a.grid t.txt 1 65536",
        b"0 1\n",
        &[
            (Call::Size, "a.grid", 0, 0),
            (Call::Read, "a.grid", 0, 16),
            (Call::Read, "a.grid", 16, 32),
            (Call::Read, "a.grid", 48, 12),
            (Call::Read, "a.grid", 60, 24),
            (Call::Read, "a.grid", 84, 12),
            (Call::Size, "t.txt", 0, 0),
            (Call::Read, "t.txt", 0, 4),
        ],
        5,
    ),
    (
        "build b.txt b.grid 4 2",
        b"",
        &[(Call::Size, "b.txt", 0, 0)],
        3,
    ),
    (
        "build t.txt b.grid 4 2",
        b"job a bfs 0",
        &[(Call::Size, "t.txt", 0, 0), (Call::Read, "t.txt", 0, 11)],
        4,
    ),
    ("run a.grid t.txt 2 1", b"", &[], 2),
    // two jobs that are done: nothing is asked again between them
    (
        "run a.grid t.txt 1 1",
        TWO_JOBS,
        &[
            (Call::Size, "a.grid", 0, 0),
            (Call::Read, "a.grid", 0, 16),
            (Call::Read, "a.grid", 16, 32),
            (Call::Read, "a.grid", 48, 12),
            (Call::Read, "a.grid", 60, 12),
            (Call::Read, "a.grid", 72, 12),
            (Call::Read, "a.grid", 84, 12),
            (Call::Size, "t.txt", 0, 0),
            (Call::Read, "t.txt", 0, 24),
            (Call::Read, "a.grid", 48, 12),
            (Call::Read, "a.grid", 72, 12),
            (Call::Read, "a.grid", 60, 12),
            (Call::Read, "a.grid", 84, 12),
            (Call::Read, "a.grid", 60, 12),
            (Call::Read, "a.grid", 84, 12),
        ],
        0,
    ),
    // an edge list of two pieces, with an edge in each
    (
        "build long.txt b.grid 4 2",
        b"",
        &[
            (Call::Size, "long.txt", 0, 0),
            (Call::Read, "long.txt", 0, 65_536),
            (Call::Read, "long.txt", 65_536, 4_464),
            (Call::Create, "b.grid", 0, 0),
            (Call::Append, "b.grid", 0, 72),
        ],
        0,
    ),
];

/// An edge list of 70,000 bytes: an edge, empty lines, and an edge.
fn long_list(rt: &HostRuntime) -> Result<Vec<u8>, Fail> {
    let mut list = padded(rt, b"0 1\n", 69_996, b'\n')?;
    list.extend_from_slice(b"2 3\n")?;
    Ok(list)
}

#[test]
fn calls_are_made_one_after_the_other(rt: HostRuntime) -> Result<(), Fail> {
    for (words, jobs, calls, status) in EXACT_CALLS {
        let mut depot = depot_of(&rt, PATH, Vec::new(rt.alloc()))?;
        depot.put("t.txt", jobs)?;
        depot.put("cut.grid", cut_at(95))?;
        depot.put("long.txt", &long_list(&rt)?)?;
        let end = call_over(&rt, words, NotingDepot::new(rt.alloc(), depot))?;
        check_calls(&rt, &end.depot, calls, words)?;
        assert_eq!(rt; end.status, status, "{words}");
    }
    Ok(())
}
