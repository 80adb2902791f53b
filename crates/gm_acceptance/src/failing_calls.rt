//! Each call on the depot, and a write to each sink, failing in turn.
use crate::calls::{
    Ending, NotedAs, PATH, REPORT, RUN, call, call_over, check_calls, check_end,
    check_failing_reads, depot_of,
};
use gm_fakes::{Call, MemSink, NotingDepot};
use std::process::Abort;
use std::test::Fail;

/// The opening, the job text, and in two rounds the chunks 0 and 2, and then 1 and 4.
const RUN_CALLS: [NotedAs; 13] = [
    (Call::Size, "a.grid", 0, 0),
    (Call::Read, "a.grid", 0, 16),
    (Call::Read, "a.grid", 16, 32),
    (Call::Read, "a.grid", 48, 12),
    (Call::Read, "a.grid", 60, 12),
    (Call::Read, "a.grid", 72, 12),
    (Call::Read, "a.grid", 84, 12),
    (Call::Size, "j.txt", 0, 0),
    (Call::Read, "j.txt", 0, 12),
    (Call::Read, "a.grid", 48, 12),
    (Call::Read, "a.grid", 72, 12),
    (Call::Read, "a.grid", 60, 12),
    (Call::Read, "a.grid", 84, 12),
];

const BUILD: &str = "build e.txt b.grid 4 2";

const BUILD_CALLS: [NotedAs; 4] = [
    (Call::Size, "e.txt", 0, 0),
    (Call::Read, "e.txt", 0, 4),
    (Call::Create, "b.grid", 0, 0),
    (Call::Append, "b.grid", 0, 60),
];

/// Does what the words say where the call of this kind and number fails. As many of the calls as stand here are made, and no other one.
fn check_failing<R: AllocGlobal + Abort>(
    rt: &R,
    words: &str,
    calls: &[NotedAs],
    fails: (Call, u64),
    ending: Ending,
) -> Result<(), Fail> {
    let case = format!(in rt.alloc(); "{words} {fails:?}")?;
    let depot = depot_of(rt, PATH, vec![in rt.alloc(); fails]?)?;
    let end = call_over(rt, words, NotingDepot::new(rt.alloc(), depot))?;
    check_end(rt, &end, ending, &case);
    check_calls(rt, &end.depot, calls, &case)?;
    let faults = if ending.0 == 0 { 0 } else { 1 };
    assert_eq!(rt; end.depot.depot().faults(), faults, "{case}");
    Ok(())
}

const DONE: Ending = (0, REPORT, b"");

const GRID_FAILED: Ending = (6, b"", b"graphm: a.grid: read failed\n");

const JOBS_FAILED: Ending = (6, b"", b"graphm: j.txt: read failed\n");

/// A chunk that can't be read ends the job: the first one of block 0, those of block 1, and the last one.
const READ_FAILED_0: Ending = (1, b"job a version 0 failed read 0 0\n", b"");

const READ_FAILED_1: Ending = (1, b"job a version 0 failed read 1 1\n", b"");

const READ_FAILED_2: Ending = (1, b"job a version 0 failed read 1 2\n", b"");

const READ_FAILED_4: Ending = (1, b"job a version 0 failed read 3 4\n", b"");

/// A call that fails, or would if it were made, how many calls are made then, and how the run ends.
const FAILING_RUNS: [(Call, u64, usize, Ending); 15] = [
    (Call::Size, 1, 1, GRID_FAILED),
    (Call::Read, 1, 2, GRID_FAILED),
    (Call::Read, 2, 3, GRID_FAILED),
    (Call::Read, 3, 4, GRID_FAILED),
    (Call::Read, 4, 5, GRID_FAILED),
    (Call::Read, 5, 6, GRID_FAILED),
    (Call::Read, 6, 7, GRID_FAILED),
    (Call::Size, 2, 8, JOBS_FAILED),
    (Call::Read, 7, 9, JOBS_FAILED),
    (Call::Read, 8, 10, READ_FAILED_0),
    (Call::Read, 9, 11, READ_FAILED_2),
    (Call::Read, 10, 12, READ_FAILED_1),
    (Call::Read, 11, 13, READ_FAILED_4),
    (Call::Read, 12, 13, DONE),
    (Call::Size, 3, 13, DONE),
];

#[test]
fn each_call_of_a_run_fails_in_turn(rt: HostRuntime) -> Result<(), Fail> {
    for (kind, number, made, ending) in FAILING_RUNS {
        let calls = RUN_CALLS.get(..made).ok_or("more calls than a run makes")?;
        check_failing(&rt, RUN, calls, (kind, number), ending)?;
    }
    Ok(())
}

/// The block and the chunk of each fetch of a job `wcc`: four in each of two rounds, and three in the last one.
const FETCHES: [(u32, u32); 11] = [
    (0, 0),
    (1, 1),
    (1, 2),
    (3, 4),
    (0, 0),
    (1, 1),
    (1, 2),
    (3, 4),
    (1, 1),
    (1, 2),
    (3, 4),
];

/// In each round the chunks are fetched in the order of their numbers: a read that fails tells which one it was to be.
#[test]
fn the_least_owed_chunk_is_fetched(rt: HostRuntime) -> Result<(), Fail> {
    for (read, (block, chunk)) in (8..19_u64).zip(FETCHES) {
        let line = format!(in rt.alloc(); "job a version 0 failed read {block} {chunk}\n")?;
        check_failing_reads(&rt, &[read], b"job a wcc", line.as_bytes(), read)?;
    }
    Ok(())
}

const EDGES_FAILED: Ending = (6, b"", b"graphm: e.txt: read failed\n");

const BUILD_FAILED: Ending = (6, b"", b"graphm: b.grid: write failed\n");

const BUILT: Ending = (0, b"edges 1 blocks 4\n", b"");

/// The same for a build.
const FAILING_BUILDS: [(Call, u64, usize, Ending); 8] = [
    (Call::Size, 1, 1, EDGES_FAILED),
    (Call::Read, 1, 2, EDGES_FAILED),
    (Call::Create, 1, 3, BUILD_FAILED),
    (Call::Append, 1, 4, BUILD_FAILED),
    (Call::Size, 2, 4, BUILT),
    (Call::Read, 2, 4, BUILT),
    (Call::Create, 2, 4, BUILT),
    (Call::Append, 2, 4, BUILT),
];

#[test]
fn each_call_of_a_build_fails_in_turn(rt: HostRuntime) -> Result<(), Fail> {
    for (kind, number, made, ending) in FAILING_BUILDS {
        check_failing(&rt, BUILD, &BUILD_CALLS[..made], (kind, number), ending)?;
    }
    Ok(())
}

#[test]
fn a_sink_fails_at_its_first_write(rt: HostRuntime) -> Result<(), Fail> {
    for count in [0, 10, 45] {
        let depot = depot_of(&rt, PATH, Vec::new(rt.alloc()))?;
        let out = MemSink::new(rt.alloc(), vec![in rt.alloc(); (1, count)]?);
        let err = MemSink::new(rt.alloc(), Vec::new(rt.alloc()));
        let end = call(&rt, RUN, depot, out, err)?;
        assert_eq!(rt; end.status, 7);
        assert_eq!(rt; end.out.written().len(), count);
        assert!(rt; REPORT.starts_with(end.out.written()));
        assert_eq!(rt; end.err.written(), b"graphm: output failed\n".as_slice());
    }
    let depot = depot_of(&rt, PATH, vec![in rt.alloc(); (Call::Read, 1)]?)?;
    let out = MemSink::new(rt.alloc(), Vec::new(rt.alloc()));
    let err = MemSink::new(rt.alloc(), vec![in rt.alloc(); (1, 12)]?);
    let end = call(&rt, RUN, depot, out, err)?;
    assert_eq!(rt; end.status, 6);
    assert_eq!(rt; end.err.written(), b"graphm: a.gr".as_slice());
    assert_eq!(rt; end.out.written().len(), 0);
    Ok(())
}
