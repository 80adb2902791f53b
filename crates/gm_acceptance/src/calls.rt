//! Calls of the program over files in memory, and what they are compared with.

use gm_base::Words;
use gm_fakes::{Call, MemDepot, MemSink, NotingDepot};
use gm_outside::{Depot, OpenGate};
use gm_top::graphm;
use std::process::Abort;
use std::sync::Arc;
use std::test::Fail;

/// Four vertices in two ranges: 0 to 1, 1 to 2, 0 to 2 of weight 5, 2 to 3.
pub(crate) const PATH: &[u8] =
    b"GGRID001\x04\0\0\0\x02\0\0\0\x01\0\0\0\0\0\0\0\x02\0\0\0\0\0\0\0\0\0\0\0\0\0\0\0\x01\0\0\0\0\0\0\0\0\0\0\0\x01\0\0\0\x01\0\0\0\x01\0\0\0\x02\0\0\0\x01\0\0\0\0\0\0\0\x02\0\0\0\x05\0\0\0\x02\0\0\0\x03\0\0\0\x01\0\0\0";

pub(crate) const REPORT: &[u8] = b"job a version 0 done rounds 3\n0 0\n1 1\n2 1\n3 2\n";

pub(crate) const USAGE: &[u8] =
    b"graphm: usage: run GRID JOBS WORKERS CHUNK, build EDGES GRID N PARTS, info GRID CHUNK, drill NUMBER SCALE WORKERS\n";

/// How a call ended.
#[derive(Drop)]
pub(crate) struct End<D> {
    pub(crate) status: u8,
    pub(crate) depot: D,
    pub(crate) out: MemSink,
    pub(crate) err: MemSink,
}

/// Calls the program with words that are parted by a blank each.
pub(crate) fn call<R: AllocGlobal, D: Depot + Send>(
    rt: &R,
    words: &str,
    depot: D,
    out: MemSink,
    err: MemSink,
) -> Result<End<D>, Fail> {
    let mut all = Words::new(rt.alloc());
    for word in words.split(' ') {
        all.push(word)?;
    }
    let gate = Arc::new(rt.alloc(), OpenGate)?;
    let (mut out, mut err) = (out, err);
    let (status, depot) = graphm(rt, &all, depot, &mut out, &mut err, gate);
    Ok(End {
        status,
        depot,
        out,
        err,
    })
}

/// The same with sinks that don't fail.
pub(crate) fn call_over<R: AllocGlobal, D: Depot + Send>(
    rt: &R,
    words: &str,
    depot: D,
) -> Result<End<D>, Fail> {
    let out = MemSink::new(rt.alloc(), Vec::new(rt.alloc()));
    let err = MemSink::new(rt.alloc(), Vec::new(rt.alloc()));
    call(rt, words, depot, out, err)
}

pub(crate) fn depot_of<R: AllocGlobal>(
    rt: &R,
    grid: &[u8],
    fails: Vec<(Call, u64)>,
) -> Result<MemDepot, Fail> {
    let mut depot = MemDepot::new(rt.alloc(), fails);
    depot.put("a.grid", grid)?;
    depot.put("j.txt", b"job a bfs 0\n")?;
    depot.put("e.txt", b"0 1\n")?;
    Ok(depot)
}

/// Runs the words over these bytes as the grid.
pub(crate) fn run_over(rt: &HostRuntime, words: &str, grid: &[u8]) -> Result<End<MemDepot>, Fail> {
    call_over(rt, words, depot_of(rt, grid, Vec::new(rt.alloc()))?)
}

/// The same with these bytes as the job text.
pub(crate) fn run_job<R: AllocGlobal>(
    rt: &R,
    words: &str,
    grid: &[u8],
    text: &[u8],
) -> Result<End<MemDepot>, Fail> {
    let mut depot = depot_of(rt, grid, Vec::new(rt.alloc()))?;
    depot.put("j.txt", text)?;
    call_over(rt, words, depot)
}

/// The status of a call, and what it wrote on standard output and on standard error.
pub(crate) type Ending = (u8, &'static [u8], &'static [u8]);

/// The call ended so.
pub(crate) fn check_end<R: AllocGlobal + Abort, D>(
    rt: &R,
    end: &End<D>,
    expected: (u8, &[u8], &[u8]),
    case: &str,
) {
    let (status, out, err) = expected;
    assert_eq!(rt; end.status, status, "{case}");
    assert_eq!(rt; end.out.written(), out, "{case}");
    assert_eq!(rt; end.err.written(), err, "{case}");
}

/// Runs the job text over the grid. The call ended so, after this many reads.
pub(crate) fn check_run<R: AllocGlobal + Abort>(
    rt: &R,
    words: &str,
    grid: &[u8],
    jobs: &[u8],
    expected: (u8, &[u8], &[u8]),
    reads: u64,
) -> Result<(), Fail> {
    let end = run_job(rt, words, grid, jobs)?;
    let case = format!(in rt.alloc(); "{words} {jobs:?}")?;
    check_end(rt, &end, expected, &case);
    assert_eq!(rt; end.depot.reads(), reads, "{case}");
    Ok(())
}

/// Runs the job text over the path in chunks of one edge, where these reads fail: some job failed, and the report is this.
pub(crate) fn check_failing_reads<R: AllocGlobal + Abort>(
    rt: &R,
    failing: &[u64],
    jobs: &[u8],
    report: &[u8],
    reads: u64,
) -> Result<(), Fail> {
    let mut fails = Vec::new(rt.alloc());
    for &number in failing {
        fails.push((Call::Read, number))?;
    }
    let mut depot = depot_of(rt, PATH, fails)?;
    depot.put("j.txt", jobs)?;
    let end = call_over(rt, RUN, depot)?;
    let case = format!(in rt.alloc(); "reads {failing:?} {jobs:?}")?;
    check_end(rt, &end, (1, report, b""), &case);
    assert_eq!(rt; end.depot.reads(), reads, "{case}");
    assert_eq!(rt; end.depot.faults(), failing.len() as u64, "{case}");
    Ok(())
}

pub(crate) const RUN: &str = "run a.grid j.txt 1 1";

/// The same with chunks of any number of edges.
pub(crate) const RUN_LARGE: &str = "run a.grid j.txt 1 65536";

/// A call of a depot: its kind, the file's name, where a read begins, and how many bytes are read or appended.
pub(crate) type NotedAs = (Call, &'static str, u64, usize);

/// These calls were made one after the other, and no other one.
pub(crate) fn check_calls<R: AllocGlobal + Abort>(
    rt: &R,
    depot: &NotingDepot<MemDepot>,
    calls: &[NotedAs],
    case: &str,
) -> Result<(), Fail> {
    let noted = depot.calls().ok_or("a note was lost")?;
    assert_eq!(rt; noted.len(), calls.len(), "{case}");
    for (noted, &(kind, name, position, length)) in noted.iter().zip(calls) {
        assert_eq!(rt; noted.kind, kind, "{case}");
        assert_eq!(rt; noted.name.as_str(), name, "{case}");
        assert_eq!(rt; noted.position, position, "{case}");
        assert_eq!(rt; noted.length, length, "{case}");
    }
    Ok(())
}

/// The edge from 1 to 1 of weight 1.
pub(crate) const AT_ONE: &[u8] = b"\x01\0\0\0\x01\0\0\0\x01\0\0\0";

/// These bytes, and one byte again and again behind them, up to this length.
pub(crate) fn padded(
    rt: &HostRuntime,
    front: &[u8],
    length: usize,
    byte: u8,
) -> Result<Vec<u8>, Fail> {
    let mut bytes = front.to_vec(rt.alloc())?;
    for _ in bytes.len()..length {
        bytes.push(byte)?;
    }
    Ok(bytes)
}
