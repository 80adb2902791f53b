//! Job texts of several jobs, and job texts that are refused, each in a run over the path's grid.
use crate::calls::{PATH, REPORT, RUN, check_run, run_job};
use std::test::Fail;

pub(crate) const TWO_JOBS: &[u8] = b"job a bfs 0\njob b bfs 1\n";

const TWO_REPORTS: &[u8] =
    b"job a version 0 done rounds 3\n0 0\n1 1\n2 1\n3 2\njob b version 0 done rounds 3\n0 -\n1 0\n2 1\n3 2\n";

const STOPPED: &[u8] = b"job a bfs 0 rounds 1\njob b bfs 1 rounds 3";

const STOPPED_REPORTS: &[u8] =
    b"job a version 0 failed rounds 1\njob b version 0 done rounds 3\n0 -\n1 0\n2 1\n3 2\n";

pub(crate) const ADDED_BETWEEN: &[u8] = b"job a bfs 0\nupdate\nadd 0 3 1\njob b bfs 0\n";

const ADDED_REPORTS: &[u8] =
    b"job a version 0 done rounds 3\n0 0\n1 1\n2 1\n3 2\njob b version 1 done rounds 2\n0 0\n1 1\n2 1\n3 1\n";

const CUT_BEHIND_WAIT: &[u8] = b"job a bfs 0\nwait 2\nupdate\ndel 2 3\njob b bfs 0\n";

const CUT_REPORTS: &[u8] =
    b"job a version 0 done rounds 3\n0 0\n1 1\n2 1\n3 2\njob b version 1 done rounds 2\n0 0\n1 1\n2 1\n3 -\n";

const ADDED_TO_AN_EMPTY_CHUNK: &[u8] = b"update\nadd 3 0 1\njob a bfs 3\n";

const BACK_REPORT: &[u8] = b"job a version 1 done rounds 3\n0 1\n1 2\n2 2\n3 0\n";

const FIRST_EDGE_CUT: &[u8] = b"update\ndel 0 1\njob a bfs 0\n";

const CUT_REPORT: &[u8] = b"job a version 1 done rounds 3\n0 0\n1 -\n2 1\n3 2\n";

const TWO_UPDATES: &[u8] =
    b"update\ndel 2 3\nupdate\nadd 0 3 9\nadd 3 1 2\njob a sssp 0\nupdate\njob b wcc\n";

const TWO_UPDATES_REPORTS: &[u8] =
    b"job a version 2 done rounds 3\n0 0\n1 1\n2 2\n3 9\njob b version 3 done rounds 2\n0 0\n1 0\n2 0\n3 0\n";

/// Job texts that are run, the status and the report, and how many reads the run makes. Expected values were worked out by hand.
const RUN_TEXTS: [(&[u8], u8, &[u8], u64); 11] = [
    (TWO_JOBS, 0, TWO_REPORTS, 13),
    (STOPPED, 1, STOPPED_REPORTS, 11),
    (b"wait 5\r\n\tjob a bfs 0\nwait 1", 0, REPORT, 11),
    (b"", 0, b"", 7),
    (b"# nothing\n\nwait 3\n", 0, b"", 7),
    (b"update\nadd 0 3 1\nupdate", 0, b"", 7),
    (ADDED_BETWEEN, 0, ADDED_REPORTS, 15),
    (CUT_BEHIND_WAIT, 0, CUT_REPORTS, 15),
    (ADDED_TO_AN_EMPTY_CHUNK, 0, BACK_REPORT, 11),
    (FIRST_EDGE_CUT, 0, CUT_REPORT, 10),
    (TWO_UPDATES, 0, TWO_UPDATES_REPORTS, 20),
];

#[test]
fn job_texts_are_run(rt: HostRuntime) -> Result<(), Fail> {
    for (text, status, report, reads) in RUN_TEXTS {
        check_run(&rt, RUN, PATH, text, (status, report, b""), reads)?;
    }
    Ok(())
}

/// Job texts that are refused, and what the line says behind the file's name.
const REFUSED_TEXTS: [(&[u8], &str); 9] = [
    (b"mutate del 0 1\njob a bfs 0\n", "line 1: out of place"),
    (b"job a bfs 0\nmutate add 0 4 1\n", "line 2: no such vertex"),
    (b"update\njob a bfs 4\n", "line 2: no such vertex"),
    (b"job a bfs 0\nadd 0 1 1\n", "line 2: out of place"),
    (b"job a bfs 0\n\njob a wcc\n", "line 3: name used twice"),
    (b"job a wcc\njob A wcc rounds\n", "line 2: line too short"),
    (b"job a rank 1 rounds 2\n", "line 1: line too long"),
    (b"job a! wcc\njobs b wcc\n", "line 1: bad name"),
    (b"job a rank 0\n", "line 1: bad number"),
];

#[test]
fn job_texts_are_refused(rt: HostRuntime) -> Result<(), Fail> {
    for (text, reason) in REFUSED_TEXTS {
        let line = format!(in rt.alloc(); "graphm: j.txt: {reason}\n")?;
        check_run(&rt, RUN, PATH, text, (5, b"", line.as_bytes()), 7)?;
    }
    Ok(())
}

/// So many jobs, one a line.
fn jobs_text(rt: &HostRuntime, count: u32) -> Result<String, Fail> {
    let mut text = String::new(rt.alloc());
    for job in 0..count {
        text.push_str(&format!(in rt.alloc(); "job a{job} bfs 3\n")?)?;
    }
    Ok(text)
}

#[test]
fn the_65th_job_is_refused(rt: HostRuntime) -> Result<(), Fail> {
    let line = b"graphm: j.txt: line 65: too many jobs\n";
    check_run(
        &rt,
        RUN,
        PATH,
        jobs_text(&rt, 65)?.as_bytes(),
        (5, b"", line),
        7,
    )?;
    let end = run_job(&rt, RUN, PATH, jobs_text(&rt, 64)?.as_bytes())?;
    assert_eq!(rt; end.status, 0);
    assert_eq!(rt; end.depot.reads(), 7);
    assert!(rt;
        end.out
            .written()
            .ends_with(b"job a63 version 0 done rounds 1\n0 -\n1 -\n2 -\n3 0\n"),
        "the last of 64 jobs"
    );
    Ok(())
}
