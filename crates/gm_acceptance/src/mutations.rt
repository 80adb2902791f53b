//! Jobs with changes of their own, alone and beside others.
use crate::calls::{PATH, RUN, RUN_LARGE, check_end, check_run, run_job};
use std::test::Fail;

/// Two vertices, and two equal edges from 0 to 1.
const TWICE: &[u8] =
    b"GGRID001\x02\0\0\0\x01\0\0\0\x02\0\0\0\0\0\0\0\0\0\0\0\x01\0\0\0\x01\0\0\0\0\0\0\0\x01\0\0\0\x01\0\0\0";

pub(crate) const CUT_BY_THE_SECOND: &[u8] = b"job a bfs 0\njob b bfs 0\nmutate del 0 1";

const CUT_REPORTS: &[u8] =
    b"job a version 0 done rounds 3\n0 0\n1 1\n2 1\n3 2\njob b version 0 done rounds 3\n0 0\n1 -\n2 1\n3 2\n";

/// The third job has no changes: it sees none of the others'.
const TWO_MUTATE: &[u8] = b"job a bfs 0\nmutate del 0 1\njob b bfs 0\nmutate del 0 2\njob c bfs 0";

const TWO_MUTATE_REPORTS: &[u8] =
    b"job a version 0 done rounds 3\n0 0\n1 -\n2 1\n3 2\njob b version 0 done rounds 4\n0 0\n1 1\n2 2\n3 3\njob c version 0 done rounds 3\n0 0\n1 1\n2 1\n3 2\n";

/// What the first job adds to a version, the next version hasn't.
const BETWEEN_UPDATES: &[u8] =
    b"update\ndel 0 1\njob a sssp 0\nmutate add 0 1 7\nupdate\nadd 0 3 1\njob b sssp 0";

const BETWEEN_REPORTS: &[u8] =
    b"job a version 1 done rounds 3\n0 0\n1 7\n2 5\n3 6\njob b version 2 done rounds 2\n0 0\n1 -\n2 5\n3 1\n";

/// The cut takes the update's edge and the job's own one.
const CUT_OVER_ADDED: &[u8] =
    b"update\nadd 3 1 2\njob a sssp 3\nmutate add 3 1 1\nmutate del 3 1\nmutate add 3 0 4";

const CUT_OVER_ADDED_REPORT: &[u8] = b"job a version 1 done rounds 4\n0 4\n1 5\n2 6\n3 0\n";

/// Vertex 0 has one edge for the first job, and three for the second one.
const OTHER_DEGREES: &[u8] =
    b"update\ndel 0 2\njob a rank 1\njob b rank 1\nmutate add 0 2 9\nmutate add 0 2 1";

const OTHER_DEGREES_REPORTS: &[u8] =
    b"job a version 1 done rounds 1\n0 150000000\n1 1000000000\n2 1000000000\n3 1000000000\njob b version 1 done rounds 1\n0 150000000\n1 433333333\n2 1566666666\n3 1000000000\n";

/// A grid, a job text over it, the status, how many reads are made with chunks of one edge and with large ones, and the report. Expected
/// values were worked out by hand.
const MUTATIONS: [(&[u8], &[u8], u8, [u64; 2], &[u8]); 12] = [
    (PATH, CUT_BY_THE_SECOND, 0, [14, 13], CUT_REPORTS),
    (PATH, TWO_MUTATE, 0, [18, 17], TWO_MUTATE_REPORTS),
    (PATH, BETWEEN_UPDATES, 0, [14, 13], BETWEEN_REPORTS),
    (PATH, CUT_OVER_ADDED, 0, [12, 11], CUT_OVER_ADDED_REPORT),
    (PATH, OTHER_DEGREES, 0, [23, 18], OTHER_DEGREES_REPORTS),
    // both edges go
    (
        TWICE,
        b"job a bfs 0\nmutate del 0 1",
        0,
        [7, 5],
        b"job a version 0 done rounds 1\n0 0\n1 -\n",
    ),
    // the degree of 0 is 1
    (
        PATH,
        b"job a rank 1\nmutate del 0 2",
        0,
        [15, 12],
        b"job a version 0 done rounds 1\n0 150000000\n1 1000000000\n2 1000000000\n3 1000000000\n",
    ),
    (
        PATH,
        b"update\nadd 0 3 1\njob a bfs 0\nmutate del 0 3",
        0,
        [11, 10],
        b"job a version 1 done rounds 3\n0 0\n1 1\n2 1\n3 2\n",
    ),
    // an edge in a chunk that has none in the file
    (
        PATH,
        b"job a sssp 3\nmutate add 3 0 2",
        0,
        [12, 11],
        b"job a version 0 done rounds 4\n0 2\n1 3\n2 4\n3 0\n",
    ),
    (
        PATH,
        b"job a rank 2\nmutate add 3 0 1",
        0,
        [19, 15],
        b"job a version 0 done rounds 2\n0 1000000000\n1 575000000\n2 1063750000\n3 1361250000\n",
    ),
    (
        PATH,
        b"job a wcc\nmutate del 0 1\nmutate del 0 2",
        0,
        [17, 13],
        b"job a version 0 done rounds 3\n0 0\n1 1\n2 1\n3 1\n",
    ),
    (
        PATH,
        b"job a sssp 0 rounds 3\nmutate del 0 2",
        1,
        [11, 10],
        b"job a version 0 failed rounds 3\n",
    ),
];

#[test]
fn jobs_see_their_own_changes(rt: HostRuntime) -> Result<(), Fail> {
    for (grid, text, status, reads, report) in MUTATIONS {
        check_run(&rt, RUN, grid, text, (status, report, b""), reads[0])?;
        check_run(&rt, RUN_LARGE, grid, text, (status, report, b""), reads[1])?;
    }
    Ok(())
}

#[test]
fn each_of_64_jobs_has_its_own_changes(rt: HostRuntime) -> Result<(), Fail> {
    let mut text = String::new(rt.alloc());
    let mut report = String::new(rt.alloc());
    for job in 0..64_u32 {
        text.push_str(&format!(in rt.alloc();
            "job a{job} sssp 3\nmutate add 3 1 {job}\nmutate del 1 2\n"
        )?)?;
        report.push_str(&format!(in rt.alloc();
            "job a{job} version 0 done rounds 2\n0 -\n1 {job}\n2 -\n3 0\n"
        )?)?;
    }
    let end = run_job(&rt, RUN, PATH, text.as_bytes())?;
    check_end(&rt, &end, (0, report.as_bytes(), b""), "64 jobs");
    Ok(())
}
