//! Each kind of job over small grids.
use crate::calls::{PATH, REPORT, RUN, RUN_LARGE, check_run};
use std::test::Fail;

const DISTANCES: &[u8] = b"job a version 0 done rounds 4\n0 0\n1 1\n2 2\n3 3\n";

/// Four vertices, where vertex 1 is joined to the others only against the direction of edges.
const CROSSED: &[u8] =
    b"GGRID001\x04\0\0\0\x02\0\0\0\0\0\0\0\0\0\0\0\x01\0\0\0\0\0\0\0\x01\0\0\0\0\0\0\0\x01\0\0\0\0\0\0\0\x01\0\0\0\x02\0\0\0\x01\0\0\0\x03\0\0\0\0\0\0\0\x01\0\0\0\x03\0\0\0\x02\0\0\0\x01\0\0\0";

/// One vertex.
const ALONE: &[u8] = b"GGRID001\x01\0\0\0\x01\0\0\0\0\0\0\0\0\0\0\0";

/// A path of three vertices over edges of the greatest weight.
const HEAVY: &[u8] =
    b"GGRID001\x03\0\0\0\x01\0\0\0\x02\0\0\0\0\0\0\0\0\0\0\0\x01\0\0\0\xff\xff\xff\xff\x01\0\0\0\x02\0\0\0\xff\xff\xff\xff";

/// Three vertices: an edge from 0 to itself, and two edges from 0 to 1.
const LOOPED: &[u8] =
    b"GGRID001\x03\0\0\0\x01\0\0\0\x03\0\0\0\0\0\0\0\0\0\0\0\0\0\0\0\x07\0\0\0\0\0\0\0\x01\0\0\0\x04\0\0\0\0\0\0\0\x01\0\0\0\x02\0\0\0";

/// A grid, a job of it, the status, how many reads are made with chunks of one edge and with large ones, and the report.
const JOBS: [(&[u8], &[u8], u8, [u64; 2], &[u8]); 16] = [
    (PATH, b"job a bfs 0", 0, [11, 10], REPORT),
    (PATH, b"job a sssp 0", 0, [12, 11], DISTANCES),
    (PATH, b"job a sssp 0 rounds 4", 0, [12, 11], DISTANCES),
    (
        PATH,
        b"job a sssp 0 rounds 3",
        1,
        [12, 11],
        b"job a version 0 failed rounds 3\n",
    ),
    (
        PATH,
        b"job a wcc",
        0,
        [18, 14],
        b"job a version 0 done rounds 3\n0 0\n1 0\n2 0\n3 0\n",
    ),
    (
        PATH,
        b"job a rank 1",
        0,
        [15, 12],
        b"job a version 0 done rounds 1\n0 150000000\n1 575000000\n2 1425000000\n3 1000000000\n",
    ),
    (
        PATH,
        b"job a rank 2",
        0,
        [19, 15],
        b"job a version 0 done rounds 2\n0 150000000\n1 213750000\n2 702500000\n3 1361250000\n",
    ),
    (
        CROSSED,
        b"job a wcc",
        0,
        [16, 16],
        b"job a version 0 done rounds 4\n0 0\n1 0\n2 0\n3 0\n",
    ),
    (
        ALONE,
        b"job a bfs 0",
        0,
        [3, 3],
        b"job a version 0 done rounds 1\n0 0\n",
    ),
    (
        ALONE,
        b"job a rank 3",
        0,
        [3, 3],
        b"job a version 0 done rounds 3\n0 150000000\n",
    ),
    (
        HEAVY,
        b"job a sssp 0",
        0,
        [7, 6],
        b"job a version 0 done rounds 3\n0 0\n1 4294967295\n2 8589934590\n",
    ),
    (
        LOOPED,
        b"job a bfs 0",
        0,
        [9, 5],
        b"job a version 0 done rounds 2\n0 0\n1 1\n2 -\n",
    ),
    (
        LOOPED,
        b"job a sssp 0",
        0,
        [9, 5],
        b"job a version 0 done rounds 2\n0 0\n1 2\n2 -\n",
    ),
    (
        LOOPED,
        b"job a wcc",
        0,
        [12, 6],
        b"job a version 0 done rounds 2\n0 0\n1 0\n2 2\n",
    ),
    (
        LOOPED,
        b"job a bfs 0 rounds 1",
        1,
        [9, 5],
        b"job a version 0 failed rounds 1\n",
    ),
    (
        LOOPED,
        b"job a bfs 2 rounds 1",
        0,
        [6, 4],
        b"job a version 0 done rounds 1\n0 -\n1 -\n2 0\n",
    ),
];

#[test]
fn each_kind_of_job_gives_its_report(rt: HostRuntime) -> Result<(), Fail> {
    for (grid, job, status, reads, report) in JOBS {
        check_run(&rt, RUN, grid, job, (status, report, b""), reads[0])?;
        check_run(&rt, RUN_LARGE, grid, job, (status, report, b""), reads[1])?;
    }
    Ok(())
}
