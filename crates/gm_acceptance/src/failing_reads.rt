//! Reads of chunks that fail under one of several jobs: it ends that job, and the next one goes on.
use crate::calls::check_failing_reads;
use crate::jobs::TWO_JOBS;
use crate::mutations::CUT_BY_THE_SECOND;
use std::test::Fail;

const SAME_JOBS: &[u8] = b"job a bfs 0\njob b bfs 0\n";

/// The reads that fail, a job text, how many reads are made, and what the report says.
const FAILING_READS: [(&[u64], &[u8], u64, &[u8]); 7] = [
    (
        &[8],
        TWO_JOBS,
        10,
        b"job a version 0 failed read 0 0\njob b version 0 done rounds 3\n0 -\n1 0\n2 1\n3 2\n",
    ),
    (
        &[11],
        TWO_JOBS,
        13,
        b"job a version 0 failed read 3 4\njob b version 0 done rounds 3\n0 -\n1 0\n2 1\n3 2\n",
    ),
    (
        &[13],
        TWO_JOBS,
        13,
        b"job a version 0 done rounds 3\n0 0\n1 1\n2 1\n3 2\njob b version 0 failed read 3 4\n",
    ),
    // a second failed read ends the second job alone
    (
        &[8, 9],
        SAME_JOBS,
        9,
        b"job a version 0 failed read 0 0\njob b version 0 failed read 0 0\n",
    ),
    (
        &[8, 9],
        TWO_JOBS,
        9,
        b"job a version 0 failed read 0 0\njob b version 0 failed read 1 1\n",
    ),
    // a chunk that a job changes is read too
    (
        &[8],
        CUT_BY_THE_SECOND,
        11,
        b"job a version 0 failed read 0 0\njob b version 0 done rounds 3\n0 0\n1 -\n2 1\n3 2\n",
    ),
    (
        &[12],
        CUT_BY_THE_SECOND,
        12,
        b"job a version 0 done rounds 3\n0 0\n1 1\n2 1\n3 2\njob b version 0 failed read 0 0\n",
    ),
];

#[test]
fn a_failed_read_ends_one_job(rt: HostRuntime) -> Result<(), Fail> {
    for (failing, jobs, reads, report) in FAILING_READS {
        check_failing_reads(&rt, failing, jobs, report, reads)?;
    }
    Ok(())
}
