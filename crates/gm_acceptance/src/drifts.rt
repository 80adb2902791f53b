//! Chunks that are others when they are read again.
use crate::calls::{AT_ONE, PATH, REPORT, RUN, call_over, check_end, depot_of};
use crate::jobs::ADDED_BETWEEN;
use gm_fakes::DriftDepot;
use std::test::Fail;

/// The edge from 3 to 3 of weight 1.
const AT_THREE: &[u8] = b"\x03\0\0\0\x03\0\0\0\x01\0\0\0";

/// The edge from 2 to 3 of weight 3.
const HEAVIER: &[u8] = b"\x02\0\0\0\x03\0\0\0\x03\0\0\0";

/// .. or is another than at the opening.
const CHANGED_0: &[u8] = b"job a version 0 failed changed 0 0\n";

const CHANGED_1: &[u8] = b"job a version 0 failed changed 1 1\n";

const CHANGED_2: &[u8] = b"job a version 0 failed changed 1 2\n";

const CHANGED_4: &[u8] = b"job a version 0 failed changed 3 4\n";

/// The read that finds other bytes, these bytes with zeros behind them, a job, how many reads are made then, the status, and the report.
const DRIFTS: [(u64, &[u8], &[u8], u64, u8, &[u8]); 10] = [
    (8, AT_ONE, b"job a bfs 0", 8, 1, CHANGED_0),
    (9, AT_THREE, b"job a bfs 0", 9, 1, CHANGED_2),
    (10, b"", b"job a bfs 0", 10, 1, CHANGED_1),
    (11, AT_THREE, b"job a bfs 0", 11, 1, CHANGED_4),
    (12, AT_ONE, b"job a bfs 0", 11, 0, REPORT),
    // an edge of the same source and block takes the place of the chunk's
    (
        8,
        b"",
        b"job a bfs 0",
        10,
        0,
        b"job a version 0 done rounds 3\n0 0\n1 -\n2 1\n3 2\n",
    ),
    // the last chunk is read again for its second visit
    (
        12,
        HEAVIER,
        b"job a sssp 0",
        12,
        0,
        b"job a version 0 done rounds 4\n0 0\n1 1\n2 2\n3 5\n",
    ),
    // what the opening found is compared
    (3, AT_ONE, b"job a bfs 1", 8, 1, CHANGED_0),
    // the update and the job behind a job that failed
    (
        8,
        AT_ONE,
        ADDED_BETWEEN,
        12,
        1,
        b"job a version 0 failed changed 0 0\njob b version 1 done rounds 2\n0 0\n1 1\n2 1\n3 1\n",
    ),
    // what was read is compared, whatever the job changes of it
    (
        8,
        AT_ONE,
        b"job a bfs 0\nmutate del 0 1\njob b bfs 0\n",
        12,
        1,
        b"job a version 0 failed changed 0 0\njob b version 0 done rounds 3\n0 0\n1 1\n2 1\n3 2\n",
    ),
];

#[test]
fn chunks_change_after_the_opening(rt: HostRuntime) -> Result<(), Fail> {
    for (read, bytes, job, reads, status, report) in DRIFTS {
        let mut depot = depot_of(&rt, PATH, Vec::new(rt.alloc()))?;
        depot.put("j.txt", job)?;
        let depot = DriftDepot::new(depot, read, bytes.to_vec(rt.alloc())?);
        let end = call_over(&rt, RUN, depot)?;
        let case = format!(in rt.alloc(); "{read} {bytes:?}")?;
        check_end(&rt, &end, (status, report, b""), &case);
        assert_eq!(rt; end.depot.depot().reads(), reads, "{case}");
        assert_eq!(rt; end.depot.depot().faults(), 0, "{case}");
    }
    Ok(())
}
