//! A report as a sink in memory takes it.

use crate::write;
use gm_base::{JobLine, Name, Outcome, TOP, Values};
use gm_fakes::MemSink;
use gm_outside::Trouble;
use std::test::Fail;

/// A job whose report has three pieces, 9,750 bytes in all: lines of 23 to 25 bytes behind one of 35.
#[test]
fn a_report_goes_out_in_pieces(rt: HostRuntime) -> Result<(), Fail> {
    for (fails, outcome, count) in [
        (vec![in rt.alloc()]?, Ok(()), 9750),
        (vec![in rt.alloc(); (1, 7)]?, Err(Trouble::Failed), 7),
        (vec![in rt.alloc(); (2, 0)]?, Err(Trouble::Failed), 4096),
        (vec![in rt.alloc(); (3, 9999)]?, Err(Trouble::Failed), 9750),
    ] {
        let mut values = Values::new(rt.alloc());
        for _ in 0..393 {
            values.push(TOP - 1)?;
        }
        let name = Name::new(rt.alloc(), b"abcdef")?;
        let job = JobLine {
            name,
            version: 0,
            outcome: Outcome::Done { rounds: 1, values },
        };
        let mut sink = MemSink::new(rt.alloc(), fails);
        assert_eq!(rt; write(&[job], &mut sink), outcome);
        let written = sink.written();
        let length = written.len();
        assert_eq!(rt; length, count);
        let head = b"job abcdef version 0 done rounds 1\n0 18446744073709551614\n1 1";
        assert_eq!(rt;
            &written[..length.min(head.len())],
            &head[..length.min(head.len())]
        );
        if length == 9750 {
            assert!(rt;
                written.ends_with(b"\n391 18446744073709551614\n392 18446744073709551614\n")
            );
        }
    }
    Ok(())
}
