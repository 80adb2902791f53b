//! Each call that can want memory, once with ample memory, and the texts of refusals.

use crate::examples::PATH_BYTES;
use crate::{GridError, read_index};
use gm_base::Shape;
use std::test::Fail;

#[test]
fn reads_an_index(rt: HostRuntime) -> Result<(), Fail> {
    let shape = Shape::new(4, 2).unwrap();
    let index = read_index(rt.alloc(), &shape, &PATH_BYTES[16..48])?;
    assert_eq!(rt; index.counts(), [1u64, 2, 0, 1].as_slice());
    assert_eq!(rt; index.edges(), 4);
    assert_eq!(rt; index.expected_size(), 96);
    Ok(())
}

#[test]
fn says_why(rt: HostRuntime) -> Result<(), Fail> {
    let rows = [
        (GridError::BadMagic, "bad magic"),
        (
            GridError::BadShape { n: 0, parts: 2 },
            "bad shape n 0 parts 2",
        ),
        (
            GridError::TooManyEdges { edges: 16_777_217 },
            "too many edges 16777217",
        ),
        (
            GridError::BadSize {
                found: 95,
                expected: 96,
            },
            "size 95, expected 96",
        ),
        (
            GridError::TooManyChunks { chunks: 1_048_577 },
            "too many chunks 1048577",
        ),
        (GridError::BadEdge { index: 1 }, "bad edge 1"),
    ];
    for (error, text) in rows {
        let said = format!(in rt.alloc(); "{error}")?;
        assert_eq!(rt; said.as_str(), text);
    }
    Ok(())
}
