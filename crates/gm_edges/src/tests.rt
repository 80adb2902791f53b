//! Texts over four vertices, each cut at every place into two pieces, and as many edges as there may be. The expected answers were worked out by hand from the format.

ghost use Rattle.std.specs.Prelude.{◌++◌};
ghost use Rattle.gm_edges.specs.EdgeText.{edge_list_of};
ghost use Rattle.gm_edges.specs.EdgeErrors.{IsUnlessMemory};

use crate::{EdgeError, EdgeReader};
use gm_base::{Edge, Edges};
use std::alloc::Global;
use std::test::Fail;

/// What a reader answers that is fed a text in two pieces: the clauses of the reader's calls say that it's the text's list of edges.
fn read_in_two(alloc: Global, front: &[u8], back: &[u8]) -> Result<Edges, EdgeError>
    ensures { IsUnlessMemory result (edge_list_of (front.now ++ back.now) 4) }
{
    let mut reader = EdgeReader::new(alloc, 4);
    reader.feed(front)?;
    reader.feed(back)?;
    reader.finish()
}

/// Whether the text gives this answer wherever it is cut.
fn gives(alloc: Global, text: &[u8], expected: Result<&[Edge], EdgeError>) -> bool {
    for cut in 0..text.len() + 1 {
        let (front, back) = text.split_at(cut);
        let is_expected = match (read_in_two(alloc, front, back), expected) {
            (Ok(edges), Ok(listed)) => edges.as_slice() == listed,
            (Err(error), Err(refusal)) => error == refusal,
            _ => false,
        };
        if !is_expected {
            return false;
        }
    }
    true
}

const fn edge(from: u32, to: u32, weight: u32) -> Edge {
    Edge { from, to, weight }
}

#[test]
fn lists_edges(rt: HostRuntime) {
    let rows: [(&[u8], &[Edge]); 10] = [
        (
            b"# Nodes: 4 Edges: 4\r\n0\t1\r\n1\t2\r\n0\t2\t5\r\n2\t3",
            &[edge(0, 1, 1), edge(1, 2, 1), edge(0, 2, 5), edge(2, 3, 1)],
        ),
        (b"", &[]),
        (b"#", &[]),
        (b"\n \r\n\t#0 1\n", &[]),
        (b"0\r1", &[edge(0, 1, 1)]),
        (b"003 00 07\n", &[edge(3, 0, 7)]),
        (b"00000000000000000003 1", &[edge(3, 1, 1)]),
        (b"2 2\n2 2\n", &[edge(2, 2, 1), edge(2, 2, 1)]),
        (b"0 1 4294967295", &[edge(0, 1, 4294967295)]),
        (b" 0 1 0 ", &[edge(0, 1, 0)]),
    ];
    for (text, edges) in rows {
        assert!(rt; gives(rt.alloc(), text, Ok(edges)), "{text:?}");
    }
}

#[test]
fn refuses_lines(rt: HostRuntime) {
    let bad_first_lines: [&[u8]; 8] = [
        b"0",
        b"0 1 2 3",
        b"0 1 4294967296",
        b"000000000000000000003 1",
        b"18446744073709551616 1",
        b"0\x001 2",
        b"0 #1",
        b"9 9 x\n",
    ];
    for text in bad_first_lines {
        let refusal = EdgeError::BadLine { line: 1 };
        assert!(rt; gives(rt.alloc(), text, Err(refusal)), "{text:?}");
    }
    let rows: [(&[u8], EdgeError); 4] = [
        (b"0 1\n1 x\n", EdgeError::BadLine { line: 2 }),
        (b"0 4", EdgeError::NoVertex { line: 1 }),
        (b"18446744073709551615 1", EdgeError::NoVertex { line: 1 }),
        (b"#\n\n9 9\nx", EdgeError::NoVertex { line: 3 }),
    ];
    for (text, refusal) in rows {
        assert!(rt; gives(rt.alloc(), text, Err(refusal)), "{text:?}");
    }
}

/// 2^24 edges are taken, in pieces of 65,536 bytes, and one more is refused.
#[test]
fn most_edges(rt: HostRuntime) -> Result<(), Fail> {
    let piece = b"0 0\n".repeat(rt.alloc(), 16_384)?;
    let mut reader = EdgeReader::new(rt.alloc(), 1);
    for _ in 0..1024 {
        reader.feed(&piece)?;
    }
    let answer = reader.feed(b"0 0\n".as_slice());
    assert_eq!(rt; answer, Err(EdgeError::TooManyEdges { line: 16_777_217 }));
    Ok(())
}
