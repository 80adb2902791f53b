//! Builds over files in memory: texts, statuses, and each call failing in turn.

use crate::tool;
use gm_base::Words;
use gm_fakes::{Call, MemDepot, MemSink};
use std::test::Fail;

/// Four vertices in two ranges: 0 to 1, 1 to 2, 0 to 2 of weight 5, 2 to 3.
const LIST: &[u8] = b"# Nodes: 4 Edges: 4\r\n0\t1\r\n1\t2\r\n0\t2\t5\r\n2\t3";

/// Their grid.
const GRID: &[u8] = b"GGRID001\x04\0\0\0\x02\0\0\0\
    \x01\0\0\0\0\0\0\0\x02\0\0\0\0\0\0\0\0\0\0\0\0\0\0\0\x01\0\0\0\0\0\0\0\
    \0\0\0\0\x01\0\0\0\x01\0\0\0\x01\0\0\0\x02\0\0\0\x01\0\0\0\
    \0\0\0\0\x02\0\0\0\x05\0\0\0\x02\0\0\0\x03\0\0\0\x01\0\0\0";

/// The grid of four vertices in two ranges without edges.
const EMPTY_GRID: &[u8] = b"GGRID001\x04\0\0\0\x02\0\0\0\
    \0\0\0\0\0\0\0\0\0\0\0\0\0\0\0\0\0\0\0\0\0\0\0\0\0\0\0\0\0\0\0\0";

const OUTPUT: &[u8] = b"edges 4 blocks 4\n";

const WORDS: [&str; 5] = ["build", "e.txt", "a.grid", "4", "2"];

/// How a call ended.
#[derive(Drop)]
struct End {
    status: u8,
    depot: MemDepot,
    out: MemSink,
    err: MemSink,
}

/// What a call does over one file, e.txt.
fn call(
    rt: &HostRuntime,
    words: &[&str],
    text: &[u8],
    fails: &[(Call, u64)],
    out_fails: &[(u64, usize)],
) -> Result<End, Fail> {
    let mut all = Words::new(rt.alloc());
    for word in words {
        all.push(word)?;
    }
    let mut depot = MemDepot::new(rt.alloc(), fails.to_vec(rt.alloc())?);
    depot.put("e.txt", text)?;
    let mut out = MemSink::new(rt.alloc(), out_fails.to_vec(rt.alloc())?);
    let mut err = MemSink::new(rt.alloc(), Vec::new(rt.alloc()));
    let status = tool(rt.alloc(), &all, &mut depot, &mut out, &mut err);
    Ok(End {
        status,
        depot,
        out,
        err,
    })
}

/// Whether the grid's file has these bytes, or is missing.
fn has_grid(depot: &MemDepot, expected: Option<&[u8]>) -> bool {
    match (depot.file("a.grid"), expected) {
        (Some(bytes), Some(grid)) => bytes == grid,
        (None, None) => true,
        _ => false,
    }
}

#[test]
fn texts_are_built_or_refused(rt: HostRuntime) -> Result<(), Fail> {
    let table: [(&[u8], u8, &[u8], &[u8], Option<&[u8]>); 4] = [
        (LIST, 0, OUTPUT, b"", Some(GRID)),
        (b"", 0, b"edges 0 blocks 4\n", b"", Some(EMPTY_GRID)),
        (
            b"0 1\n1 x\n",
            4,
            b"",
            b"graphm: e.txt: line 2: not an edge\n",
            None,
        ),
        (
            b"0 4",
            4,
            b"",
            b"graphm: e.txt: line 1: no such vertex\n",
            None,
        ),
    ];
    for (text, status, output, line, grid) in table {
        let end = call(&rt, &WORDS, text, &[], &[])?;
        assert_eq!(rt; end.status, status, "{text:?}");
        assert_eq!(rt; end.out.written(), output, "{text:?}");
        assert_eq!(rt; end.err.written(), line, "{text:?}");
        assert!(rt; has_grid(&end.depot, grid), "{text:?}");
    }
    Ok(())
}

const READ_FAILED: &[u8] = b"graphm: e.txt: read failed\n";

const WRITE_FAILED: &[u8] = b"graphm: a.grid: write failed\n";

/// A call that fails, or would if it were made, and then the status, the reads and the line.
const FAILING: [(Call, u64, u8, u64, &[u8]); 8] = [
    (Call::Size, 1, 6, 0, READ_FAILED),
    (Call::Size, 2, 0, 1, b""),
    (Call::Read, 1, 6, 1, READ_FAILED),
    (Call::Read, 2, 0, 1, b""),
    (Call::Create, 1, 6, 1, WRITE_FAILED),
    (Call::Create, 2, 0, 1, b""),
    (Call::Append, 1, 6, 1, WRITE_FAILED),
    (Call::Append, 2, 0, 1, b""),
];

#[test]
fn each_call_fails_in_turn(rt: HostRuntime) -> Result<(), Fail> {
    for (kind, number, status, reads, line) in FAILING {
        let end = call(&rt, &WORDS, LIST, &[(kind, number)], &[])?;
        let (output, faults) = if status == 0 {
            (OUTPUT, 0)
        } else {
            (b"".as_slice(), 1)
        };
        assert_eq!(rt; end.status, status, "{kind:?} {number}");
        assert_eq!(rt; end.out.written(), output, "{kind:?} {number}");
        assert_eq!(rt; end.err.written(), line, "{kind:?} {number}");
        assert_eq!(rt; end.depot.reads(), reads, "{kind:?} {number}");
        assert_eq!(rt; end.depot.faults(), faults, "{kind:?} {number}");
    }
    Ok(())
}

/// Words that are refused, the text, the first read that isn't made of it, the status and the line.
const REFUSED: [(&[&str], &[u8], u64, u8, &[u8]); 3] = [
    (
        &WORDS,
        b"0 1\n1 x\n",
        2,
        4,
        b"graphm: e.txt: line 2: not an edge\n",
    ),
    (
        &WORDS,
        b"0 1\n0 4",
        2,
        4,
        b"graphm: e.txt: line 2: no such vertex\n",
    ),
    (
        &["build", "b.txt", "a.grid", "4", "2"],
        LIST,
        1,
        3,
        b"graphm: b.txt: no such file\n",
    ),
];

/// Each call would fail that a build made behind the refusal of its text.
#[test]
fn no_call_is_made_behind_a_refusal(rt: HostRuntime) -> Result<(), Fail> {
    for (words, text, read, status, line) in REFUSED {
        let fails = [
            (Call::Size, 2),
            (Call::Read, read),
            (Call::Create, 1),
            (Call::Append, 1),
        ];
        let end = call(&rt, words, text, &fails, &[])?;
        assert_eq!(rt; end.status, status, "{words:?}");
        assert_eq!(rt; end.err.written(), line, "{words:?}");
        assert_eq!(rt; end.depot.faults(), 0, "{words:?}");
        assert_eq!(rt; end.out.written().len(), 0, "{words:?}");
    }
    Ok(())
}

#[test]
fn output_fails_at_its_first_write(rt: HostRuntime) -> Result<(), Fail> {
    let end = call(&rt, &WORDS, LIST, &[], &[(1, 3)])?;
    assert_eq!(rt; end.status, 7);
    assert_eq!(rt; end.out.written(), b"edg".as_slice());
    assert_eq!(rt; end.err.written(), b"graphm: output failed\n".as_slice());
    assert!(rt; has_grid(&end.depot, Some(GRID)));
    Ok(())
}

/// A comment of so many bytes, and an edge behind it.
fn text_with_comment(rt: &HostRuntime, length: usize) -> Result<Vec<u8>, Fail> {
    let mut text = vec![in rt.alloc(); b'#'; length]?;
    text.extend_from_slice(b"\n0 1\n")?;
    Ok(text)
}

/// 65,536 bytes are one piece, one byte more is two.
#[test]
fn long_texts_are_read_in_pieces(rt: HostRuntime) -> Result<(), Fail> {
    for (length, reads) in [(65_531, 1), (65_532, 2), (131_068, 3)] {
        let end = call(&rt, &WORDS, &text_with_comment(&rt, length)?, &[], &[])?;
        assert_eq!(rt; end.status, 0, "{length}");
        assert_eq!(rt;
            end.out.written(),
            b"edges 1 blocks 4\n".as_slice(),
            "{length}"
        );
        assert_eq!(rt; end.depot.reads(), reads, "{length}");
    }
    Ok(())
}

#[test]
fn words_are_refused(rt: HostRuntime) -> Result<(), Fail> {
    let usage =
        b"graphm: usage: run GRID JOBS WORKERS CHUNK, build EDGES GRID N PARTS, info GRID CHUNK, drill NUMBER SCALE WORKERS\n".as_slice();
    let missing = b"graphm: b.txt: no such file\n".as_slice();
    let table: [(&[&str], u8, &[u8]); 5] = [
        (&["build", "b.txt", "a.grid", "4", "2"], 3, missing),
        (&["build", "e.txt", "e.txt", "4", "2"], 2, usage),
        (&["build", "e.txt", "a.grid", "4", "5"], 2, usage),
        (&["--help"], 2, usage),
        (&[], 2, usage),
    ];
    for (words, status, line) in table {
        let end = call(&rt, words, LIST, &[], &[])?;
        assert_eq!(rt; end.status, status, "{words:?}");
        assert_eq!(rt; end.out.written(), b"".as_slice(), "{words:?}");
        assert_eq!(rt; end.err.written(), line, "{words:?}");
        assert!(rt; has_grid(&end.depot, None), "{words:?}");
    }
    Ok(())
}

/// One edge of 16,384: its source, its destination and its weight.
fn edge(number: u16) -> (u32, u32, u32) {
    let number = u32::from(number);
    (number, (number * 5 + 1) % 16_384, number % 7 + 1)
}

fn text_of_many_edges(rt: &HostRuntime) -> Result<Vec<u8>, Fail> {
    let mut text = Vec::new(rt.alloc());
    for number in 0..16_384 {
        let (from, to, weight) = edge(number);
        text.extend_from_slice(format!(in rt.alloc(); "{from} {to} {weight}\n")?.as_bytes())?;
    }
    Ok(text)
}

/// The grid of these edges in two ranges of 8,192 vertices, by how many edges each block has: counted apart from the program.
fn grid_of_many_edges(rt: &HostRuntime) -> Result<Vec<u8>, Fail> {
    let mut grid = b"GGRID001\0\x40\0\0\x02\0\0\0".to_vec(rt.alloc())?;
    for count in [4_915_u64, 3_277, 3_277, 4_915] {
        grid.extend_from_slice(&count.to_le_bytes())?;
    }
    for block in 0..4 {
        for number in 0..16_384 {
            let (from, to, weight) = edge(number);
            if from / 8_192 * 2 + to / 8_192 == block {
                grid.extend_from_slice(&from.to_le_bytes())?;
                grid.extend_from_slice(&to.to_le_bytes())?;
                grid.extend_from_slice(&weight.to_le_bytes())?;
            }
        }
    }
    Ok(grid)
}

/// First into a new file, and then over the one that is there.
#[test]
fn many_edges_are_built(rt: HostRuntime) -> Result<(), Fail> {
    let mut words = Words::new(rt.alloc());
    for word in ["build", "e.txt", "a.grid", "16384", "2"] {
        words.push(word)?;
    }
    let mut depot = MemDepot::new(rt.alloc(), Vec::new(rt.alloc()));
    depot.put("e.txt", &text_of_many_edges(&rt)?)?;
    let grid = grid_of_many_edges(&rt)?;
    for _time in 0..2 {
        let mut out = MemSink::new(rt.alloc(), Vec::new(rt.alloc()));
        let mut err = MemSink::new(rt.alloc(), Vec::new(rt.alloc()));
        assert_eq!(rt; tool(rt.alloc(), &words, &mut depot, &mut out, &mut err), 0);
        assert_eq!(rt; out.written(), b"edges 16384 blocks 4\n".as_slice());
        assert!(rt; has_grid(&depot, Some(&grid)));
    }
    Ok(())
}

/// What an info of these bytes comes to, where these reads fail.
fn info(rt: &HostRuntime, chunk: &str, grid: &[u8], fails: &[(Call, u64)]) -> Result<End, Fail> {
    let mut words = Words::new(rt.alloc());
    for word in ["info", "a.grid", chunk] {
        words.push(word)?;
    }
    let mut depot = MemDepot::new(rt.alloc(), fails.to_vec(rt.alloc())?);
    depot.put("a.grid", grid)?;
    let mut out = MemSink::new(rt.alloc(), Vec::new(rt.alloc()));
    let mut err = MemSink::new(rt.alloc(), Vec::new(rt.alloc()));
    let status = tool(rt.alloc(), &words, &mut depot, &mut out, &mut err);
    Ok(End {
        status,
        depot,
        out,
        err,
    })
}

/// A chunk size, and the output for it, over `GRID`.
const INFOS: [(&str, &[u8]); 3] = [
    ("1", b"vertices 4\nparts 2\nedges 4\nchunks 5\nlabels 4\n"),
    ("2", b"vertices 4\nparts 2\nedges 4\nchunks 4\nlabels 4\n"),
    (
        "65536",
        b"vertices 4\nparts 2\nedges 4\nchunks 4\nlabels 4\n",
    ),
];

#[test]
fn grids_are_counted(rt: HostRuntime) -> Result<(), Fail> {
    for (chunk, output) in INFOS {
        let end = info(&rt, chunk, GRID, &[])?;
        assert_eq!(rt; end.status, 0, "{chunk}");
        assert_eq!(rt; end.out.written(), output, "{chunk}");
        assert_eq!(rt; end.err.written(), b"".as_slice(), "{chunk}");
        let reads = if chunk == "1" { 6 } else { 5 };
        assert_eq!(rt; end.depot.reads(), reads, "{chunk}");
    }
    Ok(())
}

/// The grid with its second edge moved to another block.
fn grid_with_bad_edge(rt: &HostRuntime) -> Result<Vec<u8>, Fail> {
    let mut grid = GRID.to_vec(rt.alloc())?;
    grid[60] = 3;
    Ok(grid)
}

const GRID_FAILED: &[u8] = b"graphm: a.grid: read failed\n";

/// Each read of an info fails in turn: of a good grid, of one cut by one byte, and of one with a bad edge. The size is asked for once.
#[test]
fn each_read_of_an_info_fails_in_turn(rt: HostRuntime) -> Result<(), Fail> {
    let bad = grid_with_bad_edge(&rt)?;
    let cut = b"graphm: a.grid: size 95, expected 96\n".as_slice();
    let stray = b"graphm: a.grid: bad edge 1\n".as_slice();
    let (ones, twos) = (INFOS[0].1, INFOS[1].1);
    let table: [(&str, &[u8], u64, u8, &[u8], &[u8]); 6] = [
        ("1", GRID, 6, 0, ones, b""),
        ("2", GRID, 5, 0, twos, b""),
        ("1", &GRID[..95], 2, 4, b"", cut),
        ("2", &GRID[..95], 2, 4, b"", cut),
        ("1", &bad, 4, 4, b"", stray),
        ("2", &bad, 4, 4, b"", stray),
    ];
    for (chunk_size, grid, made, status, output, line) in table {
        for number in 1..made + 2 {
            let fails = [(Call::Read, number), (Call::Size, 2)];
            let end = info(&rt, chunk_size, grid, &fails)?;
            let failed = number <= made;
            assert_eq!(rt;
                end.status,
                if failed { 6 } else { status },
                "{made} {number}"
            );
            assert_eq!(rt;
                end.err.written(),
                if failed { GRID_FAILED } else { line },
                "{made} {number}"
            );
            assert_eq!(rt; end.depot.reads(), made.min(number), "{made} {number}");
            assert_eq!(rt;
                end.depot.faults(),
                if failed { 1 } else { 0 },
                "{made} {number}"
            );
            assert_eq!(rt;
                end.out.written(),
                if failed { b"" } else { output },
                "{made} {number}"
            );
        }
    }
    Ok(())
}
