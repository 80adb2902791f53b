//! Larger grids and texts.
use crate::calls::{PATH, REPORT, RUN, call_over, check_end, check_run, depot_of, padded, run_job};
use gm_fakes::{Call, MemDepot};
use std::test::Fail;

/// A text of 1,048,576 bytes is read, a longer one is refused by its size.
#[test]
fn a_long_job_text_is_refused_unread(rt: HostRuntime) -> Result<(), Fail> {
    let refusal = b"graphm: j.txt: longer than 1048576 bytes\n".as_slice();
    for (length, status, out, line) in [
        (1_048_576, 0, REPORT, b"".as_slice()),
        (1_048_577, 5, b"", refusal),
    ] {
        let fails = vec![in rt.alloc(); (Call::Read, if status == 0 { 12 } else { 7 })]?;
        let mut depot = depot_of(&rt, PATH, fails)?;
        depot.put("j.txt", &padded(&rt, b"job a bfs 0\n", length, b'#')?)?;
        let end = call_over(&rt, RUN, depot)?;
        check_end(&rt, &end, (status, out, line), "a long text");
    }
    Ok(())
}

/// A tree of 8,191 vertices in 13 levels. Each edge of it stands there three times, of weights 3, 1 and 2; and one edge leads from the root to
/// itself.
fn tree(rt: &HostRuntime) -> Result<Vec<u8>, Fail> {
    let mut grid = b"GGRID001\xff\x1f\0\0\x01\0\0\0\xfb\x5f\0\0\0\0\0\0".to_vec(rt.alloc())?;
    grid.extend_from_slice(&[0; 12])?;
    for child in 1..8_191_u32 {
        for weight in [3_u32, 1, 2] {
            grid.extend_from_slice(&((child - 1) / 2).to_le_bytes())?;
            grid.extend_from_slice(&child.to_le_bytes())?;
            grid.extend_from_slice(&weight.to_le_bytes())?;
        }
    }
    Ok(grid)
}

/// Adds a vertex's line to a report.
pub(crate) fn push_value(
    rt: &HostRuntime,
    report: &mut String,
    vertex: u32,
    value: Option<u32>,
) -> Result<(), Fail> {
    let line = match value {
        Some(value) => format!(in rt.alloc(); "{vertex} {value}\n")?,
        None => format!(in rt.alloc(); "{vertex} -\n")?,
    };
    report.push_str(line.as_str())?;
    Ok(())
}

/// What a job computes.
#[derive(Clone, Copy)]
enum Kind {
    Levels,
    Distances,
    Labels,
    Ranks,
}

/// The rank of a vertex of the tree after one round. A vertex's out-degree is 6, and the root's is 7: then 141,666,666 and 121,428,571 go
/// over each edge.
fn rank_in_tree(vertex: u32) -> u32 {
    match vertex {
        0 => 271_428_571,
        1 | 2 => 514_285_713,
        _ => 574_999_998,
    }
}

fn value_in_tree(kind: Kind, vertex: u32) -> u32 {
    match kind {
        Kind::Labels => 0,
        Kind::Ranks => rank_in_tree(vertex),
        Kind::Levels | Kind::Distances => vertex.saturating_add(1).ilog2(),
    }
}

/// A kind of job over the tree, its words, and how many rounds it makes.
const OVER_TREE: [(Kind, &str, u32); 4] = [
    (Kind::Levels, "bfs 0", 13),
    (Kind::Distances, "sssp 0", 13),
    (Kind::Labels, "wcc", 13),
    (Kind::Ranks, "rank 1", 1),
];

#[test]
fn a_tree_gives_its_levels(rt: HostRuntime) -> Result<(), Fail> {
    for (kind, words, rounds) in OVER_TREE {
        let job = format!(in rt.alloc(); "job a {words}")?;
        let end = run_job(&rt, "run a.grid j.txt 1 512", &tree(&rt)?, job.as_bytes())?;
        let mut report = format!(in rt.alloc(); "job a version 0 done rounds {rounds}\n")?;
        for vertex in 0..8_191 {
            push_value(&rt, &mut report, vertex, Some(value_in_tree(kind, vertex)))?;
        }
        check_end(&rt, &end, (0, report.as_bytes(), b""), words);
    }
    Ok(())
}

/// The list of the edges of three lattices. Vertex v below 972 belongs to lattice v % 3: it stands there in row v / 54 and in column
/// v / 3 % 18. An edge of weight 1 leads from it to the next column, but two lead from the last column to the first one, of weights 2 and 1.
/// Another edge leads to the next row, and from the last row to the first one: its weight is 50, and 1 in the last column.
fn lattice_text(rt: &HostRuntime) -> Result<String, Fail> {
    let mut text = String::new(rt.alloc());
    for vertex in 0..972_u32 {
        let below = (vertex + 54) % 972;
        let lines = if vertex / 3 % 18 == 17 {
            let first = (vertex + 921) % 972;
            format!(in rt.alloc(); "{vertex} {first} 2\n{vertex} {first}\n{vertex} {below}\n")?
        } else {
            let next = vertex + 3;
            format!(in rt.alloc(); "{vertex} {next}\n{vertex} {below} 50\n")?
        };
        text.push_str(lines.as_str())?;
    }
    Ok(text)
}

/// The rank of a vertex of the lattices after three rounds, where 28 vertices have no edge. A share of 425,000,000 goes over each edge at
/// first, and of 283,333,333 from the last column.
fn rank_in_lattice(vertex: u32) -> u32 {
    if vertex >= 972 {
        return 150_000_000;
    }
    match vertex / 3 % 18 {
        0 => 1_090_322_336,
        1 => 1_077_267_359,
        2 => 1_025_588_541,
        17 => 806_821_759,
        _ => 1_000_000_000,
    }
}

/// The value of a vertex of the first lattice, by levels or by distances.
fn length_in_lattice(kind: Kind, vertex: u32) -> u32 {
    let (row, column) = (vertex / 54, vertex / 3 % 18);
    let is_far = matches!(kind, Kind::Distances) && row > 0 && column < 17;
    row + column + if is_far { 18 } else { 0 }
}

fn value_in_lattice(kind: Kind, vertex: u32) -> Option<u32> {
    match kind {
        Kind::Labels => Some(if vertex < 972 { vertex % 3 } else { vertex }),
        Kind::Ranks => Some(rank_in_lattice(vertex)),
        Kind::Levels | Kind::Distances if vertex < 972 && vertex % 3 == 0 => {
            Some(length_in_lattice(kind, vertex))
        }
        Kind::Levels | Kind::Distances => None,
    }
}

/// A kind of job over the lattices, its words, how many rounds it makes, and how many reads.
const OVER_LATTICES: [(Kind, &str, u32, u64); 4] = [
    (Kind::Levels, "bfs 0", 35, 475),
    (Kind::Distances, "sssp 0", 52, 850),
    (Kind::Labels, "wcc", 19, 890),
    (Kind::Ranks, "rank 3", 3, 268),
];

/// Three lattices of 18 rows and columns in 25 blocks and 64 chunks. How many reads are made was counted apart from the program.
#[test]
fn lattices_give_their_values(rt: HostRuntime) -> Result<(), Fail> {
    let mut depot = MemDepot::new(rt.alloc(), Vec::new(rt.alloc()));
    depot.put("e.txt", lattice_text(&rt)?.as_bytes())?;
    let built = call_over(&rt, "build e.txt a.grid 1000 5", depot)?;
    check_end(&rt, &built, (0, b"edges 1998 blocks 25\n", b""), "build");
    let grid = built.depot.file("a.grid").ok_or("there is no grid")?;
    for (kind, words, rounds, reads) in OVER_LATTICES {
        let job = format!(in rt.alloc(); "job a {words}")?;
        let mut report = format!(in rt.alloc(); "job a version 0 done rounds {rounds}\n")?;
        for vertex in 0..1_000 {
            push_value(&rt, &mut report, vertex, value_in_lattice(kind, vertex))?;
        }
        let ending = (0, report.as_bytes(), b"".as_slice());
        check_run(
            &rt,
            "run a.grid j.txt 1 48",
            grid,
            job.as_bytes(),
            ending,
            reads,
        )?;
    }
    Ok(())
}
