//! Rows near the limits: many updates, the most ranges, and a long word.
use crate::calls::{PATH, REPORT, RUN, call_over, check_end, check_run, depot_of, run_job};
use crate::sizes::push_value;
use gm_fakes::MemDepot;
use std::test::Fail;

/// A thousand updates, each of ten edges from 0 on: to 1, 2, .. and 10,000 in all. The job cuts those to 1, 2, .. and 11 and adds one to each
/// of them from 10,000.
fn thousand_updates(rt: &HostRuntime) -> Result<String, Fail> {
    let mut text = String::new(rt.alloc());
    for leaf in 1..10_001_u32 {
        let head = if leaf % 10 == 1 { "update\n" } else { "" };
        text.push_str(&format!(in rt.alloc(); "{head}add 0 {leaf} 1\n")?)?;
    }
    text.push_str("job a bfs 0\n")?;
    for leaf in 1..12_u32 {
        text.push_str(&format!(in rt.alloc();
            "mutate del 0 {leaf}\nmutate add 10000 {leaf} 1\n"
        )?)?;
    }
    Ok(text)
}

fn level_in_updates(vertex: u32) -> Option<u32> {
    match vertex {
        0 => Some(0),
        1..=11 => Some(2),
        12..=10_000 => Some(1),
        _ => None,
    }
}

#[test]
fn a_thousand_updates_and_own_changes(rt: HostRuntime) -> Result<(), Fail> {
    let mut report = String::from_str(rt.alloc(), "job a version 1000 done rounds 3\n")?;
    for vertex in 0..10_016 {
        push_value(&rt, &mut report, vertex, level_in_updates(vertex))?;
    }
    let ending = (0, report.as_bytes(), b"".as_slice());
    let text = thousand_updates(&rt)?;
    let grid = b"GGRID001\x20\x27\0\0\x01\0\0\0\0\0\0\0\0\0\0\0";
    check_run(
        &rt,
        "run a.grid j.txt 1 65536",
        grid,
        text.as_bytes(),
        ending,
        3,
    )
}

/// The list of the edges of a ring: from each of 128 vertices to the next one.
fn ring(rt: &HostRuntime) -> Result<String, Fail> {
    let mut text = String::new(rt.alloc());
    for vertex in 0..128_u32 {
        let next = (vertex + 1) % 128;
        text.push_str(&format!(in rt.alloc(); "{vertex} {next}\n")?)?;
    }
    Ok(text)
}

/// The ring in 64 ranges of two vertices: no block has two edges, and one without an edge has one chunk.
const OVER_RING: [(&str, &str); 2] = [
    ("build e.txt a.grid 128 64", "edges 128 blocks 4096\n"),
    (
        "info a.grid 1",
        "vertices 128\nparts 64\nedges 128\nchunks 4096\nlabels 128\n",
    ),
];

#[test]
fn the_most_ranges(rt: HostRuntime) -> Result<(), Fail> {
    let mut depot = MemDepot::new(rt.alloc(), Vec::new(rt.alloc()));
    depot.put("e.txt", ring(&rt)?.as_bytes())?;
    for (words, out) in OVER_RING {
        let end = call_over(&rt, words, depot)?;
        check_end(&rt, &end, (0, out.as_bytes(), b""), words);
        depot = end.depot;
    }
    let mut report = String::from_str(rt.alloc(), "job a version 0 done rounds 128\n")?;
    for vertex in 0..128 {
        push_value(&rt, &mut report, vertex, Some(vertex))?;
    }
    depot.put("j.txt", b"job a bfs 0")?;
    let end = call_over(&rt, RUN, depot)?;
    check_end(&rt, &end, (0, report.as_bytes(), b""), RUN);
    Ok(())
}

#[test]
fn a_word_of_200_bytes(rt: HostRuntime) -> Result<(), Fail> {
    let name = "a_long_name_".repeat(rt.alloc(), 17)?;
    let name = name.get(..200).ok_or("the name is too short")?;
    let words = format!(in rt.alloc(); "run {name} j.txt 1 1")?;
    let missing = format!(in rt.alloc(); "graphm: {name}: no such file\n")?;
    let end = call_over(&rt, &words, depot_of(&rt, PATH, Vec::new(rt.alloc()))?)?;
    check_end(&rt, &end, (3, b"", missing.as_bytes()), "missing");
    let mut depot = end.depot;
    depot.put(name, PATH)?;
    let end = call_over(&rt, &words, depot)?;
    check_end(&rt, &end, (0, REPORT, b""), "a long name");
    Ok(())
}
