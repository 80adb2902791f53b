//! Files that are no grid, or nearly none, each in a run.
use crate::calls::{
    PATH, REPORT, RUN, call_over, check_calls, check_end, depot_of, padded, run_over,
};
use gm_fakes::{Call, NotingDepot};
use std::process::Abort;
use std::test::Fail;

/// The report over the grid with this byte changed in its lowest bit, where it is a grid still: worked out apart from the program.
fn report_with_byte_changed(place: usize) -> Option<&'static [u8]> {
    match place {
        48 | 52 => Some(b"job a version 0 done rounds 3\n0 0\n1 -\n2 1\n3 2\n"),
        72 => Some(b"job a version 0 done rounds 4\n0 0\n1 1\n2 2\n3 3\n"),
        76 => Some(b"job a version 0 done rounds 3\n0 0\n1 1\n2 2\n3 1\n"),
        84 | 88 => Some(b"job a version 0 done rounds 2\n0 0\n1 1\n2 1\n3 -\n"),
        56..=60 | 64 | 68..=71 | 80..=83 | 92..=95 => Some(REPORT),
        _ => None,
    }
}

/// The file with one byte changed in its lowest bit.
fn changed_at(rt: &HostRuntime, place: usize) -> Result<Vec<u8>, Fail> {
    let mut bytes = PATH.to_vec(rt.alloc())?;
    if place < bytes.len() {
        bytes[place] ^= 1;
    }
    Ok(bytes)
}

/// The front of the file.
pub(crate) fn cut_at(place: usize) -> &'static [u8] {
    let file = PATH;
    if place < file.len() {
        &file[..place]
    } else {
        file
    }
}

/// What is wrong with the grid with this byte changed in its lowest bit, where it is none: worked out apart from the program.
fn refusal_with_byte_changed(place: usize) -> &'static str {
    match place {
        0..=7 => "bad magic",
        8..=10 => "bad edge 1",
        11 => "bad shape n 16777220 parts 2",
        12 => "too many edges 30064771084",
        13 => "bad shape n 4 parts 258",
        14 => "bad shape n 4 parts 65538",
        15 => "bad shape n 4 parts 16777218",
        16 | 40 => "size 96, expected 84",
        24 | 32 => "size 96, expected 108",
        17 | 25 | 33 | 41 => "size 96, expected 3168",
        18 | 26 | 34 | 42 => "size 96, expected 786528",
        19 | 27 | 35 | 43 => "too many edges 16777220",
        20 | 28 | 36 | 44 => "too many edges 4294967300",
        21 | 29 | 37 | 45 => "too many edges 1099511627780",
        22 | 30 | 38 | 46 => "too many edges 281474976710660",
        23 | 31 | 39 | 47 => "too many edges 72057594037927940",
        48..=59 => "bad edge 0",
        60..=71 => "bad edge 1",
        72..=83 => "bad edge 2",
        _ => "bad edge 3",
    }
}

#[test]
fn each_byte_of_the_grid_counts(rt: HostRuntime) -> Result<(), Fail> {
    for place in 0..96 {
        let end = run_over(&rt, RUN, &changed_at(&rt, place)?)?;
        let refusal = refusal_with_byte_changed(place);
        let line = format!(in rt.alloc(); "graphm: a.grid: {refusal}\n")?;
        let expected = match report_with_byte_changed(place) {
            Some(report) => (0, report, b"".as_slice()),
            None => (4, b"".as_slice(), line.as_bytes()),
        };
        let case = format!(in rt.alloc(); "at {place}")?;
        check_end(&rt, &end, expected, &case);
    }
    Ok(())
}

#[test]
fn each_cut_of_the_grid_is_refused(rt: HostRuntime) -> Result<(), Fail> {
    for size in 0..96 {
        let cut = run_over(&rt, RUN, cut_at(size))?;
        let expected = match size {
            0..=15 => 16,
            16..=47 => 48,
            _ => 96,
        };
        let line = format!(in rt.alloc(); "graphm: a.grid: size {size}, expected {expected}\n")?;
        check_end(&rt, &cut, (4, b"", line.as_bytes()), &line);
    }
    Ok(())
}

/// Where each read of a file begins, and how many bytes it has.
type Reads = &'static [(u64, usize)];

const HEAD: Reads = &[(0, 16)];

/// With one range, and with two.
const INDEX_OF_ONE: Reads = &[(0, 16), (16, 8)];

const INDEX_OF_TWO: Reads = &[(0, 16), (16, 32)];

/// The front of a file that has zeros behind it, its length, which reads are made, and what is wrong with the file.
const REFUSED_GRIDS: [(&[u8], usize, Reads, &str); 14] = [
    (b"GGRID001\x04\0\0\0", 12, &[], "size 12, expected 16"),
    (
        b"GGRID001\x04\0\0\0\x02\0\0\0",
        40,
        HEAD,
        "size 40, expected 48",
    ),
    (b"GGRID002\x04\0\0\0\x02\0\0\0", 96, HEAD, "bad magic"),
    (
        b"GGRID001\0\0\0\0\x02\0\0\0",
        96,
        HEAD,
        "bad shape n 0 parts 2",
    ),
    (
        b"GGRID001\x01\0\x10\0\x01\0\0\0",
        24,
        HEAD,
        "bad shape n 1048577 parts 1",
    ),
    (
        b"GGRID001\x64\0\0\0\x41\0\0\0",
        33_816,
        HEAD,
        "bad shape n 100 parts 65",
    ),
    (
        b"GGRID001\x01\0\0\0\x02\0\0\0",
        48,
        HEAD,
        "bad shape n 1 parts 2",
    ),
    (
        b"GGRID001\x04\0\0\0\x02\0\0\0\0\0\0\0\0\0\0\x80\0\0\0\0\0\0\0\x80\0\0\0\0\0\0\0\0\x01",
        96,
        INDEX_OF_TWO,
        "too many edges 18446744073709551617",
    ),
    (
        b"GGRID001\x01\0\0\0\x01\0\0\0\x01\0\0\x01",
        24,
        INDEX_OF_ONE,
        "too many edges 16777217",
    ),
    (
        b"GGRID001\x01\0\0\0\x01\0\0\0\0\0\0\x01",
        24,
        INDEX_OF_ONE,
        "size 24, expected 201326616",
    ),
    (PATH, 97, INDEX_OF_TWO, "size 97, expected 96"),
    (
        b"GGRID001\x01\0\0\0\x01\0\0\0\x01\0\x10",
        12_582_948,
        INDEX_OF_ONE,
        "too many chunks 1048577",
    ),
    // the first edge is from 2 to 0, which is of another block
    (
        b"GGRID001\x04\0\0\0\x02\0\0\0\x01\0\0\0\0\0\0\0\x02\0\0\0\0\0\0\0\0\0\0\0\0\0\0\0\x01\0\0\0\0\0\0\0\x02",
        96,
        &[(0, 16), (16, 32), (48, 12)],
        "bad edge 0",
    ),
    // the third one, from 0 to 0, is of another block
    (
        b"GGRID001\x04\0\0\0\x02\0\0\0\x01\0\0\0\0\0\0\0\x02\0\0\0\0\0\0\0\0\0\0\0\0\0\0\0\x01\0\0\0\0\0\0\0\0\0\0\0\x01\0\0\0\x01\0\0\0\x01\0\0\0\x02\0\0\0\x01",
        96,
        &[(0, 16), (16, 32), (48, 12), (60, 12), (72, 12)],
        "bad edge 2",
    ),
];

/// Runs a job over such a file, where the second call of `size` would fail, and the read behind those that are made.
fn check_refused<R: AllocGlobal + Abort>(
    rt: &R,
    grid: &[u8],
    reads: Reads,
    refusal: &str,
) -> Result<(), Fail> {
    let next = (reads.len() as u64).saturating_add(1);
    let fails = vec![in rt.alloc(); (Call::Size, 2), (Call::Read, next)]?;
    let depot = NotingDepot::new(rt.alloc(), depot_of(rt, grid, fails)?);
    let end = call_over(rt, RUN, depot)?;
    let line = format!(in rt.alloc(); "graphm: a.grid: {refusal}\n")?;
    check_end(rt, &end, (4, b"", line.as_bytes()), refusal);
    let mut calls = vec![in rt.alloc(); (Call::Size, "a.grid", 0, 0)]?;
    for &(position, length) in reads {
        calls.push((Call::Read, "a.grid", position, length))?;
    }
    check_calls(rt, &end.depot, &calls, refusal)?;
    assert_eq!(rt; end.depot.depot().faults(), 0, "{refusal}");
    Ok(())
}

#[test]
fn a_refused_grid_is_read_no_further(rt: HostRuntime) -> Result<(), Fail> {
    for (front, length, reads, refusal) in REFUSED_GRIDS {
        check_refused(&rt, &padded(&rt, front, length, 0)?, reads, refusal)?;
    }
    Ok(())
}
