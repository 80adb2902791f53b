//! Each call that takes memory, with ample memory: that it answers at all is what no clause says.

use crate::{Change, Changes, apply, for_chunk, gather};
use gm_base::{Edge, Edges, Shape, Sources};
use std::alloc::Global;
use std::test::Fail;

fn edge(from: u32, to: u32, weight: u32) -> Edge {
    Edge { from, to, weight }
}

fn add(from: u32, to: u32, weight: u32) -> Change {
    Change::Add(edge(from, to, weight))
}

fn cut(from: u32, to: u32) -> Change {
    Change::Cut { from, to }
}

/// The edges of a path 0, 1, 2, 3 and of a shortcut from 0 to 2, in two ranges block by block.
fn path_with_shortcut(alloc: Global) -> Result<Edges, Fail> {
    let mut edges = Edges::new(alloc);
    for e in [edge(0, 1, 1), edge(1, 2, 1), edge(0, 2, 5), edge(2, 3, 1)] {
        edges.push(e)?;
    }
    Ok(edges)
}

#[test]
fn adds_and_cuts_are_applied(rt: HostRuntime) -> Result<(), Fail> {
    let mut edges = path_with_shortcut(rt.alloc())?;
    let changes = [
        add(3, 0, 1),
        cut(0, 1),
        cut(1, 2),
        add(0, 1, 4),
        cut(3, 0),
        add(3, 0, 2),
        cut(3, 1),
    ];
    apply(rt.alloc(), &changes, &mut edges)?;
    let left = [edge(0, 2, 5), edge(2, 3, 1), edge(0, 1, 4), edge(3, 0, 2)];
    assert_eq!(rt; edges.as_slice(), left.as_slice());
    Ok(())
}

#[test]
fn one_cut_is_applied(rt: HostRuntime) -> Result<(), Fail> {
    let mut edges = path_with_shortcut(rt.alloc())?;
    apply(rt.alloc(), &[cut(0, 2)], &mut edges)?;
    let left = [edge(0, 1, 1), edge(1, 2, 1), edge(2, 3, 1)];
    assert_eq!(rt; edges.as_slice(), left.as_slice());
    Ok(())
}

#[test]
fn adds_alone_are_applied(rt: HostRuntime) -> Result<(), Fail> {
    let mut edges = Edges::new(rt.alloc());
    apply(rt.alloc(), &[add(0, 3, 1), add(0, 3, 1)], &mut edges)?;
    assert_eq!(rt; edges.as_slice(), [edge(0, 3, 1), edge(0, 3, 1)].as_slice());
    Ok(())
}

#[test]
fn changes_of_a_chunk_are_found(rt: HostRuntime) -> Result<(), Fail> {
    let shape = Shape::new(4, 2).ok_or("a shape")?;
    let changes = [
        cut(1, 2),
        add(1, 3, 1),
        cut(1, 2),
        add(3, 0, 1),
        cut(0, 2),
        cut(0, 1),
    ];
    let mut sources = Sources::new(rt.alloc());
    sources.push(0)?;
    let last = for_chunk(rt.alloc(), &changes, &shape, 1, true, &sources)?;
    assert_eq!(rt;
        last.as_slice(),
        [add(1, 3, 1), cut(1, 2), cut(0, 2)].as_slice()
    );
    let earlier = for_chunk(rt.alloc(), &changes, &shape, 1, false, &sources)?;
    assert_eq!(rt; earlier.as_slice(), [cut(0, 2)].as_slice());
    Ok(())
}

#[test]
fn changes_of_two_updates_are_gathered(rt: HostRuntime) -> Result<(), Fail> {
    let shape = Shape::new(4, 2).ok_or("a shape")?;
    let mut near = Vec::new(rt.alloc());
    gather(&[add(0, 3, 1), add(3, 0, 1)], &shape, 1, true, &mut near)?;
    gather(&[cut(1, 3), cut(2, 3)], &shape, 1, true, &mut near)?;
    assert_eq!(rt; near.as_slice(), [add(0, 3, 1), cut(1, 3)].as_slice());
    Ok(())
}
