//! A buffer by real calls with ample memory.

use crate::Buffer;
use gm_base::{ChunkCopy, Edge, Edges, Key, Tag};
use std::alloc::Global;
use std::test::Fail;

#[test]
fn a_copy_leaves_with_its_last_rider(rt: HostRuntime) -> Result<(), Fail> {
    let mut buffer = Buffer::new(rt.alloc());
    let key = Key {
        chunk: 2,
        tag: Tag::Update(0),
    };
    let mut edges = Edges::new(rt.alloc());
    let edge = Edge {
        from: 1,
        to: 2,
        weight: 3,
    };
    edges.push(edge)?;
    let riders = vec![in rt.alloc(); 0, 3]?;
    buffer.put(ChunkCopy { key, edges }, riders)?;
    let share = buffer.give(key)?;
    assert!(rt; share.edges.as_slice()[0] == edge);
    drop(share);
    assert!(rt; buffer.reclaim(key, 3).is_none());
    assert!(rt; buffer.holds(key));
    let room = buffer.reclaim(key, 0);
    assert!(rt; room.is_some());
    assert!(rt; !buffer.holds(key));
    Ok(())
}

/// A copy of a chunk without edges.
fn empty_copy(alloc: Global, chunk: u32) -> ChunkCopy {
    let key = Key {
        chunk,
        tag: Tag::Own(1),
    };
    let edges = Edges::new(alloc);
    ChunkCopy { key, edges }
}

#[test]
fn a_share_keeps_its_edges(rt: HostRuntime) -> Result<(), Fail> {
    let alloc = rt.alloc();
    let mut buffer = Buffer::new(alloc);
    buffer.put(empty_copy(alloc, 5), vec![in alloc; 1]?)?;
    let key = Key {
        chunk: 5,
        tag: Tag::Own(1),
    };
    assert!(rt; buffer.holds(key));
    let share = buffer.give(key)?;
    buffer.passed(key, 2);
    assert!(rt; buffer.holds(key));
    assert!(rt; buffer.reclaim(key, 1).is_none());
    assert!(rt; !buffer.holds(key));
    assert!(rt; share.key.chunk == 5);
    assert!(rt; share.edges.as_slice().is_empty());
    Ok(())
}

#[test]
fn a_copy_goes_when_it_was_passed(rt: HostRuntime) -> Result<(), Fail> {
    let mut buffer = Buffer::new(rt.alloc());
    buffer.put(empty_copy(rt.alloc(), 5), vec![in rt.alloc(); 1, 2]?)?;
    let key = Key {
        chunk: 5,
        tag: Tag::Own(1),
    };
    buffer.passed(key, 1);
    assert!(rt; buffer.holds(key));
    buffer.passed(key, 2);
    assert!(rt; !buffer.holds(key));
    Ok(())
}
