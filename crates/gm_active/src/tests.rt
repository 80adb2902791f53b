//! Sets over several words, and what jobs need of a small grid, by real calls with ample memory.

ghost use Rattle.std.specs.Prelude.{◌≡◌, length, IfOk};

use crate::{Active, ChunkSet, owed, owed_in_counting};
use gm_base::{Edge, Key, Shape, Sources, Tag};
use gm_label::{Catalogue, Label, Overlay, Overlays};
use std::alloc::Global;
use std::test::Fail;

/// An edge of weight 1.
fn edge(from: u32, to: u32) -> Edge
    ensures from { result.from ≡ from }
    ensures to { result.to ≡ to }
{
    Edge {
        from,
        to,
        weight: 1,
    }
}

#[test]
fn vertices_over_two_words(rt: HostRuntime) -> Result<(), Fail> {
    let mut active = Active::new(rt.alloc(), 70)?;
    active.mark(63);
    active.mark(69);
    assert!(rt; active.has(63));
    assert!(rt; !active.has(64));
    assert!(rt; active.any(64, 70));
    assert!(rt; !active.any(64, 69));
    active.clear();
    assert!(rt; !active.any(0, 70));
    Ok(())
}

#[test]
fn chunks_over_two_words(rt: HostRuntime) -> Result<(), Fail> {
    let mut chunks = ChunkSet::new(rt.alloc(), 70)?;
    chunks.add(1);
    chunks.add(62);
    chunks.add(69);
    chunks.remove(62);
    assert_eq!(rt; chunks.count(), 2);
    assert_eq!(rt; chunks.least(0, 70), Some(1));
    assert_eq!(rt; chunks.least(2, 70), Some(69));
    assert_eq!(rt; chunks.least(2, 69), None);
    chunks.clear();
    assert!(rt; chunks.is_empty());
    Ok(())
}

fn crosses_threads<T: Send + Sync + Drop>(_value: T) {}

#[test]
fn sets_may_be_shared(rt: HostRuntime) -> Result<(), Fail> {
    crosses_threads(Active::new(rt.alloc(), 1)?);
    crosses_threads(ChunkSet::new(rt.alloc(), 1)?);
    Ok(())
}

/// Four vertices in two ranges with an edge from 0 to 1 and one from 2 to 3: the first chunk and the last of four have a source.
fn two_edges(alloc: Global) -> Result<Catalogue, Fail>
    ensures vertices { IfOk result (λ cat. cat.dimensions.n ≡ 4) }
    ensures chunks { IfOk result (λ cat. length cat.places ≡ 4) }
{
    let shape = Shape::new(4, 2).ok_or("a shape")?;
    let mut cat = Catalogue::plan(alloc, shape, &[1, 0, 0, 1], 1)?;
    let first = Label::of(alloc, &[edge(0, 1)])?;
    cat.set_label(0, &first)?;
    let last = Label::of(alloc, &[edge(2, 3)])?;
    cat.set_label(3, &last)?;
    Ok(cat)
}

#[test]
fn chunks_by_row_and_by_column(rt: HostRuntime) -> Result<(), Fail> {
    let cat = two_edges(rt.alloc())?;
    let none = Overlays::new(rt.alloc());
    let mut active = Active::new(rt.alloc(), 4)?;
    active.mark(1);
    let mut chunks = ChunkSet::new(rt.alloc(), 4)?;
    chunks.add(2);
    owed(&cat, &none, &active, false, &mut chunks);
    assert!(rt; chunks.is_empty());
    owed(&cat, &none, &active, true, &mut chunks);
    assert_eq!(rt; chunks.count(), 1);
    assert!(rt; chunks.has(0));
    Ok(())
}

#[test]
fn chunks_of_an_added_source(rt: HostRuntime) -> Result<(), Fail> {
    let cat = two_edges(rt.alloc())?;
    let mut added = Sources::new(rt.alloc());
    added.push(1)?;
    let key = Key {
        chunk: 1,
        tag: Tag::Update(1),
    };
    let mut overlays = Overlays::new(rt.alloc());
    overlays.push(Overlay { key, added })?;
    let mut active = Active::new(rt.alloc(), 4)?;
    active.mark(1);
    let mut chunks = ChunkSet::new(rt.alloc(), 4)?;
    owed(&cat, &overlays, &active, false, &mut chunks);
    assert_eq!(rt; chunks.count(), 1);
    assert!(rt; chunks.has(1));
    owed_in_counting(&cat, &overlays, &mut chunks);
    assert_eq!(rt; chunks.count(), 3);
    Ok(())
}
