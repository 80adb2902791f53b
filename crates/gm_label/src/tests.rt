//! Each call that takes memory, with ample memory: that it answers at all is what no clause says.

ghost use Rattle.std.specs.Prelude.{◌≡◌, ◌*◌, ◌≤◌};
ghost use Rattle.gm_base.specs.declared.limits.TheConstants.{MAX_EDGES};

use crate::{Catalogue, Label, Overlay, Overlays, PlanError, Raw, SourceCounts};
use gm_base::{Edge, Edges, Key, Shape, Sources, Tag};
use std::alloc::Global;
use std::test::Fail;

/// Two equal edges from vertex 0, one from vertex 2.
const EDGES: [Edge; 3] = [
    Edge {
        from: 2,
        to: 1,
        weight: 1,
    },
    Edge {
        from: 0,
        to: 1,
        weight: 1,
    },
    Edge {
        from: 0,
        to: 1,
        weight: 1,
    },
];

#[test]
fn a_label_is_made_and_copied(rt: HostRuntime) -> Result<(), Fail> {
    let label = Label::of(rt.alloc(), &EDGES)?;
    assert_eq!(rt; label.as_slice(), [(0, 2), (2, 1)].as_slice());
    let copied = Label::from_slice(rt.alloc(), label.as_slice())?;
    assert_eq!(rt; copied.as_slice(), label.as_slice());
    Ok(())
}

#[test]
fn a_chunk_is_counted_by_sorting_and_in_a_table(rt: HostRuntime) -> Result<(), Fail> {
    let label = [(0, 2), (2, 1)];
    let mut counts = SourceCounts::new(rt.alloc());
    counts.count(0, 1_048_576, &EDGES)?;
    assert!(rt; counts.matches(&label));
    counts.count(0, 3, &EDGES)?;
    assert!(rt; counts.matches(&label));
    assert!(rt; !counts.matches(&label[..1]));
    Ok(())
}

#[test]
fn a_catalogue_is_labelled(rt: HostRuntime) -> Result<(), Fail> {
    let shape = Shape::new(3, 1).ok_or("a shape")?;
    let mut catalogue = Catalogue::plan(rt.alloc(), shape, &[3], 3)?;
    assert_eq!(rt; catalogue.chunks(), 1);
    let label = Label::of(rt.alloc(), &EDGES)?;
    catalogue.set_label(0, &label)?;
    assert_eq!(rt; catalogue.label(0), [(0, 2), (2, 1)].as_slice());
    assert_eq!(rt; catalogue.pairs(), 2);
    Ok(())
}

#[test]
fn a_catalogue_is_labelled_by_counts(rt: HostRuntime) -> Result<(), Fail> {
    let shape = Shape::new(3, 1).ok_or("a shape")?;
    let mut catalogue = Catalogue::plan(rt.alloc(), shape, &[3], 3)?;
    let mut counts = SourceCounts::new(rt.alloc());
    counts.count(0, 3, &EDGES)?;
    catalogue.set_label(0, &counts)?;
    assert_eq!(rt; catalogue.label(0), [(0, 2), (2, 1)].as_slice());
    Ok(())
}

/// How many chunks of one edge the only block of a grid has.
fn chunks_of_one_edge(alloc: Global, shape: Shape, count: u64) -> Result<u32, PlanError>
    requires blocks { 1 ≡ shape.parts * shape.parts }
    requires few { count ≤ MAX_EDGES }
{
    let catalogue = Catalogue::plan(alloc, shape, &[count], 1)?;
    Ok(catalogue.chunks())
}

#[test]
fn most_chunks(rt: HostRuntime) -> Result<(), Fail> {
    let shape = Shape::new(1, 1).ok_or("a shape")?;
    assert_eq!(rt;
        chunks_of_one_edge(rt.alloc(), shape, 1_048_576)?,
        1_048_576
    );
    let refused = PlanError::TooManyChunks { chunks: 1_048_577 };
    assert_eq!(rt;
        chunks_of_one_edge(rt.alloc(), shape, 1_048_577),
        Err(refused)
    );
    Ok(())
}

#[test]
fn overlays_and_raw_chunks(rt: HostRuntime) -> Result<(), Fail> {
    let mut added = Sources::new(rt.alloc());
    added.push(3)?;
    let key = Key {
        chunk: 2,
        tag: Tag::Update(1),
    };
    let mut overlays = Overlays::new(rt.alloc());
    overlays.push(Overlay { key, added })?;
    assert_eq!(rt; overlays.len(), 1);
    let raw = Raw {
        chunk: 2,
        edges: Edges::new(rt.alloc()),
    };
    crosses_threads(raw);
    Ok(())
}

fn crosses_threads<T: Send + Sync + Drop>(_value: T) {}

#[test]
fn a_catalogue_may_be_shared(rt: HostRuntime) -> Result<(), Fail> {
    let shape = Shape::new(1, 1).ok_or("a shape")?;
    crosses_threads(Catalogue::plan(rt.alloc(), shape, &[0], 1)?);
    crosses_threads(Overlays::new(rt.alloc()));
    crosses_threads(Label::of(rt.alloc(), &[])?);
    crosses_threads(SourceCounts::new(rt.alloc()));
    Ok(())
}
