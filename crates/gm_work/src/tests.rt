//! Jobs over a small graph in chunks of one edge, worked out by hand: which chunks each phase owes, and how it ends.

ghost use Rattle.std.specs.Prelude.{◌≡◌, ◌<◌, ◌≤◌, length, All, IfOk, IfSome};
ghost use Rattle.gm_base.specs.Graph.{HasEndsBelow};
ghost use Rattle.gm_kernel.specs.Runs.{most_rounds};
ghost use Rattle.gm_label.specs.Chunks.{chunks_of};
ghost use Rattle.gm_label.specs.Catalogues.{unlabelled};
ghost use Rattle.gm_label.specs.Examples.{two_ranges, path_counts};

use crate::Work;
use gm_base::{ChunkCopy, Edge, Edges, Key, Shape, Sources, Spec, Tag, Turned};
use gm_kernel::Phase;
use gm_label::{Catalogue, Label, Overlay, Overlays};
use std::alloc::Global;
use std::sync::Arc;
use std::test::Fail;

/// A path 0, 1, 2, 3 with a dear edge from 0 to 2, in two ranges. No chunk has its label.
fn path_chunks(alloc: Global) -> Result<Catalogue, Fail>
    ensures { IfOk result (λ cat. cat ≡ unlabelled two_ranges (chunks_of 1 path_counts)) }
{
    let shape = Shape::new(4, 2).ok_or("a shape")?;
    Ok(Catalogue::plan(alloc, shape, &[1, 2, 0, 1], 1)?)
}

/// The same with their labels. Chunk 3 is empty.
fn path_catalogue(alloc: Global) -> Result<Catalogue, Fail>
    ensures vertices { IfOk result (λ cat. cat.dimensions.n ≡ 4) }
    ensures chunks { IfOk result (λ cat. length cat.places ≡ 5) }
{
    let mut catalogue = path_chunks(alloc)?;
    catalogue.set_label(0, &Label::from_slice(alloc, &[(0, 1)])?)?;
    catalogue.set_label(1, &Label::from_slice(alloc, &[(1, 1)])?)?;
    catalogue.set_label(2, &Label::from_slice(alloc, &[(0, 1)])?)?;
    catalogue.set_label(4, &Label::from_slice(alloc, &[(2, 1)])?)?;
    Ok(catalogue)
}

/// The edge of a chunk of the path.
fn path_edge(chunk: u32) -> Option<Edge>
    ensures { IfSome result (HasEndsBelow 4) }
{
    let (from, to, weight) = match chunk {
        0 => (0, 1, 1),
        1 => (1, 2, 1),
        2 => (0, 2, 5),
        4 => (2, 3, 1),
        _ => return None,
    };
    Some(Edge { from, to, weight })
}

/// A job over the path.
fn path_job(alloc: Global, spec: Spec) -> Result<Work, Fail>
    requires { 1 ≤ most_rounds spec }
{
    let catalogue = Arc::new(alloc, path_catalogue(alloc)?)?;
    Ok(Work::admit(alloc, 0, spec, catalogue, Overlays::new(alloc))?)
}

/// A copy of a chunk with these edges.
fn copy_of(alloc: Global, key: Key, edges: &[Edge]) -> Result<ChunkCopy, Fail>
    requires { All (HasEndsBelow 4) edges.now }
    ensures { IfOk result (λ copy. (copy.key ≡ key) × All (HasEndsBelow 4) copy.edges) }
{
    let mut copied = Vec::new(alloc);
    copied.extend_from_slice(edges)?;
    Ok(ChunkCopy {
        key,
        edges: Edges::from_vec(copied),
    })
}

/// Passes a chunk of the grid where the job owes it, and answers whether it did.
fn pass_owed(alloc: Global, work: &mut Work, chunk: u32, edges: &[Edge]) -> Result<bool, Fail>
    requires { All (HasEndsBelow 4) edges.now }
{
    let is_path = chunk < work.catalogue().chunks() && work.catalogue().shape().n() == 4;
    if !is_path || !work.owes(chunk) {
        return Ok(false);
    }
    let key = work.key(chunk);
    if key.chunk != chunk {
        return Ok(false);
    }
    let copy = copy_of(alloc, key, edges)?;
    work.pass(&copy);
    Ok(true)
}

/// The same with the chunk's edge of the path.
fn pass_path_chunk(alloc: Global, work: &mut Work, chunk: u32) -> Result<bool, Fail> {
    match path_edge(chunk) {
        Some(edge) => pass_owed(alloc, work, chunk, &[edge]),
        None => Ok(false),
    }
}

/// Passes these chunks of the path in this order, and answers whether they are all that the job owes.
fn passes(alloc: Global, work: &mut Work, chunks: &[u32]) -> Result<bool, Fail> {
    for &chunk in chunks {
        if !pass_path_chunk(alloc, work, chunk)? {
            return Ok(false);
        }
    }
    Ok(work.owes_none())
}

/// The least owed chunk of those from this one on.
fn least_from(work: &Work, chunk: u32) -> Option<u32> {
    work.least_owed(chunk, work.catalogue().chunks())
}

fn values_are(work: Work, expected: &[u64]) -> bool {
    work.into_values().as_slice() == expected
}

/// Passes what the job owes in each of these phases, chunk by chunk in this order, and turns it after each. Answers the last turn, or
/// `None` where a phase owes other chunks, or another phase comes.
fn run(alloc: Global, work: &mut Work, phases: &[&[u32]]) -> Result<Option<Turned>, Fail> {
    let mut turned = Some(Turned::Owes);
    for chunks in phases {
        if turned != Some(Turned::Owes) || !passes(alloc, work, chunks)? {
            return Ok(None);
        }
        turned = Some(work.turn());
    }
    Ok(turned)
}

#[test]
fn levels(rt: HostRuntime) -> Result<(), Fail> {
    let spec = Spec::Bfs {
        source: 0,
        bound: 5,
    };
    let mut work = path_job(rt.alloc(), spec)?;
    // The third round owes nothing, since the fourth vertex has no edge, and changes nothing.
    let ended = run(rt.alloc(), &mut work, &[&[2, 0], &[4, 1]])?;
    assert_eq!(rt; ended, Some(Turned::Done { rounds: 3 }));
    assert!(rt; values_are(work, &[0, 1, 1, 2]));
    Ok(())
}

#[test]
fn what_a_job_owes_first(rt: HostRuntime) -> Result<(), Fail> {
    let spec = Spec::Bfs {
        source: 0,
        bound: 5,
    };
    let mut work = path_job(rt.alloc(), spec)?;
    assert_eq!(rt; work.phase(), Phase::Round { round: 0 });
    assert_eq!(rt; work.phases_left(), 5);
    assert_eq!(rt; work.turn(), Turned::Owes);
    assert_eq!(rt; least_from(&work, 0), Some(0));
    assert_eq!(rt; least_from(&work, 1), Some(2));
    assert_eq!(rt; least_from(&work, 3), None);
    Ok(())
}

#[test]
fn distances(rt: HostRuntime) -> Result<(), Fail> {
    let spec = Spec::Sssp {
        source: 0,
        bound: 5,
    };
    let mut work = path_job(rt.alloc(), spec)?;
    let ended = run(rt.alloc(), &mut work, &[&[0, 2], &[4, 1], &[4]])?;
    assert_eq!(rt; ended, Some(Turned::Done { rounds: 4 }));
    assert!(rt; values_are(work, &[0, 1, 2, 3]));
    Ok(())
}

#[test]
fn distances_in_too_few_rounds(rt: HostRuntime) -> Result<(), Fail> {
    let spec = Spec::Sssp {
        source: 0,
        bound: 3,
    };
    let mut work = path_job(rt.alloc(), spec)?;
    let ended = run(rt.alloc(), &mut work, &[&[2, 0], &[1, 4], &[4]])?;
    assert_eq!(rt; ended, Some(Turned::Bound { bound: 3 }));
    Ok(())
}

#[test]
fn labels(rt: HostRuntime) -> Result<(), Fail> {
    let mut work = path_job(rt.alloc(), Spec::Wcc { bound: 5 })?;
    // In the third round the fourth vertex alone has a new label: chunk 0 is needed neither by its source nor by its column.
    let ended = run(
        rt.alloc(),
        &mut work,
        &[&[4, 2, 1, 0], &[0, 1, 2, 4], &[4, 2, 1]],
    )?;
    assert_eq!(rt; ended, Some(Turned::Done { rounds: 3 }));
    assert!(rt; values_are(work, &[0, 0, 0, 0]));
    Ok(())
}

#[test]
fn one_round_of_rank(rt: HostRuntime) -> Result<(), Fail> {
    let mut work = path_job(rt.alloc(), Spec::Rank { rounds: 1 })?;
    assert_eq!(rt; work.phase(), Phase::Counting { round: 0 });
    assert_eq!(rt; work.phases_left(), 2);
    let ended = run(rt.alloc(), &mut work, &[&[4, 2, 1, 0], &[1, 0, 4, 2]])?;
    assert_eq!(rt; ended, Some(Turned::Done { rounds: 1 }));
    assert!(rt;
        values_are(
            work,
            &[150_000_000, 575_000_000, 1_425_000_000, 1_000_000_000]
        )
    );
    Ok(())
}

#[test]
fn two_rounds_of_rank(rt: HostRuntime) -> Result<(), Fail> {
    let mut work = path_job(rt.alloc(), Spec::Rank { rounds: 2 })?;
    let phases: [&[u32]; 3] = [&[0, 1, 2, 4], &[4, 2, 1, 0], &[2, 0, 4, 1]];
    let ended = run(rt.alloc(), &mut work, &phases)?;
    assert_eq!(rt; ended, Some(Turned::Done { rounds: 2 }));
    assert!(rt;
        values_are(
            work,
            &[150_000_000, 213_750_000, 702_500_000, 1_361_250_000]
        )
    );
    Ok(())
}

/// A job over one vertex without edges.
fn lone_job(alloc: Global, spec: Spec) -> Result<Work, Fail>
    requires { 1 ≤ most_rounds spec }
{
    let shape = Shape::new(1, 1).ok_or("a shape")?;
    let catalogue = Arc::new(alloc, Catalogue::plan(alloc, shape, &[0], 1)?)?;
    Ok(Work::admit(alloc, 0, spec, catalogue, Overlays::new(alloc))?)
}

#[test]
fn one_vertex_without_edges(rt: HostRuntime) -> Result<(), Fail> {
    let spec = Spec::Bfs {
        source: 0,
        bound: 2,
    };
    let mut reached = lone_job(rt.alloc(), spec)?;
    assert_eq!(rt; reached.turn(), Turned::Done { rounds: 1 });
    assert!(rt; values_are(reached, &[0]));
    let mut ranked = lone_job(rt.alloc(), Spec::Rank { rounds: 3 })?;
    assert_eq!(rt; ranked.turn(), Turned::Done { rounds: 3 });
    assert!(rt; values_are(ranked, &[150_000_000]));
    Ok(())
}

/// A job over the path to which an edge from 3 to 0 was added: it goes into the empty chunk.
fn changed_job(alloc: Global, spec: Spec) -> Result<Work, Fail>
    requires { 1 ≤ most_rounds spec }
{
    let catalogue = path_catalogue(alloc)?;
    let mut added = Sources::new(alloc);
    added.push(3)?;
    let key = Key {
        chunk: 3,
        tag: Tag::Own(7),
    };
    let mut overlays = Overlays::new(alloc);
    overlays.push(Overlay { key, added })?;
    Ok(Work::admit(alloc, 7, spec, Arc::new(alloc, catalogue)?, overlays)?)
}

#[test]
fn an_added_source_makes_an_empty_chunk_owed(rt: HostRuntime) -> Result<(), Fail> {
    let alloc = rt.alloc();
    let spec = Spec::Bfs {
        source: 3,
        bound: 5,
    };
    let mut work = changed_job(alloc, spec)?;
    assert_eq!(rt; work.job(), 7);
    assert_eq!(rt; work.key(3).tag, Tag::Own(7));
    assert_eq!(rt; work.key(4).tag, Tag::Update(0));
    let added = Edge {
        from: 3,
        to: 0,
        weight: 9,
    };
    assert!(rt; pass_owed(alloc, &mut work, 3, &[added])?);
    assert_eq!(rt; work.turn(), Turned::Owes);
    assert!(rt; passes(alloc, &mut work, &[2, 0])?);
    Ok(())
}

fn crosses_threads<T: Send + Sync + Drop>(_value: T) {}

#[test]
fn a_job_may_be_handed_over(rt: HostRuntime) -> Result<(), Fail> {
    crosses_threads(lone_job(rt.alloc(), Spec::Wcc { bound: 1 })?);
    Ok(())
}
