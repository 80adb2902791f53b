//! Chunks of a small grid, fetched from a file that holds it and from one that changed.

ghost use Rattle.std.specs.Prelude.{◌≡◌, [], ◌∷◌, length, IfOk};
ghost use Rattle.gm_grid.specs.Format.{dimensions_of};
ghost use Rattle.gm_label.specs.Chunks.{chunks_of};
ghost use Rattle.gm_label.specs.Catalogues.{unlabelled};

use crate::{FetchError, Fetcher, Found, OpenError, fetch, open_grid};
use gm_base::{Edge, Shape};
use gm_fakes::{Call, DriftDepot, MemDepot};
use gm_grid::GridError;
use gm_grid::examples::PATH_BYTES;
use gm_label::{Catalogue, Label};
use gm_outside::Depot;
use std::alloc::Global;
use std::test::Fail;

fn edge(from: u32, to: u32, weight: u32) -> Edge {
    Edge { from, to, weight }
}

/// Its chunks of two edges, without labels.
fn path_chunks(alloc: Global) -> Result<Catalogue, Fail>
    ensures { IfOk result (λ cat. cat ≡ unlabelled (dimensions_of 4 2) (chunks_of 2 (1 ∷ 2 ∷ 0 ∷ 1 ∷ []))) }
{
    let shape = Shape::new(4, 2).ok_or("a shape")?;
    Ok(Catalogue::plan(alloc, shape, &[1, 2, 0, 1], 2)?)
}

/// The same with their labels.
fn path_catalogue(alloc: Global) -> Result<Catalogue, Fail>
    ensures { IfOk result (λ cat. length cat.places ≡ 4) }
{
    let mut catalogue = path_chunks(alloc)?;
    catalogue.set_label(0, &Label::from_slice(alloc, &[(0, 1)])?)?;
    catalogue.set_label(1, &Label::from_slice(alloc, &[(0, 1), (1, 1)])?)?;
    catalogue.set_label(3, &Label::from_slice(alloc, &[(2, 1)])?)?;
    Ok(catalogue)
}

/// A depot that holds the file, and fails at these calls.
fn path_depot(alloc: Global, fails: &[(Call, u64)]) -> Result<MemDepot, Fail> {
    let mut failing = Vec::new(alloc);
    failing.extend_from_slice(fails)?;
    let mut depot = MemDepot::new(alloc, failing);
    depot.put("a.grid", &PATH_BYTES)?;
    Ok(depot)
}

/// A depot that holds the file, and whose first read finds other bytes.
fn drifting_depot(alloc: Global, found: &[u8]) -> Result<DriftDepot, Fail> {
    let mut bytes = Vec::new(alloc);
    bytes.extend_from_slice(found)?;
    Ok(DriftDepot::new(path_depot(alloc, &[])?, 1, bytes))
}

/// Whether the chunk is fetched with these edges. Their room is given back.
fn fetches<D: Depot>(
    fetcher: &mut Fetcher,
    depot: &mut D,
    cat: &Catalogue,
    chunk: u32,
    edges: &[Edge],
) -> bool {
    if chunk >= cat.chunks() {
        return false;
    }
    match fetcher.fetch(cat, chunk, depot, "a.grid") {
        Ok(raw) => {
            let is_this = raw.chunk == chunk && raw.edges.as_slice() == edges;
            fetcher.give_back(raw.edges);
            is_this
        }
        Err(_) => false,
    }
}

#[test]
fn each_chunk_by_one_read(rt: HostRuntime) -> Result<(), Fail> {
    let alloc = rt.alloc();
    let cat = path_catalogue(alloc)?;
    let mut depot = path_depot(alloc, &[])?;
    let mut fetcher = Fetcher::new(alloc);
    assert!(rt; fetches(&mut fetcher, &mut depot, &cat, 3, &[edge(2, 3, 1)]));
    assert!(rt; fetches(&mut fetcher, &mut depot, &cat, 2, &[]));
    let second = [edge(1, 2, 1), edge(0, 2, 5)];
    assert!(rt; fetches(&mut fetcher, &mut depot, &cat, 1, &second));
    assert!(rt; fetches(&mut fetcher, &mut depot, &cat, 0, &[edge(0, 1, 1)]));
    assert_eq!(rt; depot.reads(), 3);
    Ok(())
}

#[test]
fn edges_as_they_stand_now(rt: HostRuntime) -> Result<(), Fail> {
    let alloc = rt.alloc();
    let cat = path_catalogue(alloc)?;
    let heavier = b"\x01\0\0\0\x02\0\0\0\x09\0\0\0\0\0\0\0\x02\0\0\0\x05\0\0\0";
    let mut depot = drifting_depot(alloc, heavier)?;
    let mut fetcher = Fetcher::new(alloc);
    let now = [edge(1, 2, 9), edge(0, 2, 5)];
    assert!(rt; fetches(&mut fetcher, &mut depot, &cat, 1, &now));
    let before = [edge(1, 2, 1), edge(0, 2, 5)];
    assert!(rt; fetches(&mut fetcher, &mut depot, &cat, 1, &before));
    Ok(())
}

#[test]
fn an_edge_of_another_block(rt: HostRuntime) -> Result<(), Fail> {
    let alloc = rt.alloc();
    let cat = path_catalogue(alloc)?;
    let moved = b"\x01\0\0\0\x02\0\0\0\x01\0\0\0\0\0\0\0\x01\0\0\0\x05\0\0\0";
    let mut depot = drifting_depot(alloc, moved)?;
    let mut fetcher = Fetcher::new(alloc);
    match fetcher.fetch(&cat, 1, &mut depot, "a.grid") {
        Err(
            FetchError::Changed {
                found: Found::Stray { index, edge: stray },
            },
        ) => {
            assert_eq!(rt; index, 2);
            assert_eq!(rt; stray, edge(0, 1, 5));
        }
        _ => return Err("a stray edge".into()),
    }
    let before = [edge(1, 2, 1), edge(0, 2, 5)];
    assert!(rt; fetches(&mut fetcher, &mut depot, &cat, 1, &before));
    Ok(())
}

#[test]
fn edges_of_another_source(rt: HostRuntime) -> Result<(), Fail> {
    let alloc = rt.alloc();
    let cat = path_catalogue(alloc)?;
    let moved = b"\x01\0\0\0\x02\0\0\0\x01\0\0\0\x01\0\0\0\x02\0\0\0\x05\0\0\0";
    let mut depot = drifting_depot(alloc, moved)?;
    match fetch(alloc, &mut depot, "a.grid", &cat, 1) {
        Err(
            FetchError::Changed {
                found: Found::Labels { kept, found },
            },
        ) => {
            assert_eq!(rt; kept.as_slice(), [(0, 1), (1, 1)].as_slice());
            assert_eq!(rt; found.as_slice(), [(1, 2)].as_slice());
        }
        _ => return Err("another label".into()),
    }
    Ok(())
}

#[test]
fn a_read_that_fails(rt: HostRuntime) -> Result<(), Fail> {
    let alloc = rt.alloc();
    let cat = path_catalogue(alloc)?;
    let mut depot = path_depot(alloc, &[(Call::Read, 2)])?;
    let mut fetcher = Fetcher::new(alloc);
    assert!(rt; fetches(&mut fetcher, &mut depot, &cat, 0, &[edge(0, 1, 1)]));
    match fetcher.fetch(&cat, 3, &mut depot, "a.grid") {
        Err(FetchError::Fault) => {}
        _ => return Err("a fault".into()),
    }
    assert_eq!(rt; depot.faults(), 1);
    assert!(rt; fetches(&mut fetcher, &mut depot, &cat, 3, &[edge(2, 3, 1)]));
    assert_eq!(rt; depot.reads(), 3);
    Ok(())
}

fn crosses_threads<T: Send + Sync + Drop>(_value: T) {}

#[test]
fn an_answer_may_be_sent(rt: HostRuntime) -> Result<(), Fail> {
    let cat = path_catalogue(rt.alloc())?;
    let mut depot = path_depot(rt.alloc(), &[])?;
    crosses_threads(fetch(rt.alloc(), &mut depot, "a.grid", &cat, 3));
    crosses_threads(Fetcher::new(rt.alloc()));
    Ok(())
}

/// How many chunks of this size the grid has, the labels of the first two, and the reads.
#[test]
fn a_grid_is_opened(rt: HostRuntime) -> Result<(), Fail> {
    let table: [(u32, u32, &[(u32, u32)], u64); 2] = [
        (1, 5, &[(1, 1)], 6),
        (2, 4, &[(0, 1), (1, 1)], 5),
    ];
    for (size, chunks, second, reads) in table {
        let mut depot = path_depot(rt.alloc(), &[])?;
        let Ok(cat) = open_grid(rt.alloc(), &mut depot, "a.grid", size) else {
            return Err(Fail::from("no catalogue"));
        };
        assert_eq!(rt; cat.chunks(), chunks, "{size}");
        let has_labels = cat.chunks() > 1
            && cat.label(0) == [(0, 1)].as_slice()
            && cat.label(1) == second;
        assert!(rt; has_labels, "{size}");
        assert_eq!(rt; depot.reads(), reads, "{size}");
    }
    Ok(())
}

#[test]
fn a_grid_is_missing_or_refused(rt: HostRuntime) -> Result<(), Fail> {
    let mut depot = path_depot(rt.alloc(), &[(Call::Read, 4)])?;
    depot.put("cut", &PATH_BYTES[..95])?;
    let missing = open_grid(rt.alloc(), &mut depot, "b.grid", 1).err();
    assert_eq!(rt; missing, Some(OpenError::Missing));
    let error = GridError::BadSize {
        found: 95,
        expected: 96,
    };
    let cut = open_grid(rt.alloc(), &mut depot, "cut", 1).err();
    assert_eq!(rt; cut, Some(OpenError::Grid(error)));
    assert_eq!(rt; depot.reads(), 2);
    let failed = open_grid(rt.alloc(), &mut depot, "a.grid", 1).err();
    assert_eq!(rt; failed, Some(OpenError::Fault));
    assert_eq!(rt; depot.faults(), 1);
    Ok(())
}
