//! Each call that takes memory, with ample memory: that it answers at all is what no clause says. The grid has the edges 0>1 and 2>0, in
//! two chunks.

ghost use Rattle.std.specs.Prelude.{◌≡◌, [], ◌∷◌, length, IfOk};
ghost use Rattle.gm_label.specs.Chunks.{chunks_of};
ghost use Rattle.gm_label.specs.Catalogues.{unlabelled};
ghost use Rattle.gm_versions.specs.Kept.{IsOf};

use crate::Versions;
use gm_base::{Edge, Edges, Key, Shape, Tag};
use gm_changes::Change;
use gm_label::{Catalogue, Label, Raw};
use std::alloc::Global;
use std::test::Fail;

fn unlabelled_chunks(alloc: Global) -> Result<Catalogue, Fail>
    ensures { IfOk result (λ cat. cat ≡ unlabelled (record { n = 3; parts = 1 }) (chunks_of 1 (2 ∷ []))) }
{
    let shape = Shape::new(3, 1).ok_or("a shape")?;
    Ok(Catalogue::plan(alloc, shape, &[2], 1)?)
}

fn two_chunks(alloc: Global) -> Result<Catalogue, Fail>
    ensures vertices { IfOk result (λ cat. cat.dimensions.n ≡ 3) }
    ensures chunks { IfOk result (λ cat. length cat.places ≡ 2) }
{
    let mut catalogue = unlabelled_chunks(alloc)?;
    catalogue.set_label(0, &Label::from_slice(alloc, &[(0, 1)])?)?;
    catalogue.set_label(1, &Label::from_slice(alloc, &[(2, 1)])?)?;
    Ok(catalogue)
}

/// First 1>2 is added, and then 0>1 is cut.
fn two_updates(alloc: Global, cat: &Catalogue) -> Result<Versions, Fail>
    requires { cat.now.dimensions.n ≡ 3 }
    ensures catalogue { IfOk result (λ versions. IsOf cat.now versions) }
    ensures count { IfOk result (λ versions. length versions.batches ≡ 2) }
{
    let mut versions = Versions::new(alloc);
    let (from, to) = (1, 2);
    let weight = 4;
    versions.update(cat, &[Change::Add(Edge { from, to, weight })])?;
    versions.update(cat, &[Change::Cut { from: 0, to: 1 }])?;
    Ok(versions)
}

fn update_key(chunk: u32, update: u32) -> Key
    ensures { result ≡ record { chunk = chunk; tag = Tag.Update update } }
{
    let tag = Tag::Update(update);
    Key { chunk, tag }
}

#[test]
fn keys_of_versions(rt: HostRuntime) -> Result<(), Fail> {
    let cat = two_chunks(rt.alloc())?;
    let versions = two_updates(rt.alloc(), &cat)?;
    assert_eq!(rt; versions.count(), 2);
    assert_eq!(rt; versions.key(&cat, 1, 0), update_key(0, 0));
    assert_eq!(rt; versions.key(&cat, 1, 1), update_key(1, 1));
    assert_eq!(rt; versions.key(&cat, 2, 0), update_key(0, 2));
    assert_eq!(rt; versions.key(&cat, 2, 1), update_key(1, 1));
    Ok(())
}

#[test]
fn overlays_of_a_version(rt: HostRuntime) -> Result<(), Fail> {
    let cat = two_chunks(rt.alloc())?;
    let versions = two_updates(rt.alloc(), &cat)?;
    let overlays = versions.overlays(rt.alloc(), &cat, 2)?;
    assert_eq!(rt; overlays.len(), 2);
    let second = overlays.as_slice().get(1).ok_or("an overlay")?;
    assert_eq!(rt; second.key, update_key(1, 1));
    assert_eq!(rt; second.added.as_slice(), [1].as_slice());
    assert_eq!(rt; versions.overlays(rt.alloc(), &cat, 0)?.len(), 0);
    Ok(())
}

/// The chunk of 2>0 as it was read.
fn second_chunk(alloc: Global) -> Result<Raw, Fail>
    ensures { IfOk result (λ raw. raw.chunk ≡ 1) }
{
    let (from, to) = (2, 0);
    let weight = 7;
    let mut edges = Edges::new(alloc);
    edges.push(Edge { from, to, weight })?;
    Ok(Raw { chunk: 1, edges })
}

#[test]
fn copies_of_a_chunk(rt: HostRuntime) -> Result<(), Fail> {
    let alloc = rt.alloc();
    let cat = two_chunks(alloc)?;
    let versions = two_updates(alloc, &cat)?;
    let raw = second_chunk(alloc)?;
    let copied = versions.copy(alloc, &cat, &raw, &update_key(1, 1))?;
    assert_eq!(rt; copied.edges.len(), 2);
    let added = copied.edges.as_slice().get(1).ok_or("an edge")?;
    assert_eq!(rt; (added.from, added.to, added.weight), (1, 2, 4));
    let untouched = versions.into_copy(alloc, &cat, raw, update_key(1, 0))?;
    assert_eq!(rt; untouched.key, update_key(1, 0));
    assert_eq!(rt; untouched.edges.len(), 1);
    Ok(())
}

fn crosses_threads<T: Send + Sync + Drop>(_value: T) {}

#[test]
fn versions_may_be_shared(rt: HostRuntime) {
    crosses_threads(Versions::new(rt.alloc()));
}
