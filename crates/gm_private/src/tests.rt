//! Each call that takes memory, with ample memory: that it answers at all is what no clause says. The grid has two edges 0>1 in one chunk and
//! 1>0 in the next. An update adds 1>1 to it, and the job, which is the fourth, cuts 0>1 and adds 0>0.

ghost use Rattle.std.specs.Prelude.{◌≡◌, ◌≤◌, [], ◌∷◌, length, IfOk};
ghost use Rattle.gm_label.specs.Chunks.{chunks_of};
ghost use Rattle.gm_label.specs.Catalogues.{unlabelled};
ghost use Rattle.gm_versions.specs.Kept.{IsOf};
ghost use Rattle.gm_private.specs.OwnChanges.{IsOwnOver};

use crate::Own;
use gm_base::{Edge, Edges, Key, Shape, Tag};
use gm_changes::{Change, Changes};
use gm_label::{Catalogue, Label, Raw};
use gm_versions::Versions;
use std::alloc::Global;
use std::test::Fail;

/// So many edges in chunks of two, without labels.
fn planned(alloc: Global, edges: u64) -> Result<Catalogue, Fail>
    requires { edges ≤ 4 }
    ensures { IfOk result (λ cat. cat ≡ unlabelled (record { n = 2; parts = 1 }) (chunks_of 2 (edges ∷ []))) }
{
    match Shape::new(2, 1) {
        Some(shape) => Ok(Catalogue::plan(alloc, shape, &[edges], 2)?),
        None => Err("a shape".into()),
    }
}

fn labelled(alloc: Global) -> Result<Catalogue, Fail>
    ensures vertices { IfOk result (λ cat. cat.dimensions.n ≡ 2) }
    ensures chunks { IfOk result (λ cat. length cat.places ≡ 2) }
{
    let (first, second) = ([(0, 2)], [(1, 1)]);
    let mut cat = planned(alloc, 3)?;
    cat.set_label(0, &Label::from_slice(alloc, &first)?)?;
    cat.set_label(1, &Label::from_slice(alloc, &second)?)?;
    Ok(cat)
}

fn edge(from: u32, to: u32) -> Edge
    ensures { result ≡ record { from = from; to = to; weight = 1 } }
{
    let weight = 1;
    Edge { from, to, weight }
}

fn updated(alloc: Global, cat: &Catalogue) -> Result<Versions, Fail>
    requires { cat.now.dimensions.n ≡ 2 }
    ensures catalogue { IfOk result (λ versions. IsOf cat.now versions) }
    ensures count { IfOk result (λ versions. length versions.batches ≡ 1) }
{
    let mut versions = Versions::new(alloc);
    versions.update(cat, &[Change::Add(edge(1, 1))])?;
    Ok(versions)
}

/// The grid's catalogue, the update, and the job.
fn mutated(alloc: Global) -> Result<(Catalogue, Versions, Own), Fail>
    ensures over { IfOk result (λ all. IsOwnOver all.0 all.1 all.2) }
    ensures chunks { IfOk result (λ all. length all.0.places ≡ 2) }
    ensures updates { IfOk result (λ all. length all.1.batches ≡ 1) }
{
    let cat = labelled(alloc)?;
    let versions = updated(alloc, &cat)?;
    let mut changes = Changes::new(alloc);
    let (from, to) = (0, 1);
    changes.push(Change::Cut { from, to })?;
    changes.push(Change::Add(edge(0, 0)))?;
    Ok((cat, versions, Own::new(3, 1, changes)))
}

fn own_key(chunk: u32) -> Key
    ensures { result ≡ record { chunk = chunk; tag = Tag.Own 3 } }
{
    let tag = Tag::Own(3);
    Key { chunk, tag }
}

#[test]
fn keys_of_a_job(rt: HostRuntime) -> Result<(), Fail> {
    let (cat, versions, own) = mutated(rt.alloc())?;
    assert_eq!(rt; own.key(&cat, &versions, 0), own_key(0));
    assert_eq!(rt; own.key(&cat, &versions, 1), own_key(1));
    let other = Own::new(4, 1, Changes::new(rt.alloc()));
    assert_eq!(rt; other.key(&cat, &versions, 1).tag, Tag::Update(1));
    Ok(())
}

#[test]
fn overlays_of_a_job(rt: HostRuntime) -> Result<(), Fail> {
    let (cat, versions, own) = mutated(rt.alloc())?;
    let overlays = own.overlays(rt.alloc(), &cat, &versions)?;
    assert_eq!(rt; overlays.len(), 2);
    let first = overlays.as_slice().get(0).ok_or("an overlay")?;
    assert_eq!(rt; (first.key, first.added.len()), (own_key(0), 0));
    let second = overlays.as_slice().get(1).ok_or("an overlay")?;
    assert_eq!(rt; second.key, own_key(1));
    assert_eq!(rt; second.added.as_slice(), [1, 0].as_slice());
    let other = Own::new(4, 1, Changes::new(rt.alloc()));
    assert_eq!(rt; other.overlays(rt.alloc(), &cat, &versions)?.len(), 1);
    Ok(())
}

fn raw_chunk(alloc: Global) -> Result<Raw, Fail>
    ensures { IfOk result (λ raw. raw.chunk ≡ 0) }
{
    let mut edges = Edges::new(alloc);
    edges.push(edge(0, 1))?;
    edges.push(edge(0, 1))?;
    Ok(Raw { chunk: 0, edges })
}

/// Both equal edges go in the job's copies, and the edges as they were read stay for the others.
#[test]
fn copies_of_a_job(rt: HostRuntime) -> Result<(), Fail> {
    let alloc = rt.alloc();
    let (cat, versions, own) = mutated(alloc)?;
    let raw = raw_chunk(alloc)?;
    let key = own.key(&cat, &versions, 0);
    let copied = own.copy(alloc, &cat, &versions, &raw, key)?;
    assert_eq!(rt; (copied.key, copied.edges.len()), (own_key(0), 0));
    assert_eq!(rt; raw.edges.len(), 2);
    let taken = own.into_copy(alloc, &cat, &versions, raw, key)?;
    assert_eq!(rt; (taken.key, taken.edges.len()), (own_key(0), 0));
    Ok(())
}

fn crosses_threads<T: Send + Sync + Drop>(_value: T) {}

#[test]
fn own_changes_may_be_shared(rt: HostRuntime) {
    crosses_threads(Own::new(0, 0, Changes::new(rt.alloc())));
}
