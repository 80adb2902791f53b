//! The changes that concern a chunk.

ghost use Rattle.std.specs.Prelude.{◌≡◌, ◌==◌, ◌∷◌, ◌++◌, ℕ, List, take, drop, IfOk, OnOk, OnErr};
ghost use Rattle.std.specs.Vec.{vec_len};
ghost use Rattle.gm_base.specs.Dimensions.{block_of};
ghost use Rattle.gm_base.specs.Graph.{edge};
ghost use Rattle.gm_changes.specs.declared.change.Change.{Change as AnyChange};
ghost use Rattle.gm_changes.specs.Concerns.{site_of, may_concern, possible_changes, concerning_changes, sources_after_one};
ghost use Rattle.gm_changes.specs.Sources.{listed_changes, TellsSources};

use crate::cut_sources::CutSources;
use crate::{Change, Changes};
use gm_base::{Memory, Shape, Sources};
use std::alloc::Global;

/// Whether an edge from the one vertex to the other lies in the block. The rule is applied to numbers beyond the vertices too.
fn lies_in(shape: &Shape, block: u32, from: u32, to: u32) -> bool
    ensures { result ≡ (block_of shape.now (edge from to 0) == block) }
{
    let width = shape.width();
    let row = u64::from(from / width);
    let column = u64::from(to / width);
    row * u64::from(shape.parts()) + column == u64::from(block)
}

/// Whether a change may concern a chunk of the block, whatever its sources are. An added edge goes to the block's last chunk.
fn may_concern(shape: &Shape, block: u32, last: bool, change: &Change) -> bool
    ensures { result ≡ may_concern shape.now (site_of block last) change.now }
{
    match *change {
        Change::Add(e) => last && lies_in(shape, block, e.from, e.to),
        Change::Cut { from, to } => lies_in(shape, block, from, to),
    }
}

/// Adds those changes that may concern a chunk of the block. After `Memory` some of them may be in the list.
fn push_possible(
    changes: &[Change],
    shape: &Shape,
    block: u32,
    last: bool,
    into: &mut Vec<Change>,
) -> Result<(), Memory>
    ensures added { let here = possible_changes shape.now (site_of block last) changes.now in
        OnOk result (into.new.items ≡ into.old.items ++ here) }
    ensures front { take (vec_len into.old) into.new.items ≡ into.old.items }
{
    for change in changes {
        if may_concern(shape, block, last, change) {
            into.push(*change)?;
        }
    }
    Ok(())
}

/// Adds to the list those changes that may concern a chunk of the block, whatever its sources are: the edges that are added to the
/// block, where the chunk is its last one, and the cuts in the block. To apply these to the chunk's edges is to apply those that
/// concern it. A refusal leaves the list as it was.
pub fn gather(
    changes: &[Change],
    shape: &Shape,
    block: u32,
    last: bool,
    into: &mut Vec<Change>,
) -> Result<(), Memory>
    ensures ok { let here = possible_changes shape.now (site_of block last) changes.now in
        OnOk result (into.new.items ≡ into.old.items ++ here) }
    ensures err { OnErr result (into.new.items ≡ into.old.items) }
{
    let before = into.len();
    match push_possible(changes, shape, block, last, into) {
        Ok(()) => Ok(()),
        Err(refusal) => {
            into.truncate(before);
            Err(refusal)
        }
    }
}

/// Takes the change that comes next, unless it is a cut whose source the chunk hasn't.
fn keep_if_listed(change: &Change, told: &mut CutSources, kept: &mut Changes) -> Result<(), Memory>
    ensures told { OnOk result ((changes : List AnyChange) (sources : List ℕ)
        → TellsSources changes sources told.old
        → TellsSources changes (sources_after_one change.now sources) told.new) }
    ensures kept { OnOk result ((changes rest : List AnyChange) (place : ℕ) (sources : List ℕ)
        → TellsSources changes sources told.old → drop place changes ≡ change.now ∷ rest
        → kept.new ++ listed_changes (sources_after_one change.now sources) rest
        ≡ kept.old ++ listed_changes sources (change.now ∷ rest)) }
{
    match *change {
        Change::Add(e) => {
            told.add(e.from);
            kept.push(*change)?;
        }
        Change::Cut { from, .. } => {
            if told.has(from) {
                kept.push(*change)?;
            }
        }
    }
    Ok(())
}

/// Of changes that may concern a chunk those that do: all added edges, and the cuts whose source the chunk has by then.
fn keep_listed(alloc: Global, near: &[Change], sources: &Sources) -> Result<Changes, Memory>
    ensures { IfOk result (λ kept. kept ≡ listed_changes sources.now near.now) }
{
    let mut told = CutSources::of(alloc, near)?;
    told.add_all(sources);
    let mut kept = Changes::new(alloc);
    for change in near {
        keep_if_listed(change, &mut told, &mut kept)?;
    }
    Ok(kept)
}

/// Those of the changes that concern the chunk of a block with these sources, in their order. An added edge concerns the last chunk
/// of its block, and its source is one of the chunk's from then on. A cut concerns each chunk of its block that has the edges'
/// source by then.
pub fn for_chunk(
    alloc: Global,
    changes: &[Change],
    shape: &Shape,
    block: u32,
    last: bool,
    sources: &Sources,
) -> Result<Changes, Memory>
    ensures { let here = concerning_changes shape.now (site_of block last) sources.now changes.now in
        IfOk result (λ kept. kept ≡ here) }
{
    let mut near = Vec::new(alloc);
    gather(changes, shape, block, last, &mut near)?;
    keep_listed(alloc, near.as_slice(), sources)
}
