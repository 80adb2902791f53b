//! The file of a grid.

ghost use Rattle.std.specs.Prelude.{◌≡◌, ◌≤◌, length, IfOk, OnOk, OnErr, IsErrOf, IsTrue};
ghost use Rattle.gm_base.specs.declared.limits.TheConstants.{MAX_EDGES};
ghost use Rattle.gm_base.specs.Graph.{IsGraph};
ghost use Rattle.gm_outside.specs.Frames.{OnlyWrites, CountsFaults, CountsWriteFaults};
ghost use Rattle.gm_build.specs.Blocks.{front_bytes, built_file, IsBuiltGrid, KeepsGraph, HoldsGrid, HoldsPart};

use crate::blocks::{add_up, count_blocks};
use crate::places::fill_body;
use gm_base::{Edge, Edges, Shape};
use gm_grid::{write_count, write_head};
use gm_outside::{Depot, Trouble};
use std::alloc::{AllocError, Global};

/// The head and the index of a file, in a list with room for so many bytes.
fn front_of(
    alloc: Global,
    shape: &Shape,
    counts: &[usize],
    size: usize,
) -> Result<Vec<u8>, AllocError>
    ensures { IfOk result (λ front. front.items ≡ front_bytes shape.now counts.now) }
{
    let mut front = Vec::with_capacity(alloc, size)?;
    let mut head = [0u8; 16];
    write_head(shape, &mut head);
    front.extend_from_slice(&head)?;
    for &count in counts {
        let mut bytes = [0u8; 8];
        write_count(count as u64, &mut bytes);
        front.extend_from_slice(&bytes)?;
    }
    Ok(front)
}

/// The file of the grid of these edges.
pub(crate) fn file_of(alloc: Global, shape: &Shape, edges: &[Edge]) -> Result<Vec<u8>, AllocError>
    requires ends { IsGraph shape.now.n edges.now }
    requires few { length edges.now ≤ MAX_EDGES }
    ensures bytes { IfOk result (λ file. file.items ≡ built_file shape.now edges.now) }
    ensures grid { OnOk result (IsBuiltGrid shape.now edges.now) }
    ensures graph { OnOk result (KeepsGraph shape.now edges.now) }
{
    let mut counts = count_blocks(alloc, shape, edges)?;
    let parts = shape.parts() as usize;
    let index_end = 16 + 8 * (parts * parts);
    let size = index_end + 12 * edges.len();
    let mut file = front_of(alloc, shape, &counts, size)?;
    file.resize(size, 0)?;
    add_up(&mut counts);
    fill_body(shape, edges, &mut counts, index_end, &mut file);
    Ok(file)
}

/// Makes a file the grid of these edges, in each block in their order. No other file changes. After a refusal the file is as it was before,
/// or holds a first part of that grid.
#[tactic(auto, using(gm_outside::specs::ChangesRules::changes))]
pub fn build<D: Depot>(
    alloc: Global,
    edges: &Edges,
    shape: &Shape,
    depot: &mut D,
    name: &str,
) -> Result<(), Trouble>
    requires ends { IsGraph shape.now.n edges.now }
    requires few { length edges.now ≤ MAX_EDGES }
    ensures ok { OnOk result
        (HoldsGrid (D.state depot.old) (D.state depot.new) name.now shape.now edges.now) }
    ensures grid { OnOk result (IsBuiltGrid shape.now edges.now) }
    ensures graph { OnOk result (KeepsGraph shape.now edges.now) }
    ensures err { OnErr result
        (HoldsPart (D.state depot.old) (D.state depot.new) name.now shape.now edges.now) }
    ensures cause { CountsFaults (D.state depot.old) (D.state depot.new) result }
    ensures write_cause { CountsWriteFaults (D.state depot.old) (D.state depot.new) result }
    ensures calm { IsTrue (D.state depot.old).calm → IsErrOf result Trouble.Failed → ⊥ }
    ensures frame { OnlyWrites (D.state depot.old) (D.state depot.new) }
{
    let file = file_of(alloc, shape, edges.as_slice())?;
    depot.create(name)?;
    depot.append(name, &file)?;
    Ok(())
}
