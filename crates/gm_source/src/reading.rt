//! Reading the edges of a chunk.

ghost use Rattle.std.specs.Prelude.{◌≡◌, ◌<◌, ◌≤◌, length, min, map, IsTrue, IsErrOf, IfSome, IfOk, OnOk, vec_len};
ghost use Rattle.gm_outside.specs.Files.{HasRange, HasBytesAt};
ghost use Rattle.gm_outside.specs.Frames.{OnlyReads, CountsFaults};
ghost use Rattle.gm_grid.specs.Format.{is_within};
ghost use Rattle.gm_grid.specs.GridBytes.{edge_of_bytes, edges_of_bytes};
ghost use Rattle.gm_source.specs.Openings.{AreBytes, Decodes, ReadsJust};

use gm_base::Edge;
use gm_grid::{BlockRanges, read_edge};
use gm_outside::{Depot, Trouble};
use std::alloc::{AllocError, Global};

/// Reads edges up to the first that isn't within the ranges, which is answered.
fn decode(
    ranges: &BlockRanges,
    bytes: &[[u8; 12]],
    edges: &mut Vec<Edge>,
) -> Result<Option<Edge>, AllocError>
    ensures { IfOk result (λ stray.
        Decodes (is_within ranges.now) (map edge_of_bytes bytes.now) edges.new.items stray) }
{
    edges.clear();
    edges.reserve_exact(bytes.len())?;
    for bytes in bytes {
        let edge = read_edge(bytes);
        if !ranges.contains(&edge) {
            return Ok(Some(edge));
        }
        edges.push(edge)?;
    }
    Ok(None)
}

/// These are bytes.
pub(crate) fn are_bytes(bytes: &[u8])
    ensures { AreBytes bytes.now }
{
    let _bytes = bytes;
}

/// Fills the buffer with the bytes of a file from `pos` on, by one read, or by none where it is empty.
fn fill<D: Depot>(depot: &mut D, name: &str, pos: u64, buffer: &mut [u8]) -> Result<(), Trouble>
    ensures bytes { IfSome (D.state depot.old).files (λ held. 0 < length buffer.old
        → OnOk result (HasBytesAt held name.now pos buffer.new)) }
    ensures length { length buffer.new ≡ length buffer.old }
    ensures cause { CountsFaults (D.state depot.old) (D.state depot.new) result }
    ensures calm { IsTrue (D.state depot.old).calm → IfSome (D.state depot.old).files (λ held.
        HasRange held name.now pos (length buffer.old)
        → IsErrOf result Trouble.Failed → ⊥) }
    ensures read { ReadsJust (min 1 (length buffer.old)) (D.state depot.old) (D.state depot.new) }
    ensures frame { OnlyReads 0 (min 1 (length buffer.old)) (D.state depot.old) (D.state depot.new) }
{
    if buffer.is_empty() {
        return Ok(());
    }
    depot.read_at(name, pos, buffer)
}

/// Reads the edges of a file that stand from `pos` on, as many as the buffer has room for, up to the first that isn't within the ranges,
/// which is answered.
pub(crate) fn read_edges<D: Depot>(
    depot: &mut D,
    name: &str,
    pos: u64,
    ranges: &BlockRanges,
    buffer: &mut [u8],
    edges: &mut Vec<Edge>,
) -> Result<Option<Edge>, Trouble>
    ensures bytes { IfSome (D.state depot.old).files (λ held. 0 < length buffer.old
        → OnOk result (HasBytesAt held name.now pos buffer.new)) }
    ensures length { length buffer.new ≡ length buffer.old }
    ensures are_bytes { AreBytes buffer.new }
    ensures decoded { IfOk result (λ stray.
        Decodes (is_within ranges.now) (edges_of_bytes buffer.new) edges.new.items stray) }
    ensures cause { CountsFaults (D.state depot.old) (D.state depot.new) result }
    ensures calm { IsTrue (D.state depot.old).calm → IfSome (D.state depot.old).files (λ held.
        HasRange held name.now pos (length buffer.old)
        → IsErrOf result Trouble.Failed → ⊥) }
    ensures read { ReadsJust (min 1 (length buffer.old)) (D.state depot.old) (D.state depot.new) }
    ensures frame { OnlyReads 0 (min 1 (length buffer.old)) (D.state depot.old) (D.state depot.new) }
{
    let filled = fill(depot, name, pos, buffer);
    are_bytes(buffer);
    filled?;
    let stray = decode(ranges, buffer.as_chunks::<12>().0, edges)?;
    Ok(stray)
}

/// So many zeros, as room for what is read.
pub(crate) fn zeros(alloc: Global, count: usize) -> Result<Vec<u8>, AllocError>
    ensures { IfOk result (λ zeros. vec_len zeros ≡ count) }
{
    vec![in alloc; 0; count]
}

/// Makes a buffer wide enough for so many bytes.
pub(crate) fn widen(buffer: &mut Vec<u8>, count: usize) -> Result<(), AllocError>
    ensures { OnOk result (count ≤ vec_len buffer.new) }
{
    if buffer.len() < count {
        buffer.reserve_exact(count - buffer.len())?;
        buffer.resize(count, 0)?;
    }
    Ok(())
}
