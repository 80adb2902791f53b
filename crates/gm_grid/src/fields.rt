//! The fields of a grid's file: its head, the number of edges of a block, and an edge.

ghost use Rattle.std.specs.Prelude.{◌≡◌, IfOk};
ghost use Rattle.std.specs.Result.{result_err};
ghost use Rattle.gm_base.specs.Dimensions.{AreDimensions};
ghost use Rattle.gm_grid.specs.Format.{head_bytes, count_bytes, edge_bytes};
ghost use Rattle.gm_grid.specs.GridBytes.{shape_of_head, edge_of_bytes};
ghost use Rattle.gm_grid.specs.GridRefusals.{head_refusal};

use crate::{EDGE_SIZE, ENTRY_SIZE, GridError, HEAD_SIZE};
use byteorder::{ByteOrder, LittleEndian};
use gm_base::{Edge, Shape};

/// What a grid's file begins with.
const MAGIC: [u8; 8] = *b"GGRID001";

/// The shape that a head tells. `BadMagic` where the first 8 aren't `GGRID001`, else `BadShape` where
/// the numbers behind them are no shape's.
#[tactic(auto, unfolding(crate::specs::GridRefusals::head_refusal))]
pub fn read_head(bytes: &[u8; HEAD_SIZE]) -> Result<Shape, GridError>
    ensures refused { result_err result ≡ head_refusal bytes.now }
    ensures shape { IfOk result (λ shape. shape ≡ shape_of_head bytes.now) }
    ensures head { IfOk result (λ shape.
        AreDimensions shape.n shape.parts × (bytes.now ≡ head_bytes shape.n shape.parts)) }
{
    if &bytes[..8] != MAGIC.as_slice() {
        return Err(GridError::BadMagic);
    }
    let n = LittleEndian::read_u32(&bytes[8..]);
    let parts = LittleEndian::read_u32(&bytes[12..]);
    Shape::new(n, parts).ok_or(GridError::BadShape { n, parts })
}

/// Writes the head of the file of a grid of this shape.
pub fn write_head(shape: &Shape, into: &mut [u8; HEAD_SIZE])
    ensures { into.new ≡ head_bytes shape.now.n shape.now.parts }
{
    into[..8].copy_from_slice(&MAGIC);
    LittleEndian::write_u32(&mut into[8..], shape.n());
    LittleEndian::write_u32(&mut into[12..], shape.parts());
}

/// Writes the bytes of the number of edges of a block.
pub fn write_count(count: u64, into: &mut [u8; ENTRY_SIZE])
    ensures { into.new ≡ count_bytes count }
{
    LittleEndian::write_u64(into, count);
}

/// The edge of these bytes: its source, its destination and its weight.
pub fn read_edge(bytes: &[u8; EDGE_SIZE]) -> Edge
    ensures value { result ≡ edge_of_bytes bytes.now }
    ensures bytes { edge_bytes result ≡ bytes.now }
{
    Edge {
        from: LittleEndian::read_u32(bytes),
        to: LittleEndian::read_u32(&bytes[4..]),
        weight: LittleEndian::read_u32(&bytes[8..]),
    }
}

/// Writes the bytes of the edge.
pub fn write_edge(e: &Edge, into: &mut [u8; EDGE_SIZE])
    ensures { into.new ≡ edge_bytes e.now }
{
    LittleEndian::write_u32(&mut into[..4], e.from);
    LittleEndian::write_u32(&mut into[4..8], e.to);
    LittleEndian::write_u32(&mut into[8..], e.weight);
}
