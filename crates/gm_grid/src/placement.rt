//! Which edges may stand in which block of a grid.

ghost use Rattle.std.specs.Prelude.{◌≡◌, ◌*◌, ◌<◌, ◌≤◌, ◌↔◌, min, IsTrue};
ghost use Rattle.gm_base.specs.Dimensions.{width_of, block_of};
ghost use Rattle.gm_base.specs.Graph.{HasEndsBelow};
ghost use Rattle.gm_grid.specs.Format.{is_in_block, is_within, AreRangesOf};

use gm_base::{Edge, Shape};

/// Whether both ends of the edge are vertices and it lies in this block.
pub fn check_edge(shape: &Shape, block: u32, e: &Edge) -> bool
    ensures value { result ≡ is_in_block shape.now block e.now }
    ensures holds { IsTrue result ↔ (HasEndsBelow shape.now.n e.now × (block_of shape.now e.now ≡ block)) }
{
    e.from < shape.n() && e.to < shape.n() && shape.block_of(e) == block
}

/// The first vertex of a range, and so the end of the range before: n where no vertex is in it or behind it.
fn range_start(shape: &Shape, range: u32) -> u32
    requires { range ≤ shape.now.parts }
    ensures { result ≡ min (range * width_of shape.now) shape.now.n }
{
    let n = shape.n();
    (range * shape.width()).min(n)
}

/// A block as a range of sources and a range of destinations, which end before their `end`. It makes the same test as
/// [`check_edge`], for many edges of one block: no edge costs a division.
#[derive(Clone, Copy)]
pub struct BlockRanges {
    first_source: u32,
    end_source: u32,
    first_destination: u32,
    end_destination: u32,
}

impl BlockRanges {
    /// The ranges of this block.
    pub fn of(shape: &Shape, block: u32) -> BlockRanges
        requires { block < shape.now.parts * shape.now.parts }
        ensures { AreRangesOf shape.now block result }
    {
        let row = block / shape.parts();
        let column = block % shape.parts();
        BlockRanges {
            first_source: range_start(shape, row),
            end_source: range_start(shape, row + 1),
            first_destination: range_start(shape, column),
            end_destination: range_start(shape, column + 1),
        }
    }

    /// Whether the edge lies in the block.
    pub fn contains(&self, e: &Edge) -> bool
        ensures { result ≡ is_within self.now e.now }
    {
        self.first_source <= e.from
            && e.from < self.end_source
            && self.first_destination <= e.to
            && e.to < self.end_destination
    }
}
