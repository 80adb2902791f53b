//! The shape of a grid.

ghost use Rattle.std.specs.Prelude.{◌≡◌, ◌+◌, ◌*◌, ◌<◌, ◌≤◌, IfSome, IfNone};

use crate::{Edge, MAX_PARTS, MAX_VERTICES};
use std::marker::Model;

/// The number of vertices of a grid, 1 to 2^20, and into how many ranges they are cut, 1 to 64 and at most as many as there
/// are vertices. GridGraph's grid has parts * parts blocks.
#[derive(Clone, Copy)]
pub struct Shape {
    n: u32,
    parts: u32,
}

impl Model for Shape {
    ghost use Rattle.gm_base.specs.Dimensions.{Dimensions, AreDimensions};

    ghost Value = { Dimensions };

    ghost view = { λ a. record { n = a.n; parts = a.parts } };

    ghost invariant = { λ a. AreDimensions a.n a.parts };

    ghost inverse = { λ d. record { n = d.n; parts = d.parts } };
}

impl Shape {
    ghost use Rattle.gm_base.specs.Dimensions.{Dimensions, AreDimensions, width_of, range_of, block_of};
    ghost use Rattle.gm_base.specs.Graph.{HasEndsBelow};

    /// `None` exactly where n isn't 1 to 2^20, parts isn't 1 to 64, or parts is above n.
    pub fn new(n: u32, parts: u32) -> Option<Shape>
        ensures some { IfSome result (λ shape. AreDimensions n parts × (shape.n ≡ n) × (shape.parts ≡ parts)) }
        ensures none { IfNone result (AreDimensions n parts → ⊥) }
    {
        let fits = 1 <= n && n <= MAX_VERTICES && 1 <= parts && parts <= MAX_PARTS && parts <= n;
        if fits { Some(Shape { n, parts }) } else { None }
    }

    /// The number of vertices.
    pub fn n(&self) -> u32
        ensures value { result ≡ self.now.n }
        ensures dimensions { AreDimensions self.now.n self.now.parts }
    {
        self.n
    }

    /// The number of ranges.
    pub fn parts(&self) -> u32
        ensures value { result ≡ self.now.parts }
        ensures dimensions { AreDimensions self.now.n self.now.parts }
    {
        self.parts
    }

    /// How many vertices a range has: n / parts, rounded up. Ranges at the end may be shorter or empty.
    pub fn width(&self) -> u32
        ensures value { result ≡ width_of self.now }
        ensures some_vertex { 1 ≤ result }
    {
        (self.n + (self.parts - 1)) / self.parts
    }

    /// The range of a vertex.
    pub fn row(&self, v: u32) -> u32
        requires { v < self.now.n }
        ensures value { result ≡ range_of self.now v }
        ensures within { result < self.now.parts }
    {
        v / self.width()
    }

    /// The block of an edge whose ends are both below n. Blocks are counted row by row, a row for each range of sources.
    pub fn block_of(&self, e: &Edge) -> u32
        requires { HasEndsBelow self.now.n e.now }
        ensures value { result ≡ block_of self.now e.now }
        ensures within { result < self.now.parts * self.now.parts }
    {
        self.row(e.from) * self.parts + self.row(e.to)
    }
}
