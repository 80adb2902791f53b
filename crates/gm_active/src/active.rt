//! The active vertices of a round.

ghost use Rattle.std.specs.Prelude.{◌≡◌, ◌<◌, ◌≤◌, true, false, length, slice_set, replicate, IfOk};
ghost use Rattle.gm_active.specs.Bits.{is_in, any_between};

use crate::bit_set::BitSet;
use gm_base::Memory;
use std::alloc::Global;
use std::marker::Model;

/// The active vertices of a round. Contracts see a mark for each vertex.
#[derive(Drop)]
pub struct Active {
    vertices: BitSet,
}

impl Model for Active {
    ghost use Rattle.std.specs.Prelude.{Bool, List};

    ghost Value = { List Bool };

    ghost view = { λ a. a.vertices };
}

impl Active {
    /// None of so many vertices is active.
    pub fn new(alloc: Global, n: u32) -> Result<Active, Memory>
        ensures { IfOk result (λ active. active ≡ replicate n false) }
    {
        let vertices = BitSet::new(alloc, n)?;
        Ok(Active { vertices })
    }

    /// No vertex is active any more.
    pub fn clear(&mut self)
        ensures { self.new ≡ replicate (length self.old) false }
    {
        self.vertices.clear();
    }

    /// The vertex is active.
    pub fn mark(&mut self, v: u32)
        requires { v < length self.old }
        ensures { self.new ≡ slice_set self.old v true }
    {
        self.vertices.insert(v);
    }

    /// Whether the vertex is active.
    pub fn has(&self, v: u32) -> bool
        requires { v < length self.now }
        ensures { result ≡ is_in self.now v }
    {
        self.vertices.has(v)
    }

    /// Whether one of the vertices from this one on and below the end is active.
    pub fn any(&self, from: u32, to: u32) -> bool
        requires { to ≤ length self.now }
        ensures { result ≡ any_between (is_in self.now) from to }
    {
        self.vertices.any(from, to)
    }
}
