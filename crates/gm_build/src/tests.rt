//! The one call that can want memory, once with ample memory.

ghost use Rattle.std.specs.Prelude.{◌≡◌};
ghost use Rattle.gm_base.specs.Graph.{edge};

use crate::build;
use gm_base::{Edge, Edges, Shape};
use gm_fakes::MemDepot;
use std::test::Fail;

/// A path over four vertices with a shortcut, in two ranges.
const PATH: [u8; 96] = *b"GGRID001\x04\0\0\0\x02\0\0\0\
    \x01\0\0\0\0\0\0\0\x02\0\0\0\0\0\0\0\0\0\0\0\0\0\0\0\x01\0\0\0\0\0\0\0\
    \0\0\0\0\x01\0\0\0\x01\0\0\0\x01\0\0\0\x02\0\0\0\x01\0\0\0\
    \0\0\0\0\x02\0\0\0\x05\0\0\0\x02\0\0\0\x03\0\0\0\x01\0\0\0";

fn edge(from: u32, to: u32, weight: u32) -> Edge
    ensures { result ≡ edge from to weight }
{
    Edge { from, to, weight }
}

#[test]
fn builds_a_grid(rt: HostRuntime) -> Result<(), Fail> {
    let alloc = rt.alloc();
    let mut edges = Edges::new(alloc);
    edges.push(edge(2, 3, 1))?;
    edges.push(edge(0, 1, 1))?;
    edges.push(edge(1, 2, 1))?;
    edges.push(edge(0, 2, 5))?;
    let shape = Shape::new(4, 2).unwrap();
    let mut depot = MemDepot::new(alloc, Vec::new(alloc));
    build(alloc, &edges, &shape, &mut depot, "a.grid")?;
    assert!(rt;
        depot
            .file("a.grid")
            .is_some_and(|bytes| bytes == PATH.as_slice())
    );
    Ok(())
}
