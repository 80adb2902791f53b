//! One and two rounds over a path of two edges and a dear edge beside it, worked out by hand.

use crate::{Bfs, Sssp};
use gm_base::{Edge, TOP};
use gm_kernel::{Kernel, pass_edges};

/// The values of three vertices after a round from these. What a vertex carries is its value.
fn after_round<K: Kernel>(kernel: &K, values: [u64; 3]) -> [u64; 3] {
    let edges = [(0, 1, 7), (1, 2, 2), (0, 2, 10)].map(|(from, to, weight)| Edge {
        from,
        to,
        weight,
    });
    let mut sums = values;
    pass_edges(kernel, &edges, &values, &[2, 1, 0], &mut sums);
    sums
}

#[test]
fn levels(rt: HostRuntime) {
    let kernel = Bfs { source: 0 };
    let start = [kernel.init(0), kernel.init(1), kernel.init(2)];
    assert_eq!(rt; start, [0, TOP, TOP]);
    assert_eq!(rt; kernel.start(9), 9);
    assert_eq!(rt; after_round(&kernel, start), [0, 1, 1]);
    assert!(rt; kernel.active(true, 0, 0, 2));
    assert!(rt; !kernel.active(true, 0, TOP, 1));
    assert!(rt; !kernel.active(false, 0, 0, 2));
}

#[test]
fn distances(rt: HostRuntime) {
    let kernel = Sssp { source: 0 };
    let start = [kernel.init(0), kernel.init(1), kernel.init(2)];
    assert_eq!(rt; start, [0, TOP, TOP]);
    assert_eq!(rt; after_round(&kernel, start), [0, 7, 10]);
    assert_eq!(rt; after_round(&kernel, [0, 7, 10]), [0, 7, 9]);
    assert!(rt; kernel.active(false, 10, 9, 0));
}
