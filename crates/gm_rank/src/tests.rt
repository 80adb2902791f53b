//! Rounds over a small graph, worked out by hand.

use crate::{Rank, count_pass, pass_shares, take_shares};
use gm_base::Edge;
use gm_kernel::{Kernel, MAX_RANK, pass_edges};

const CARRIED: [u64; 3] = [150_000_000; 3];

/// The sources and destinations of the edges.
const ENDS: [(u32, u32); 3] = [(0, 1), (0, 2), (2, 0)];

#[test]
fn ranks(rt: HostRuntime) {
    let kernel = Rank { rounds: 2 };
    let edges = ENDS.map(|(from, to)| Edge {
        from,
        to,
        weight: 1,
    });
    let mut degrees = [0; 3];
    count_pass(&edges, &mut degrees);
    assert_eq!(rt; degrees, [2, 0, 1]);
    let start = [kernel.init(0), kernel.init(1), kernel.init(2)];
    let mut first = start.map(|rank| kernel.start(rank));
    assert_eq!(rt; first, CARRIED);
    pass_edges(&kernel, &edges, &start, &degrees, &mut first);
    assert_eq!(rt; first, [1_000_000_000, 575_000_000, 575_000_000]);
    let mut second = CARRIED;
    pass_edges(&kernel, &edges, &first, &degrees, &mut second);
    assert_eq!(rt; second, [638_750_000, 575_000_000, 575_000_000]);
    assert!(rt; kernel.active(true, 0, 1_000_000_000, 2));
    assert!(rt; !kernel.active(false, 0, 1_000_000_000, 0));
}

#[test]
fn shares(rt: HostRuntime) {
    let kernel = Rank { rounds: 1 };
    // 0.85 of 7 is 5.95; 85 / 300 of 2^57 is 40,832,636,621,492,497.07; a greater rank is divided before it is multiplied.
    assert_eq!(rt; kernel.give(7, 1, 1), 5);
    assert_eq!(rt; kernel.give(MAX_RANK, 3, 1), 40_832_636_621_492_497);
    assert_eq!(rt; kernel.give(u64::MAX, 1, 1), 15_679_732_462_653_118_872);
    assert_eq!(rt; kernel.give(u64::MAX, 0, 1), 0);
}

#[test]
fn shares_taken_before(rt: HostRuntime) {
    let edges = ENDS.map(|(from, to)| Edge {
        from,
        to,
        weight: 1,
    });
    let mut shares = [0; 3];
    take_shares(
        &[1_000_000_000, 575_000_000, 575_000_000],
        &[2, 0, 1],
        &mut shares,
    );
    assert_eq!(rt; shares, [425_000_000, 0, 488_750_000]);
    let mut sums = CARRIED;
    pass_shares(&edges, &shares, &mut sums);
    assert_eq!(rt; sums, [638_750_000, 575_000_000, 575_000_000]);
}
