//! Rounds over a path of two edges, against their direction and along it, worked out by hand.

use crate::Least;
use gm_base::Edge;
use gm_kernel::{Kernel, pass_edges};

#[test]
fn labels(rt: HostRuntime) {
    let edges = [(2, 1), (1, 0)].map(|(from, to)| Edge {
        from,
        to,
        weight: 1,
    });
    let start = [Least.init(0), Least.init(1), Least.init(2)];
    assert_eq!(rt; start, [0, 1, 2]);
    let mut first = start.map(|label| Least.start(label));
    pass_edges(&Least, &edges, &start, &[0, 1, 1], &mut first);
    assert_eq!(rt; first, [0, 0, 1]);
    let mut second = first;
    pass_edges(&Least, &edges, &first, &[0, 1, 1], &mut second);
    assert_eq!(rt; second, [0, 0, 0]);
    assert!(rt; Least.active(true, 0, 2, 1));
    assert!(rt; Least.active(false, 1, 0, 1));
    assert!(rt; !Least.active(false, 1, 1, 1));
}
