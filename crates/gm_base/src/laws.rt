//! Laws of graphs and of the size of a grid.

ghost use Rattle.std.specs.Prelude.{◌≡◌, ◌+◌, ◌*◌, ◌<◌, ◌≤◌, ◌↔◌, ℕ, List, ◌++◌};
ghost use Rattle.gm_base.specs.declared.edge.Edge.{Edge};
ghost use Rattle.gm_base.specs.Dimensions.{Dimensions, AreDimensions, width_of, range_of, block_of};
ghost use Rattle.gm_base.specs.Graph.{HasEndsBelow, IsSameGraph, out_degree};

/// A law: an edge whose ends are vertices lies in one of the parts * parts blocks.
pub fn block_is_in_the_grid()
    ensures { (d : Dimensions) (e : Edge) → AreDimensions d.n d.parts → HasEndsBelow d.n e → block_of d e < d.parts * d.parts }
{}

/// A law: a vertex lies in the range whose first vertex is not above it, and whose end is.
pub fn range_of_a_vertex()
    ensures { (d : Dimensions) (v range : ℕ) → AreDimensions d.n d.parts
        → (range_of d v ≡ range) ↔ ((range * width_of d ≤ v) × (v < (range + 1) * width_of d)) }
{}

/// A law: to be the same graph is symmetric and transitive, and kept when lists are joined, in either order.
pub fn same_graph()
    ensures symmetric { (xs ys : List Edge) → IsSameGraph xs ys → IsSameGraph ys xs }
    ensures transitive { (xs ys zs : List Edge) → IsSameGraph xs ys → IsSameGraph ys zs → IsSameGraph xs zs }
    ensures joined { (xs ys us vs : List Edge) → IsSameGraph xs ys → IsSameGraph us vs → IsSameGraph (xs ++ us) (ys ++ vs) }
    ensures any_order { (xs ys : List Edge) → IsSameGraph (xs ++ ys) (ys ++ xs) }
{}

/// A law: the same graph has the same out-degrees, and those of two lists joined add up.
pub fn out_degrees()
    ensures same { (xs ys : List Edge) → IsSameGraph xs ys → (v : ℕ) → out_degree xs v ≡ out_degree ys v }
    ensures joined { (xs ys : List Edge) (v : ℕ) → out_degree (xs ++ ys) v ≡ out_degree xs v + out_degree ys v }
{}
