//! Laws of the file that is built.

ghost use Rattle.std.specs.Prelude.{◌≤◌, ◌<◌, ◌^◌, List, All, length};
ghost use Rattle.gm_base.specs.declared.limits.TheConstants.{MAX_EDGES};
ghost use Rattle.gm_base.specs.declared.edge.Edge.{Edge};
ghost use Rattle.gm_base.specs.Dimensions.{Dimensions, AreDimensions};
ghost use Rattle.gm_base.specs.Graph.{IsGraph};
ghost use Rattle.gm_build.specs.Blocks.{IsBuiltGrid, KeepsGraph};

/// The file that is built of a graph is a grid.
pub fn built_file_is_a_grid()
    ensures { (d : Dimensions) (edges : List Edge) → AreDimensions d.n d.parts → IsGraph d.n edges
        → All (λ e. e.weight < 2 ^ 32) edges → length edges ≤ MAX_EDGES → IsBuiltGrid d edges }
{}

/// The edges of its blocks are the same graph.
pub fn same_graph_in_the_file()
    ensures { (d : Dimensions) (edges : List Edge) → AreDimensions d.n d.parts → IsGraph d.n edges
        → KeepsGraph d edges }
{}
