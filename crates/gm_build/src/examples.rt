//! The definition of the file that is built, computed on a small graph that was worked out by hand.
#![tactic(auto, unfolding(crate::specs::Blocks::built_file))]

ghost use Rattle.std.specs.Prelude.{◌≡◌};
ghost use Rattle.gm_base.specs.Examples.{path_with_shortcut};
ghost use Rattle.gm_grid.specs.Format.{dimensions_of};
ghost use Rattle.gm_grid.specs.SmallGrids.{path_file, path_blocks};
ghost use Rattle.gm_build.specs.Blocks.{blocks_from, built_file};

/// A path over four vertices with a shortcut, in two ranges.
pub fn file_of_a_path()
    ensures blocks { blocks_from (dimensions_of 4 2) path_with_shortcut ≡ path_blocks }
    ensures bytes { built_file (dimensions_of 4 2) path_with_shortcut ≡ path_file }
{}
