//! Outputs, computed for a small input.
#![tactic(auto, unfolding(crate::specs::Builds::output_text, crate::specs::Infos::info_text))]

ghost use Rattle.std.specs.Prelude.{◌≡◌, codes};
ghost use Rattle.gm_tools.specs.Builds.{output_text};
ghost use Rattle.gm_tools.specs.Infos.{info_text};

/// What is written of four edges in four blocks.
pub fn output_of_a_build()
    ensures { output_text 4 4 ≡ codes "edges 4 blocks 4\n" }
{}

/// What is written of four vertices in two ranges, with four edges in five chunks.
pub fn output_of_an_info()
    ensures { info_text 4 2 4 5 4 ≡ codes "vertices 4\nparts 2\nedges 4\nchunks 5\nlabels 4\n" }
{}
