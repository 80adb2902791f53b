//! Which chunks a change may concern.

ghost use Rattle.std.specs.Prelude.{◌≡◌, ◌*◌, ◌<◌, ◌≤◌, ◌-◌, [], ◌∷◌, option_to_list};
ghost use Rattle.gm_changes.specs.Changes.{ChangesWithin};
ghost use Rattle.gm_versions.specs.Contents.{added_sources};
ghost use Rattle.gm_versions.specs.Reaches.{IsReachOf};

use gm_base::Edge;
use gm_changes::Change;
use gm_label::Catalogue;
use std::ops::Range;

/// The source of an edge that a change adds.
pub fn added_source(change: Change) -> Option<u32>
    ensures { option_to_list result ≡ added_sources (change ∷ []) }
{
    match change {
        Change::Add(edge) => Some(edge.from),
        Change::Cut { .. } => None,
    }
}

/// The chunks that a change may concern, whatever their sources are: the last chunk of an added edge's block, and the chunks of a
/// cut's block.
pub fn reach(cat: &Catalogue, change: Change) -> Range<u32>
    requires { ChangesWithin cat.now.dimensions.n change }
    ensures { IsReachOf cat.now change result.start result.end }
{
    match change {
        Change::Add(edge) => {
            let chunks = cat.chunks_of(cat.shape().block_of(&edge));
            chunks.end - 1..chunks.end
        }
        Change::Cut { from, to } => {
            let weight = 0;
            cat.chunks_of(cat.shape().block_of(&Edge { from, to, weight }))
        }
    }
}
