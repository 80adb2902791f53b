//! The keys of the copies that a job sees.

ghost use Rattle.std.specs.Prelude.{◌≡◌};
ghost use Rattle.gm_label.specs.Overlays.{key_at, AscendByChunk};

use gm_base::{Key, Tag};
use gm_label::Overlay;

/// The key of the copy that a job sees of a chunk: the grid's own where none of its overlays is the chunk's.
pub(crate) fn key_of(overlays: &[Overlay], chunk: u32) -> Key
    requires { AscendByChunk 0 overlays.now }
    ensures { result ≡ key_at overlays.now chunk }
{
    match overlays.binary_search_by_key(&chunk, |overlay| overlay.key.chunk) {
        Ok(at) => overlays[at].key,
        Err(_) => Key {
            chunk,
            tag: Tag::Update(0),
        },
    }
}
