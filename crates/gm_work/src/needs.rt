//! The chunks that a job owes as a phase begins.

ghost use Rattle.std.specs.Prelude.{◌≡◌, ℕ, ◌<◌, Bool, length};
ghost use Rattle.gm_kernel.specs.Kernels.{kernel_of};
ghost use Rattle.gm_active.specs.Bits.{is_in};
ghost use Rattle.gm_active.specs.Needs.{needed_chunks};
ghost use Rattle.gm_label.specs.Catalogues.{place_at, AreInRows};
ghost use Rattle.gm_label.specs.Overlays.{sources_under, AreOverlays};

use crate::kinds::is_two_way;
use gm_active::{Active, ChunkSet, owed};
use gm_base::Spec;
use gm_label::{Catalogue, Overlays};

/// Makes the chunks owed that a job needs in a round in which the marked vertices are active. No chunk has a source that isn't a vertex, so that
/// the marks may stand for any test that agrees with them at each vertex.
pub(crate) fn owe_needed(
    spec: Spec,
    catalogue: &Catalogue,
    overlays: &Overlays,
    active: &Active,
    into: &mut ChunkSet,
)
    requires in_rows { AreInRows catalogue.now }
    requires overlays { AreOverlays catalogue.now overlays.now }
    requires marks { length active.now ≡ catalogue.now.dimensions.n }
    requires chunks { length into.old ≡ length catalogue.now.places }
    ensures needed { (is_active : ℕ → Bool)
        → ((v : ℕ) → v < catalogue.now.dimensions.n → is_in active.now v ≡ is_active v)
        → into.new
        ≡ needed_chunks catalogue.now.dimensions (kernel_of spec).is_two_way is_active (length catalogue.now.places)
        (λ c. (place_at catalogue.now c).block) (sources_under catalogue.now overlays.now) }
    ensures length { length into.new ≡ length into.old }
{
    owed(catalogue, overlays, active, is_two_way(spec), into);
}
